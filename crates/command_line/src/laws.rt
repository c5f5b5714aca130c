//! Laws of the words, each the contract of a function with no body.
ghost use Rattle.command_line.specs.Plain.{PlainDemoIsRead, PlainDemoIsTaken, PlainNumbersAreRefused, PlainOptionsAreRead, PlainReplayIsRead, PlainReplayIsTaken, PlainWordsAreTaken};
ghost use Rattle.command_line.specs.Taken.{TakenWordsFailByNumbers};

/// Plain words of a command that runs a guest are taken: any program name, options that the command has, each at most once and
/// those that it has to have among them, in any order, then the image and any further words.
pub fn plain_words_are_taken()
    ensures { PlainWordsAreTaken }
{}

/// What is read of plain words: the values in the words, and the defaults for what is left out.
pub fn plain_options_are_read()
    ensures { PlainOptionsAreRead }
{}

/// Plain words of `replay` are taken: options that it has, each at most once and `-o` among them, then the trace.
pub fn plain_replays_are_taken()
    ensures { PlainReplayIsTaken }
{}

/// What is read of them: the values in the words, the width of 32 bits where none is given, and whether `--stats` is given.
pub fn plain_replays_are_read()
    ensures { PlainReplayIsRead }
{}

/// `demo` and a plain number are taken, for any program name.
pub fn plain_demo_is_taken()
    ensures { PlainDemoIsTaken }
{}

/// What they ask for: the demo of the number that the word says, where that is in its form and range.
pub fn plain_demo_is_read()
    ensures { PlainDemoIsRead }
{}

/// Plain words ask for nothing where a number is out of its form or range, or where the numbers of a cache make no shape.
pub fn plain_numbers_are_refused()
    ensures { PlainNumbersAreRefused }
{}

/// Words that `clap` takes are refused only for a zero byte or a number out of its form or range.
pub fn taken_words_fail_by_numbers()
    ensures { TakenWordsFailByNumbers }
{}
