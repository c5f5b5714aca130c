//! The words of command lines.
use command_line::{Analysis, Command, CommandError, GuestCommand, read_command};
use stamps::StampBits;
use std::alloc::{AllocError, Global};
use std::test::Fail;

// The words of a line, between single spaces.
fn words_of(alloc: Global, line: &str) -> Result<Vec<String>, AllocError> {
    let mut words = Vec::new(alloc);
    for word in line.split(' ') {
        words.push(String::from_str(alloc, word)?)?;
    }
    Ok(words)
}

// The numbers that words ask for, the quantum and the budget or that of `demo`, where they are of the form.
fn numbers_of(alloc: Global, words: &[String]) -> Result<Option<(u64, u64)>, AllocError> {
    match read_command(alloc, words) {
        Ok(Command::Guest(command)) => Ok(Some((command.guest.quantum, command.guest.budget))),
        Ok(Command::Replay(_)) => Ok(Some((0, 0))),
        Ok(Command::Demo(number)) => Ok(Some((0, u64::from(number)))),
        Err(CommandError::Refused) => Ok(None),
        Err(CommandError::Memory) => Err(AllocError),
    }
}

// The command that was asked for, which runs a guest.
fn guest_of<'a>(read: Result<Command<'a>, CommandError>) -> Option<GuestCommand<'a>> {
    match read {
        Ok(Command::Guest(command)) => Some(command),
        _ => None,
    }
}

// The width of stamps and whether statistics are asked for, of `run`.
fn stamps_of(analysis: &Analysis<'_>) -> Option<(StampBits, bool)> {
    match analysis {
        Analysis::Run(options) => Some((options.bits, options.stats)),
        _ => None,
    }
}

// The path of the recording, of `run`.
fn recording_of<'a>(analysis: &Analysis<'a>) -> Option<&'a str> {
    match analysis {
        Analysis::Run(options) => options.recording,
        _ => None,
    }
}

#[test]
fn words_of_the_form_are_taken(rt: HostRuntime) -> Result<(), Fail> {
    let usual = (10_000, 1_000_000_000);
    for (line, numbers) in [
        ("aprof run -o r img", usual),
        ("aprof run img in -o r", usual),
        ("aprof run -or --stdin=s -- -img", usual),
        (" run --record t -o r img = =-x in in", usual),
        ("aprof run --quantum 1 --budget 1 -o r img", (1, 1)),
        (
            "aprof run --budget 1000000000000 -o r --quantum 1000000000 img",
            (1_000_000_000, 1_000_000_000_000),
        ),
        (
            "aprof run --quantum 00000000000000000007 -o r img",
            (7, 1_000_000_000),
        ),
        ("aprof trace -o t img", usual),
        ("aprof trace --budget 1 img in --quantum 7 -o t", (7, 1)),
        ("aprof cache --sets 1 --ways 1 --line 4 -o c img", usual),
        (
            "aprof cache -o c --sets 65536 --budget 2 --ways 64 --line 4096 img",
            (10_000, 2),
        ),
        (
            "aprof contexts -o c --stamps 8 img in --budget 3",
            (10_000, 3),
        ),
        ("aprof replay -o r t", (0, 0)),
        ("aprof replay t --stats -o r --stamps 016", (0, 0)),
        ("aprof demo 8", (0, 8)),
        ("aprof demo 08", (0, 8)),
        ("aprof demo 40000", (0, 40_000)),
    ] {
        let words = words_of(rt.alloc(), line)?;
        assert_eq!(rt; numbers_of(rt.alloc(), &words)?, Some(numbers), "{line}");
    }
    Ok(())
}

#[test]
fn other_words_are_refused(rt: HostRuntime) -> Result<(), Fail> {
    assert_eq!(rt; numbers_of(rt.alloc(), &[])?, None);
    for line in [
        "aprof",
        "aprof help",
        "aprof --help",
        "aprof demo",
        "aprof demo 0",
        "aprof demo 40001",
        "aprof demo 8 9",
        "aprof demo 8x",
        "aprof demo -o r 8",
        "aprof run --help",
        "aprof run -h",
        "aprof run img",
        "aprof run -o r",
        "aprof run img -o",
        "aprof run -o r --stats=x img",
        "aprof run -o r --stats --stats img",
        "aprof run --stamps 7 -o r img",
        "aprof run --stamps 64 -o r img",
        "aprof run --stamps 8 --stamps 8 -o r img",
        "aprof run -o r -o r img",
        "aprof cache --sets 3 --ways 1 --line 64 -o c img",
        "aprof cache --sets 1 --ways 65 --line 64 -o c img",
        "aprof cache --sets 1 --ways 1 --line 2 -o c img",
        "aprof cache --sets 1 --ways 1 -o c img",
        "aprof cache --sets 1 --ways 1 --line 64 --stats -o c img",
        "aprof contexts --stats -o c img",
        "aprof contexts --stamps 9 -o c img",
        "aprof replay t",
        "aprof replay -o r",
        "aprof replay -o r t u",
        "aprof replay -o r --stamps 12 t",
        "aprof replay -o r --budget 1 t",
        "aprof trace img",
        "aprof trace -o t --stats img",
        "aprof trace -o t --record r img",
        "aprof run --stdin s --stdin s -o r img",
        "aprof run --quantum 0 -o r img",
        "aprof run --quantum 1000000001 -o r img",
        "aprof run --budget 0 -o r img",
        "aprof run --budget 1000000000001 -o r img",
        "aprof run --budget 99999999999999999999 -o r img",
        "aprof run --quantum 000000000000000000007 -o r img",
        "aprof run --quantum= -o r img",
        "aprof run --quantum  -o r img",
        "aprof run --quantum +7 -o r img",
        "aprof run --quantum 7x -o r img",
        "apr\0of run -o r img",
        "aprof run -o r img in\0",
    ] {
        let words = words_of(rt.alloc(), line)?;
        assert_eq!(rt; numbers_of(rt.alloc(), &words)?, None, "{line}");
    }
    Ok(())
}

#[test]
fn stamps_and_stats_are_read(rt: HostRuntime) -> Result<(), Fail> {
    for (line, read) in [
        ("aprof run -o r img", (StampBits::B32, false)),
        ("aprof run --stamps 8 -o r img", (StampBits::B8, false)),
        (
            "aprof run --stats -o r --stamps 016 img",
            (StampBits::B16, true),
        ),
    ] {
        let words = words_of(rt.alloc(), line)?;
        let command = guest_of(read_command(rt.alloc(), &words)).expect(&rt, "words of a run");
        assert_eq!(rt; stamps_of(&command.analysis), Some(read), "{line}");
    }
    Ok(())
}

#[test]
fn a_command_has_arguments_and_inputs(rt: HostRuntime) -> Result<(), Fail> {
    let alloc = rt.alloc();
    let line = "aprof run --schedule s -o r --record t --stdin i img b =a a b =b";
    let words = words_of(alloc, line)?;
    let command = guest_of(read_command(alloc, &words)).expect(&rt, "words of a run");
    let guest = &command.guest;
    assert_eq!(rt; (command.output, guest.image), ("r", "img"));
    assert_eq!(rt; (guest.stdin, guest.schedule), (Some("i"), Some("s")));
    assert_eq!(rt; recording_of(&command.analysis), Some("t"));
    assert_eq!(rt; guest.inputs(alloc)?.as_slice(), ["b", "a"].as_slice());
    let arguments = guest.arguments(alloc)?;
    assert_eq!(rt; arguments.len(), 6);
    for (argument, text) in arguments.iter().zip(["img", "b", "a", "a", "b", "b"]) {
        assert_eq!(rt; argument.as_str(), text, "of {line}");
    }
    Ok(())
}
