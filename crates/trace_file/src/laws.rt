//! Laws on the text of traces: each is the contract of a function that does nothing.
ghost use Rattle.trace_file.specs.Laws.{BeginningsAreRead, BeginningsAreReadBeforeRefusals, BytesAreRefusedInOneWay, TextIsOfOneTrace, TracesAreNotRefused};

/// Different traces have different texts.
pub fn a_text_is_of_one_trace()
    ensures { TextIsOfOneTrace }
{}

/// Bytes have one reading, as far as there is memory: the trace whose text they are, or else one refusal, with one list of
/// events before it.
pub fn bytes_read_in_one_way()
    ensures refused { BytesAreRefusedInOneWay }
    ensures apart { TracesAreNotRefused }
{}

/// Where memory runs out, only some of the last events are not read.
pub fn beginnings_are_read()
    ensures traces { BeginningsAreRead }
    ensures refused { BeginningsAreReadBeforeRefusals }
{}
