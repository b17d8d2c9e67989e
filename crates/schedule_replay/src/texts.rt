// How messages and answers stand in a transcript: each function adds to the end of a line.
ghost use Rattle.std.specs.Prelude.{◌≡◌, ◌++◌, IsTrue, OnOk};
ghost use Rattle.std.specs.Fmt.{decimal};
ghost use Rattle.text_core.specs.Ascii.{is_ascii};
ghost use Rattle.schedule_replay.specs.Texts.{answer_text, apply_fault_text, applied_text, asked_text, bad_batch_text, batch_fault_text, connect_text, count_text, ended_text, escaped, escaped_character, fault_text, node_counts_text, numbered, other_counts_text, outcome_text, path_text, refusal_text, refused_text, replies_text, reply_text, screen_fault_text, told_text, up_text};

use hub_messages::{Asked, CircuitFault, Down, Got, Outcome, Refusal, ScreenFault, Up};
use page_core::{ApplyFault, BatchFault, Counts};
use std::alloc::Global;
use text_core::{Oom, Txt};

pub fn push_number(alloc: Global, line: &mut Txt, number: u64) -> Result<(), Oom>
    ensures { OnOk result (line.new ≡ line.old ++ decimal number) }
{
    let digits = number.to_string(alloc)?;
    line.push_str(digits.as_str())
}

/// A word and a number behind it.
pub fn push_numbered(alloc: Global, line: &mut Txt, word: &str, number: u64) -> Result<(), Oom>
    requires { IsTrue (is_ascii word.now) }
    ensures { OnOk result (line.new ≡ line.old ++ numbered word.now number) }
{
    line.push_str(word)?;
    line.push(' ')?;
    push_number(alloc, line, number)
}

fn push_character(line: &mut Txt, character: char) -> Result<(), Oom>
    ensures { OnOk result (line.new ≡ line.old ++ escaped_character character) }
{
    match character {
        '\\' => line.push_str("\\\\"),
        '\n' => line.push_str("\\n"),
        '\r' => line.push_str("\\r"),
        _ => line.push(character),
    }
}

/// A text without line ends: a backslash, a line feed and a carriage return are escaped.
pub fn push_escaped(line: &mut Txt, text: &Txt) -> Result<(), Oom>
    ensures { OnOk result (line.new ≡ line.old ++ escaped text.now) }
{
    for character in text.as_str().chars() {
        push_character(line, character)?;
    }
    Ok(())
}

/// The numbers of a path.
pub fn push_path(alloc: Global, line: &mut Txt, path: &[u32]) -> Result<(), Oom>
    ensures { OnOk result (line.new ≡ line.old ++ path_text path.now) }
{
    let [first, rest @ ..] = path else {
        return line.push('-');
    };
    push_number(alloc, line, u64::from(*first))?;
    for place in rest {
        line.push('.')?;
        push_number(alloc, line, u64::from(*place))?;
    }
    Ok(())
}

fn push_outcome(alloc: Global, line: &mut Txt, outcome: Outcome) -> Result<(), Oom>
    ensures { OnOk result (line.new ≡ line.old ++ outcome_text outcome) }
{
    match outcome {
        Outcome::Acted => line.push_str("Acted"),
        Outcome::HandlerUnknown => line.push_str("HandlerUnknown"),
        Outcome::HandlerGone { batch } => push_numbered(alloc, line, "HandlerGone", batch),
        Outcome::ComponentGone => line.push_str("ComponentGone"),
        Outcome::WrongEvent => line.push_str("WrongEvent"),
        Outcome::BadArguments => line.push_str("BadArguments"),
    }
}

fn push_refusal(alloc: Global, line: &mut Txt, refusal: Refusal) -> Result<(), Oom>
    ensures { OnOk result (line.new ≡ line.old ++ refusal_text refusal) }
{
    match refusal {
        Refusal::Malformed => line.push_str("Malformed"),
        Refusal::NotConnected => line.push_str("NotConnected"),
        Refusal::AlreadyConnected => line.push_str("AlreadyConnected"),
        Refusal::CircuitUnknown => line.push_str("CircuitUnknown"),
        Refusal::AppliedAhead { sent } => push_numbered(alloc, line, "AppliedAhead", sent),
        Refusal::AckAhead { sent } => push_numbered(alloc, line, "AckAhead", sent),
        Refusal::GotAhead { last } => push_numbered(alloc, line, "GotAhead", last),
        Refusal::BatchesGone { acked } => push_numbered(alloc, line, "BatchesGone", acked),
        Refusal::Early { next } => push_numbered(alloc, line, "Early", next),
        Refusal::OutcomesFull { oldest } => push_numbered(alloc, line, "OutcomesFull", oldest),
    }
}

fn push_fault(line: &mut Txt, fault: CircuitFault) -> Result<(), Oom>
    ensures { OnOk result (line.new ≡ line.old ++ fault_text fault) }
{
    match fault {
        CircuitFault::DivideByZero => line.push_str("DivideByZero"),
        CircuitFault::Overflow => line.push_str("Overflow"),
        CircuitFault::NullUse => line.push_str("NullUse"),
        CircuitFault::IndexOutOfRange => line.push_str("IndexOutOfRange"),
        CircuitFault::FuelSpent => line.push_str("FuelSpent"),
        CircuitFault::CallDepth => line.push_str("CallDepth"),
        CircuitFault::ValueTooLarge => line.push_str("ValueTooLarge"),
        CircuitFault::DuplicateKey => line.push_str("DuplicateKey"),
        CircuitFault::PageTooLarge => line.push_str("PageTooLarge"),
        CircuitFault::TooManyComponents => line.push_str("TooManyComponents"),
        CircuitFault::TooDeepTree => line.push_str("TooDeepTree"),
        CircuitFault::Memory => line.push_str("Memory"),
        CircuitFault::NumbersSpent => line.push_str("NumbersSpent"),
    }
}

fn push_batch_fault(line: &mut Txt, fault: BatchFault) -> Result<(), Oom>
    ensures { OnOk result (line.new ≡ line.old ++ batch_fault_text fault) }
{
    match fault {
        BatchFault::Short => line.push_str("Short"),
        BatchFault::BadOffset => line.push_str("BadOffset"),
        BatchFault::BadCount => line.push_str("BadCount"),
        BatchFault::BadKind => line.push_str("BadKind"),
        BatchFault::BadSubtree => line.push_str("BadSubtree"),
        BatchFault::BadString => line.push_str("BadString"),
        BatchFault::Oom => line.push_str("Oom"),
    }
}

fn push_apply_fault(line: &mut Txt, fault: ApplyFault) -> Result<(), Oom>
    ensures { OnOk result (line.new ≡ line.old ++ apply_fault_text fault) }
{
    match fault {
        ApplyFault::NoComponent => line.push_str("NoComponent"),
        ApplyFault::NoSibling => line.push_str("NoSibling"),
        ApplyFault::NotElement => line.push_str("NotElement"),
        ApplyFault::NotText => line.push_str("NotText"),
        ApplyFault::NoAttribute => line.push_str("NoAttribute"),
        ApplyFault::BadPermutation => line.push_str("BadPermutation"),
        ApplyFault::Unbalanced => line.push_str("Unbalanced"),
        ApplyFault::Oom => line.push_str("Oom"),
    }
}

fn push_screen_fault(line: &mut Txt, fault: ScreenFault) -> Result<(), Oom>
    ensures { OnOk result (line.new ≡ line.old ++ screen_fault_text fault) }
{
    match fault {
        ScreenFault::Read(fault) => push_batch_fault(line, fault),
        ScreenFault::Apply(fault) => push_apply_fault(line, fault),
        ScreenFault::Oom => line.push_str("Oom"),
    }
}

fn push_connect(alloc: Global, line: &mut Txt, applied: u64, got: u64) -> Result<(), Oom>
    ensures { OnOk result (line.new ≡ line.old ++ connect_text applied got) }
{
    line.push_str("Connect ")?;
    push_number(alloc, line, applied)?;
    line.push(' ')?;
    push_number(alloc, line, got)
}

/// A message from the browser.
pub fn push_up(alloc: Global, line: &mut Txt, message: &Up) -> Result<(), Oom>
    ensures { OnOk result (line.new ≡ line.old ++ up_text message.now) }
{
    match message {
        Up::Start => line.push_str("Start"),
        Up::Connect { applied, got, .. } => push_connect(alloc, line, *applied, *got),
        Up::Event { number, .. } => push_numbered(alloc, line, "Event", *number),
        Up::Ack { batch, .. } => push_numbered(alloc, line, "Ack", *batch),
    }
}

fn push_word_told(
    alloc: Global,
    line: &mut Txt,
    word: &str,
    event: u64,
    outcome: Outcome,
) -> Result<(), Oom>
    requires { IsTrue (is_ascii word.now) }
    ensures { OnOk result (line.new ≡ line.old ++ told_text word.now event outcome) }
{
    push_numbered(alloc, line, word, event)?;
    line.push(' ')?;
    push_outcome(alloc, line, outcome)
}

fn push_refused(alloc: Global, line: &mut Txt, refusal: Refusal) -> Result<(), Oom>
    ensures { OnOk result (line.new ≡ line.old ++ refused_text refusal) }
{
    line.push_str("Refused ")?;
    push_refusal(alloc, line, refusal)
}

fn push_ended(line: &mut Txt, fault: CircuitFault) -> Result<(), Oom>
    ensures { OnOk result (line.new ≡ line.old ++ ended_text fault) }
{
    line.push_str("Ended ")?;
    push_fault(line, fault)
}

fn push_reply(alloc: Global, line: &mut Txt, reply: &Down) -> Result<(), Oom>
    ensures { OnOk result (line.new ≡ line.old ++ reply_text reply.now) }
{
    match reply {
        Down::Started { number, .. } => push_numbered(alloc, line, "Started", *number),
        Down::Connected { .. } => line.push_str("Connected"),
        Down::Batch { number, .. } => push_numbered(alloc, line, "Batch", *number),
        Down::Outcome { event, outcome } => {
            push_word_told(alloc, line, "Outcome", *event, *outcome)
        }
        Down::Refused(refusal) => push_refused(alloc, line, *refusal),
        Down::Ended(fault) => push_ended(line, *fault),
    }
}

/// The replies of the server.
pub fn push_replies(alloc: Global, line: &mut Txt, replies: &[Down]) -> Result<(), Oom>
    ensures { OnOk result (line.new ≡ line.old ++ replies_text replies.now) }
{
    let [first, rest @ ..] = replies else {
        return line.push_str("nothing");
    };
    push_reply(alloc, line, first)?;
    for reply in rest {
        line.push_str(", ")?;
        push_reply(alloc, line, reply)?;
    }
    Ok(())
}

fn push_count(alloc: Global, line: &mut Txt, name: &str, count: u32) -> Result<(), Oom>
    requires { IsTrue (is_ascii name.now) }
    ensures { OnOk result (line.new ≡ line.old ++ count_text name.now count) }
{
    if count == 0 {
        return Ok(());
    }
    line.push(' ')?;
    line.push_str(name)?;
    line.push('=')?;
    push_number(alloc, line, u64::from(count))
}

fn push_node_counts(alloc: Global, line: &mut Txt, counts: Counts) -> Result<(), Oom>
    ensures { OnOk result (line.new ≡ line.old ++ node_counts_text counts) }
{
    push_count(alloc, line, "prepend", counts.prepend)?;
    push_count(alloc, line, "remove", counts.remove)?;
    push_count(alloc, line, "set", counts.set)?;
    push_count(alloc, line, "unset", counts.unset)?;
    push_count(alloc, line, "text", counts.text)
}

fn push_other_counts(alloc: Global, line: &mut Txt, counts: Counts) -> Result<(), Oom>
    ensures { OnOk result (line.new ≡ line.old ++ other_counts_text counts) }
{
    push_count(alloc, line, "in", counts.step_in)?;
    push_count(alloc, line, "out", counts.step_out)?;
    push_count(alloc, line, "markup", counts.markup)?;
    push_count(alloc, line, "move", counts.moves)?;
    push_count(alloc, line, "end", counts.ends)
}

fn push_applied(alloc: Global, line: &mut Txt, number: u64, counts: Counts) -> Result<(), Oom>
    ensures { OnOk result (line.new ≡ line.old ++ applied_text number counts) }
{
    push_numbered(alloc, line, "Applied", number)?;
    push_node_counts(alloc, line, counts)?;
    push_other_counts(alloc, line, counts)
}

fn push_bad_batch(line: &mut Txt, fault: ScreenFault) -> Result<(), Oom>
    ensures { OnOk result (line.new ≡ line.old ++ bad_batch_text fault) }
{
    line.push_str("BadBatch ")?;
    push_screen_fault(line, fault)
}

/// What the browser made of a message.
pub fn push_answer(alloc: Global, line: &mut Txt, got: Got) -> Result<(), Oom>
    ensures { OnOk result (line.new ≡ line.old ++ answer_text got) }
{
    match got {
        Got::OldConnection => line.push_str("OldConnection"),
        Got::Malformed => line.push_str("Malformed"),
        Got::Opened => line.push_str("Opened"),
        Got::Refused(refusal) => push_refused(alloc, line, refusal),
        Got::Ended(fault) => push_ended(line, fault),
        Got::NotOpen => line.push_str("NotOpen"),
        Got::Answered { event, outcome } => {
            push_word_told(alloc, line, "Answered", event, outcome)
        }
        Got::AnsweredAgain { event } => push_numbered(alloc, line, "AnsweredAgain", event),
        Got::Stray => line.push_str("Stray"),
        Got::AgainAcked { number } => push_numbered(alloc, line, "AgainAcked", number),
        Got::NotNext { next } => push_numbered(alloc, line, "NotNext", next),
        Got::Applied { number, counts } => push_applied(alloc, line, number, counts),
        Got::BadBatch { fault } => push_bad_batch(line, fault),
    }
}

/// What became of an event at the browser.
pub fn push_asked(alloc: Global, line: &mut Txt, asked: Asked) -> Result<(), Oom>
    ensures { OnOk result (line.new ≡ line.old ++ asked_text asked) }
{
    match asked {
        Asked::Over => line.push_str("Over"),
        Asked::NoNode => line.push_str("NoNode"),
        Asked::NoHandler => line.push_str("NoHandler"),
        Asked::EventsFull => line.push_str("EventsFull"),
        Asked::Asked { number } => push_numbered(alloc, line, "Event", number),
    }
}
