// The lines of steps.
ghost use Rattle.std.specs.Prelude.{◌≡◌, ◌++◌, ◌≤◌, codes, IfOk, OnOk, None, Some};
ghost use Rattle.std.specs.Fmt.{decimal};
ghost use Rattle.schedule_replay.specs.Line.Lines.{exchange_text, line_text, page_text, sent_text, user_text};
ghost use Rattle.schedule_replay.specs.Line.State.{connection, numbers_between};
ghost use Rattle.schedule_replay.specs.Texts.{answer_text, asked_text, escaped, numbered};

use super::server::CONNECTION;
use crate::UserStep;
use crate::texts::{
    push_answer, push_asked, push_escaped, push_number, push_numbered, push_path, push_replies,
    push_up,
};
use hub_messages::{Asked, Down, Got, Up};
use std::alloc::Global;
use text_core::{Oom, Txt};

/// The number of a step, before the step.
fn numbered_line(alloc: Global, number: u64) -> Result<Txt, Oom>
    ensures { IfOk result (λ line. line ≡ decimal number ++ codes " ") }
{
    let mut line = Txt::new(alloc);
    push_number(alloc, &mut line, number)?;
    line.push(' ')?;
    Ok(line)
}

/// An event at the tab.
fn push_user(alloc: Global, line: &mut Txt, step: &UserStep) -> Result<(), Oom>
    ensures { OnOk result (line.new ≡ line.old ++ user_text step.now.path step.now.event) }
{
    line.push_str("user 0 ")?;
    push_escaped(line, &step.event)?;
    line.push(' ')?;
    push_path(alloc, line, step.path.as_slice())
}

/// A message to the server, and its replies.
fn push_exchange(alloc: Global, line: &mut Txt, message: &Up, replies: &[Down]) -> Result<(), Oom>
    ensures { OnOk result (line.new ≡ line.old ++ exchange_text message.now replies.now) }
{
    push_up(alloc, line, message)?;
    line.push_str(" -> ")?;
    push_replies(alloc, line, replies)
}

/// The numbers of the messages behind the first up to the last.
fn push_sent(alloc: Global, line: &mut Txt, first: usize, last: usize) -> Result<(), Oom>
    requires { first ≤ last }
    ensures { OnOk result (line.new ≡ line.old ++ sent_text (numbers_between first last)) }
{
    if first == last {
        return Ok(());
    }
    line.push_str("; sent ")?;
    push_number(alloc, line, first as u64 + 1)?;
    for number in first + 1..last {
        line.push(' ')?;
        push_number(alloc, line, number as u64 + 1)?;
    }
    Ok(())
}

/// The page that is shown.
fn push_page(line: &mut Txt, page: &Txt) -> Result<(), Oom>
    ensures { OnOk result (line.new ≡ line.old ++ (codes "; page " ++ escaped page.now)) }
{
    line.push_str("; page ")?;
    push_escaped(line, page)
}

/// A message is delivered: its number, before what came of it.
fn delivery_line(alloc: Global, step: u64, number: u64) -> Result<Txt, Oom>
    ensures { IfOk result (λ line. line ≡ decimal step ++ codes " " ++ numbered (codes "deliver") number ++ codes ": ") }
{
    let mut line = numbered_line(alloc, step)?;
    push_numbered(alloc, &mut line, "deliver", number)?;
    line.push_str(": ")?;
    Ok(line)
}

/// The messages that a step sent: those behind the first up to the last.
#[derive(Clone, Copy, Debug)]
pub struct Sent {
    pub first: usize,
    pub last: usize,
}

/// The line of an opening.
pub fn open_line(alloc: Global, step: u64, sent: Sent) -> Result<Txt, Oom>
    requires { sent.first ≤ sent.last }
    ensures { IfOk result (λ line. line ≡ line_text step (codes "open 0") (numbered (codes "connection") connection) (numbers_between sent.first sent.last) None) }
{
    let mut line = numbered_line(alloc, step)?;
    line.push_str("open 0: ")?;
    push_numbered(alloc, &mut line, "connection", CONNECTION)?;
    push_sent(alloc, &mut line, sent.first, sent.last)?;
    Ok(line)
}

/// The line of an event.
pub fn user_line(
    alloc: Global,
    step: u64,
    user: &UserStep,
    asked: Asked,
    sent: Sent,
) -> Result<Txt, Oom>
    requires { sent.first ≤ sent.last }
    ensures { IfOk result (λ line. line ≡ line_text step (user_text user.now.path user.now.event) (asked_text asked) (numbers_between sent.first sent.last) None) }
{
    let mut line = numbered_line(alloc, step)?;
    push_user(alloc, &mut line, user)?;
    line.push_str(": ")?;
    push_asked(alloc, &mut line, asked)?;
    push_sent(alloc, &mut line, sent.first, sent.last)?;
    Ok(line)
}

/// The line of the delivery of a message to the server.
pub fn exchange_line(
    alloc: Global,
    step: u64,
    number: u64,
    message: &Up,
    replies: &[Down],
    sent: Sent,
) -> Result<Txt, Oom>
    requires { sent.first ≤ sent.last }
    ensures { IfOk result (λ line. line ≡ line_text step (numbered (codes "deliver") number) (exchange_text message.now replies.now) (numbers_between sent.first sent.last) None) }
{
    let mut line = delivery_line(alloc, step, number)?;
    push_exchange(alloc, &mut line, message, replies)?;
    push_sent(alloc, &mut line, sent.first, sent.last)?;
    Ok(line)
}

/// The line of the delivery of a message to the browser.
pub fn answer_line(alloc: Global, step: u64, number: u64, got: Got, sent: Sent) -> Result<Txt, Oom>
    requires { sent.first ≤ sent.last }
    ensures { IfOk result (λ line. line ≡ line_text step (numbered (codes "deliver") number) (answer_text got) (numbers_between sent.first sent.last) None) }
{
    let mut line = delivery_line(alloc, step, number)?;
    push_answer(alloc, &mut line, got)?;
    push_sent(alloc, &mut line, sent.first, sent.last)?;
    Ok(line)
}

/// The same, with the page that the browser shows then.
pub fn page_line(
    alloc: Global,
    step: u64,
    number: u64,
    got: Got,
    sent: Sent,
    page: &Txt,
) -> Result<Txt, Oom>
    requires { sent.first ≤ sent.last }
    ensures { IfOk result (λ line. line ≡ line_text step (numbered (codes "deliver") number) (answer_text got) (numbers_between sent.first sent.last) None ++ (codes "; page " ++ escaped page.now)) }
{
    let mut line = answer_line(alloc, step, number, got, sent)?;
    push_page(&mut line, page)?;
    Ok(line)
}
