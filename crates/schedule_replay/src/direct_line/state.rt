// A line with its two ends, and its steps.
ghost use Rattle.std.specs.Prelude.{◌≡◌, ◌≤◌, ◌<◌, ◌+◌, ◌^◌, IfOk, None, codes, length, slice_get};
ghost use Rattle.client_core.specs.EventSize.{event_size};
ghost use Rattle.client_core.specs.Standing.{browser_of};
ghost use Rattle.hub_messages.specs.declared.down.Down.{Down};
ghost use Rattle.schedule_replay.specs.Texts.{answer_text, numbered};
ghost use Rattle.hub_messages.specs.Spelling.Spells.{SpellsDown};
ghost use Rattle.schedule_replay.specs.Line.Lines.{line_text, shown_after};
ghost use Rattle.schedule_replay.specs.Line.Standing.{IsRunning, Leads, LeadsWith, StandsLine};
ghost use Rattle.schedule_replay.specs.Line.State.{downward, first_line, numbers_between};
ghost use Rattle.schedule_replay.specs.Line.Steps.{Delivers, DeliverDown, DeliverUp, ends_of, OpenStep, UserStep as UserSteps};

use super::message::{Message, send_down, send_up};
use super::printing::{Sent, answer_line, exchange_line, open_line, page_line, user_line};
use super::server::{CONNECTION, Server};
use crate::UserStep;
use client_core::Client;
use hub_messages::{Bytes, Got, HubFault, PrintScreen, Screen, Stage, Turns, Up, decode_up};
use std::alloc::Global;
use text_core::{Oom, Txt};

/// A browser, a server, and every message that was sent between them.
#[derive(Drop)]
pub struct Line<S: Stage, V> {
    pub alloc: Global,
    pub window: u32,
    pub server: Server<S>,
    pub client: Client<V>,
    pub messages: Vec<Message>,
    /// So many messages were delivered, the oldest first.
    pub delivered: usize,
    /// So many atomic steps were made.
    pub steps: u64,
}

/// What a step gives: the line behind it, and its line of the transcript.
pub type Stepped<S, V> = (Line<S, V>, Txt);

impl<T: Turns, S: Stage<Tree = T> + Drop, V: PrintScreen + Screen<Tree = T> + Drop> Line<S, V> {
    /// A line before its first step, with this window of a circuit.
    pub fn new(alloc: Global, window: u32, stage: S, screen: V) -> Self
        requires { V.Screen.tree screen ≡ T.first }
        ensures window { result.window ≡ window }
        ensures steps { result.steps ≡ 0 }
        ensures stands { (first : S.machine.State) → S.machine.First first → S.stands stage first
            → StandsLine (ends_of S.machine first window T.turns T.page) T.first S.stands V.Screen.tree result (first_line T.first) }
    {
        Line {
            alloc,
            window,
            server: Server::Waiting(stage),
            client: Client::new(alloc, screen),
            messages: Vec::new(alloc),
            delivered: 0,
            steps: 0,
        }
    }

    /// The browser takes the connection.
    pub fn open(self) -> Result<Stepped<S, V>, Oom>
        requires few { self.steps < 2 ^ 32 }
        requires window_from { 1 ≤ self.window }
        requires window_to { self.window ≤ 64 }
        requires running { IsRunning S.machine S.stands T.first T.turns T.page V.Screen.tree self }
        ensures { IfOk result (λ next. Leads S.machine S.stands T.first T.turns T.page V.Screen.tree self next.0
            (λ ends before after. OpenStep ends before next.1 after)) }
    {
        let Line {
            mut client,
            mut messages,
            alloc,
            window,
            server,
            delivered,
            steps,
        } = self;
        let ups = client.connect(CONNECTION)?;
        let first = messages.len();
        send_up(&mut messages, ups)?;
        let sent = Sent {
            first,
            last: messages.len(),
        };
        let steps = steps + 1;
        let text = open_line(alloc, steps, sent)?;
        let line = Line {
            alloc,
            window,
            server,
            client,
            messages,
            delivered,
            steps,
        };
        Ok((line, text))
    }

    /// An event at the browser.
    pub fn user(self, step: &UserStep) -> Result<Stepped<S, V>, Oom>
        requires few { self.steps < 2 ^ 32 }
        requires short { event_size step.now.event None ≤ 2 ^ 24 }
        requires window_from { 1 ≤ self.window }
        requires window_to { self.window ≤ 64 }
        requires running { IsRunning S.machine S.stands T.first T.turns T.page V.Screen.tree self }
        ensures { IfOk result (λ next. Leads S.machine S.stands T.first T.turns T.page V.Screen.tree self next.0
            (λ ends before after. UserSteps ends step.now.path step.now.event before next.1 after)) }
    {
        let Line {
            mut client,
            mut messages,
            alloc,
            window,
            server,
            delivered,
            steps,
        } = self;
        let (asked, ups) = client.user(step.path.as_slice(), &step.event, None)?;
        let first = messages.len();
        send_up(&mut messages, ups)?;
        let sent = Sent {
            first,
            last: messages.len(),
        };
        let steps = steps + 1;
        let text = user_line(alloc, steps, step, asked, sent)?;
        let line = Line {
            alloc,
            window,
            server,
            client,
            messages,
            delivered,
            steps,
        };
        Ok((line, text))
    }

    /// A message is delivered to the server.
    fn deliver_up(self, message: &Up) -> Result<Stepped<S, V>, Oom>
        requires few { self.steps < 2 ^ 32 }
        requires next { self.delivered < length self.messages.items }
        requires window_from { 1 ≤ self.window }
        requires window_to { self.window ≤ 64 }
        requires running { IsRunning S.machine S.stands T.first T.turns T.page V.Screen.tree self }
        ensures { IfOk result (λ next. Leads S.machine S.stands T.first T.turns T.page V.Screen.tree self next.0
            (λ ends before after. DeliverUp ends message.now before next.1 after)) }
    {
        let Line {
            mut messages,
            alloc,
            window,
            server,
            client,
            delivered,
            steps,
        } = self;
        let (server, replies) = server.receive(alloc, window, message)?;
        let first = messages.len();
        send_down(alloc, &mut messages, &replies)?;
        let sent = Sent {
            first,
            last: messages.len(),
        };
        let steps = steps + 1;
        let delivered = delivered + 1;
        let text = exchange_line(alloc, steps, delivered as u64, message, &replies, sent)?;
        let line = Line {
            alloc,
            window,
            server,
            client,
            messages,
            delivered,
            steps,
        };
        Ok((line, text))
    }

    /// The line of an answer; with the page, where a batch was applied.
    fn answer_text(&self, got: Got, sent: Sent) -> Result<Txt, Oom>
        requires { sent.first ≤ sent.last }
        ensures { IfOk result (λ text. text ≡ line_text self.now.steps (numbered (codes "deliver") self.now.delivered) (answer_text got) (numbers_between sent.first sent.last) (shown_after got (T.page (browser_of V.Screen.tree self.now.client).tree))) }
    {
        let number = self.delivered as u64;
        match got {
            Got::Applied { .. } => {
                let page = self.client.screen().print(self.alloc)?;
                page_line(self.alloc, self.steps, number, got, sent, &page)
            }
            _ => answer_line(self.alloc, self.steps, number, got, sent),
        }
    }

    /// Bytes are delivered to the browser.
    fn deliver_down(self, bytes: &Bytes) -> Result<Stepped<S, V>, Oom>
        requires few { self.steps < 2 ^ 32 }
        requires next { self.delivered < length self.messages.items }
        requires window_from { 1 ≤ self.window }
        requires window_to { self.window ≤ 64 }
        requires running { IsRunning S.machine S.stands T.first T.turns T.page V.Screen.tree self }
        ensures { IfOk result (λ next. (message : Down) → SpellsDown bytes.now message →
            LeadsWith S.machine S.stands T.first T.turns T.page V.Screen.tree (downward message) self next.0
            (λ ends before after. DeliverDown ends message before next.1 after)) }
    {
        let Line {
            mut client,
            mut messages,
            alloc,
            window,
            server,
            delivered,
            steps,
        } = self;
        let (got, ups) = client.receive(CONNECTION, bytes.as_slice())?;
        let first = messages.len();
        send_up(&mut messages, ups)?;
        let sent = Sent {
            first,
            last: messages.len(),
        };
        let line = Line {
            alloc,
            window,
            server,
            client,
            messages,
            delivered: delivered + 1,
            steps: steps + 1,
        };
        let text = line.answer_text(got, sent)?;
        Ok((line, text))
    }

    /// The oldest fresh message is delivered.
    pub fn deliver(self) -> Result<Stepped<S, V>, Oom>
        requires few { self.steps < 2 ^ 32 }
        requires next { self.delivered < length self.messages.items }
        requires window_from { 1 ≤ self.window }
        requires window_to { self.window ≤ 64 }
        requires running { IsRunning S.machine S.stands T.first T.turns T.page V.Screen.tree self }
        ensures { IfOk result (λ next. Leads S.machine S.stands T.first T.turns T.page V.Screen.tree self next.0
            (λ ends before after. Delivers ends (slice_get before.messages before.delivered) before next.1 after)) }
    {
        let alloc = self.alloc;
        match &self.messages[self.delivered] {
            Message::Up(bytes) => match decode_up(alloc, bytes.as_slice()) {
                Ok(message) => self.deliver_up(&message),
                Err(HubFault::Malformed) => unreachable!(),
                Err(HubFault::Oom) => Err(Oom),
            },
            Message::Down(bytes) => {
                let bytes = bytes.copy(alloc)?;
                self.deliver_down(&bytes)
            }
        }
    }
}
