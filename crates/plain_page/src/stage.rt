// A stage of a component of the first-click form.
ghost use Rattle.std.specs.Prelude.{◌≡◌, ◌<◌, ◌≤◌, false, length, All, None, IfOk};
ghost use Rattle.std.specs.Option.{option_copied};
ghost use Rattle.first_click.specs.Rendering.{fresh_nodes};
ghost use Rattle.plain_page.specs.Runnable.{IsNumeric};
ghost use Rattle.first_click.specs.Weight.{weights};
ghost use Rattle.plain_page.specs.Running.{CanRun};
ghost use Rattle.plain_page.specs.Spelling.{Spells};

use crate::click::click;
use crate::page_tree::PageTree;
use crate::present::Present;
use crate::running::run;
use crate::spelling::put_nodes;
use first_click::{Component, Field, Item, Method, fresh_nodes};
use hub_messages::{Acted, Bytes, Made, Outcome, Stage};
use sqlite_items::Items;
use std::alloc::Global;
use text_core::{Oom, Txt};

/// A stage of one component, whose page it renders afresh.
#[derive(Debug, Drop)]
pub struct PlainStage {
    alloc: Global,
    present: Present,
    methods: Items<Method>,
    handlers: Items<u32>,
    items: Items<Item>,
    made: u64,
    released: u64,
    dirty: bool,
    /// Code met a fault, or memory ran out while it ran: it runs no more.
    ended: bool,
    ghost light: { weights items ≤ 1000000 },
    ghost able: { ended ≡ false → ∥ CanRun present.fields.items methods handlers ∥₁ },
}

// The fields, in a `Vec`.
fn unpacked(alloc: Global, fields: Items<Field>) -> Result<Vec<Field>, Oom>
    ensures { IfOk result (λ all. all.items ≡ fields) }
{
    let mut left = fields;
    let mut all = Vec::new(alloc);
    while let Some(field) = left.pop() {
        all.push(field)?;
    }
    all.reverse();
    Ok(all)
}

/// The bytes of the fresh rendering, born with the first batch.
fn rendered(alloc: Global, fields: &[Field], items: &[Item]) -> Result<Vec<u8>, Oom>
    requires able { ∥ All IsNumeric fields.now ∥₁ }
    requires light { weights items.now ≤ 1000000 }
    ensures { IfOk result (λ bytes. Spells bytes.items (fresh_nodes 1 fields.now items.now)) }
{
    let nodes = fresh_nodes(alloc, 1, fields, items)?;
    let click = click(alloc)?;
    let mut bytes = Vec::new(alloc);
    put_nodes(&mut bytes, &click, nodes.as_slice())?;
    Ok(bytes)
}

impl PlainStage {
    ghost use Rattle.hub_messages.specs.Stage.{IsFirst};
    ghost use Rattle.plain_page.specs.Runnable.{IsRunnable};
    ghost use Rattle.plain_page.specs.Machine.{PlainState, first_state, plain_machine, refusal};
    ghost use Rattle.plain_page.specs.Standing.{Stands};

    /// A stage that has rendered nothing yet.
    pub fn new(alloc: Global, component: Component) -> Result<Self, Oom>
        requires { IsRunnable component }
        ensures state { IfOk result (λ stage. Stands stage (first_state component)) }
        ensures first { IfOk result (λ stage. IsFirst plain_machine Stands stage) }
    {
        let Component {
            fields,
            methods,
            handlers,
            items,
        } = component;
        let present = Present {
            fields: unpacked(alloc, fields)?,
        };
        Ok(PlainStage {
            alloc,
            present,
            methods,
            handlers,
            items,
            made: 0,
            released: 0,
            dirty: false,
            ended: false,
        })
    }

    // Why an event reaches no code.
    fn refusal(&self, handler: u64, name: &Txt, text: Option<&Txt>) -> Option<Outcome>
        ensures refused { (state : PlainState) → Stands self.now state
            → result ≡ refusal state handler name.now (option_copied text.entry) }
        ensures some { result ≡ None → 0 < handler }
        ensures known { result ≡ None → handler ≤ length self.now.handlers }
    {
        if self.made == 0 {
            return Some(Outcome::HandlerUnknown);
        }
        if handler == 0 {
            return Some(Outcome::HandlerUnknown);
        }
        if handler > self.handlers.len() as u64 {
            return Some(Outcome::HandlerUnknown);
        }
        if !name.is("onclick") {
            return Some(Outcome::WrongEvent);
        }
        match text {
            None => None,
            Some(_) => Some(Outcome::BadArguments),
        }
    }
}

impl Stage for PlainStage {
    ghost use Rattle.plain_page.specs.Machine.{plain_machine};
    ghost use Rattle.plain_page.specs.Laws.Machine.{plain_lawful};
    ghost use Rattle.plain_page.specs.Standing.{Stands, stands_made, stands_released};

    type Tree = PageTree;

    ghost machine = { plain_machine };

    ghost stands = { Stands };

    ghost made = { λ stage. stage.made };

    ghost released = { λ stage. stage.released };

    ghost lawful = { plain_lawful };

    ghost keeps_made = { stands_made };

    ghost keeps_released = { stands_released };

    fn act(
        &mut self,
        handler: u64,
        name: &Txt,
        text: Option<&Txt>,
        _acked: u64,
    ) -> Result<Acted, Oom> {
        if self.ended {
            return Err(Oom);
        }
        if let Some(outcome) = self.refusal(handler, name, text) {
            return Ok(Acted::Outcome(outcome));
        }
        self.ended = true;
        let ran = run(
            self.alloc,
            self.methods.as_slice(),
            self.handlers.as_slice(),
            handler,
            &mut self.present,
        )?;
        self.dirty = true;
        match ran {
            None => {
                self.ended = false;
                Ok(Acted::Outcome(Outcome::Acted))
            }
            Some(fault) => Ok(Acted::Fault(fault)),
        }
    }

    fn is_dirty(&self) -> bool {
        self.dirty
    }

    fn render(&mut self, number: u64) -> Result<Made, Oom> {
        if self.ended {
            return Err(Oom);
        }
        let bytes = rendered(
            self.alloc,
            self.present.fields.as_slice(),
            self.items.as_slice(),
        )?;
        self.made = number;
        self.dirty = false;
        Ok(Made::Batch(Bytes::new(bytes)))
    }

    fn release(&mut self, acked: u64) {
        self.released = self.released.max(acked);
    }
}
