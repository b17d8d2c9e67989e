// A stage that counts clicks.
ghost use Rattle.std.specs.Prelude.{◌≡◌};
ghost use Rattle.hub_messages.specs.Stage.{IsFirst};
ghost use Rattle.counter_stage.specs.Counter.{counter, fresh_state};

use crate::CounterTree;
use hub_messages::{Acted, Bytes, CircuitFault, Made, Outcome, Stage};
use std::alloc::Global;
use text_core::{Oom, Txt};

/// What a counter holds.
#[derive(Clone, Copy, Debug, PartialEq, Eq)]
pub struct CounterState {
    pub number: u8,
    /// The tree of a screen that has applied every batch made.
    pub tree: CounterTree,
    /// The number of the last batch made.
    pub made: u64,
    /// The greatest number released.
    pub released: u64,
    /// The number changed since the last batch.
    pub changed: bool,
}

/// A stage that counts clicks.
#[derive(Debug, Drop)]
pub struct CounterStage {
    alloc: Global,
    pub state: CounterState,
}

impl CounterStage {
    /// A stage that has rendered nothing, and counts from this number.
    pub fn new(alloc: Global, number: u8) -> Self
        ensures state { result.state ≡ fresh_state number }
        ensures first { IsFirst counter (λ (stage : CounterStage) state. stage.state ≡ state) result }
    {
        CounterStage {
            alloc,
            state: CounterState {
                number,
                tree: CounterTree::Blank,
                made: 0,
                released: 0,
                changed: false,
            },
        }
    }
}

impl Stage for CounterStage {
    ghost use Rattle.counter_stage.specs.Counter.{counter};
    ghost use Rattle.counter_stage.specs.Laws.{counter_lawful, same_made, same_released};

    type Tree = CounterTree;

    ghost machine = { counter };

    ghost stands = { λ stage state. stage.state ≡ state };

    ghost made = { λ stage. stage.state.made };

    ghost released = { λ stage. stage.state.released };

    ghost lawful = { counter_lawful };

    ghost keeps_made = { λ stage state h. same_made stage.state state h };

    ghost keeps_released = { λ stage state h. same_released stage.state state h };

    fn act(
        &mut self,
        handler: u64,
        name: &Txt,
        text: Option<&Txt>,
        _acked: u64,
    ) -> Result<Acted, Oom> {
        if self.state.made == 0 || handler != 1 {
            return Ok(Acted::Outcome(Outcome::HandlerUnknown));
        }
        if !name.is("onclick") {
            return Ok(Acted::Outcome(Outcome::WrongEvent));
        }
        if text.is_some() {
            return Ok(Acted::Outcome(Outcome::BadArguments));
        }
        if self.state.number == u8::MAX {
            return Ok(Acted::Fault(CircuitFault::Overflow));
        }
        self.state.number += 1;
        self.state.changed = true;
        Ok(Acted::Outcome(Outcome::Acted))
    }

    fn is_dirty(&self) -> bool {
        self.state.changed
    }

    fn render(&mut self, number: u64) -> Result<Made, Oom> {
        let mut bytes = Vec::new(self.alloc);
        bytes.push(self.state.number)?;
        self.state.tree = CounterTree::Shows(self.state.number);
        self.state.made = number;
        self.state.changed = false;
        Ok(Made::Batch(Bytes::new(bytes)))
    }

    fn release(&mut self, acked: u64) {
        self.state.released = self.state.released.max(acked);
    }
}
