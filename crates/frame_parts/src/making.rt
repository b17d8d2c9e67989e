// Bodies and fragments as they get their numbers.
ghost use Rattle.std.specs.Prelude.{◌≡◌, [], map, OnOk};
ghost use Rattle.std.specs.BTreeMap.{insert_entry};
ghost use Rattle.std.specs.Ordering.{nat_cmp};
ghost use Rattle.frame_program.specs.Operations.{act_of};
ghost use Rattle.frame_parts.specs.Views.{numbered};

use cs_ast::{Bodies, Code};
use frame_program::{Fragments, Operation};
use sqlite_items::Items;
use std::alloc::Global;
use text_core::Oom;

/// The bodies and the fragments that have numbers so far.
#[derive(Debug, Drop)]
pub struct Making {
    pub bodies: Bodies,
    pub fragments: Fragments,
}

/// Nothing has a number yet.
pub fn nothing(alloc: Global) -> Making
    ensures { numbered result ≡ record { bodies = []; templates = [] } }
{
    Making {
        bodies: Bodies::new(alloc),
        fragments: Fragments::new(alloc),
    }
}

/// Gives a body a number.
pub fn put_body(making: &mut Making, number: u32, code: Code) -> Result<(), Oom>
    ensures { OnOk result (numbered making.new
        ≡ record { bodies = insert_entry nat_cmp (numbered making.old).bodies number code; templates = (numbered making.old).templates }) }
{
    making.bodies.set(number, code)
}

/// Gives a fragment a number.
#[tactic(auto, using(crate::proofs::NumberedLemmas::acts_inserted))]
pub fn put_fragment(
    making: &mut Making,
    number: u32,
    operations: Items<Operation>,
) -> Result<(), Oom>
    ensures { OnOk result (numbered making.new
        ≡ record { bodies = (numbered making.old).bodies; templates = insert_entry nat_cmp (numbered making.old).templates number (map act_of operations) }) }
{
    making.fragments.set(number, operations)
}
