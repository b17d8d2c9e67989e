// The fragments of a program by their numbers.
use crate::Operation;
use sqlite_items::Items;
use std::alloc::Global;
use std::collections::BTreeMap;
use std::marker::Model;
use text_core::Oom;

/// What the fragments of a program do, by their numbers. Contracts see the list of numbers and operations in rising order.
#[derive(Debug, Drop)]
pub struct Fragments {
    operations: BTreeMap<u32, Items<Operation>>,
}

impl Model for Fragments {
    ghost use Rattle.std.specs.Prelude.{List, ℕ};
    ghost use Rattle.std.specs.Coded.{codes as rules};
    ghost use Rattle.frame_program.specs.contracts.operation.Operation as e;
    ghost use Rattle.frame_program.specs.declared.operation.Operation.{Operation};

    ghost Value = { List (ℕ × List Operation) };

    ghost coded = { Prim.hlevel (rules, e.the_row.coded) };

    ghost view = { λ it. it.operations.entries };
}

impl Fragments {
    ghost use Rattle.std.specs.Prelude.{◌≡◌, [], OnOk, OnErr};
    ghost use Rattle.std.specs.Ordering.{nat_cmp};
    ghost use Rattle.std.specs.Option.{option_copied};
    ghost use Rattle.std.specs.BTreeMap.{insert_entry};
    ghost use Rattle.frame_program.specs.Fragments.{operations_at};

    pub fn new(alloc: Global) -> Self
        ensures { result ≡ [] }
    {
        Fragments {
            operations: BTreeMap::new(alloc),
        }
    }

    /// What the fragment of this number does, if there is one.
    pub fn get(&self, number: u32) -> Option<&Items<Operation>>
        ensures { option_copied result ≡ operations_at self.now number }
    {
        self.operations.get(&number)
    }

    /// Gives this number the operations, in place of any that it had.
    pub fn set(&mut self, number: u32, operations: Items<Operation>) -> Result<(), Oom>
        ensures ok { OnOk result (self.new ≡ insert_entry nat_cmp self.old number operations) }
        ensures err { OnErr result (self.new ≡ self.old) }
    {
        self.operations.insert(number, operations)?;
        Ok(())
    }
}
