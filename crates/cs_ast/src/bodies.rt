// The codes of a program by their numbers.
use crate::Code;
use std::alloc::Global;
use std::collections::BTreeMap;
use std::marker::Model;
use text_core::Oom;

/// The methods, handlers and lambdas of a program, by their numbers. Contracts see the list of numbers and codes in
/// rising order.
#[derive(Debug, Drop)]
pub struct Bodies {
    codes: BTreeMap<u32, Code>,
}

impl Model for Bodies {
    ghost use Rattle.std.specs.Prelude.{List, ℕ};
    ghost use Rattle.std.specs.Coded.{codes as rules};
    ghost use Rattle.cs_ast.specs.contracts.code.Code as e;
    ghost use Rattle.cs_ast.specs.declared.code.Code.{Code};

    ghost Value = { List (ℕ × Code) };

    ghost coded = { Prim.hlevel (rules, e.the_row.coded) };

    ghost view = { λ it. it.codes.entries };
}

impl Bodies {
    ghost use Rattle.std.specs.Prelude.{◌≡◌, [], OnOk, OnErr};
    ghost use Rattle.std.specs.Ordering.{nat_cmp};
    ghost use Rattle.std.specs.Option.{option_copied};
    ghost use Rattle.std.specs.BTreeMap.{insert_entry};
    ghost use Rattle.cs_ast.specs.Bodies.{code_at};

    pub fn new(alloc: Global) -> Self
        ensures { result ≡ [] }
    {
        Bodies {
            codes: BTreeMap::new(alloc),
        }
    }

    /// The code of this number, if there is one.
    pub fn get(&self, number: u32) -> Option<&Code>
        ensures { option_copied result ≡ code_at self.now number }
    {
        self.codes.get(&number)
    }

    /// Gives this number the code, in place of any that it had.
    pub fn set(&mut self, number: u32, code: Code) -> Result<(), Oom>
        ensures ok { OnOk result (self.new ≡ insert_entry nat_cmp self.old number code) }
        ensures err { OnErr result (self.new ≡ self.old) }
    {
        self.codes.insert(number, code)?;
        Ok(())
    }
}
