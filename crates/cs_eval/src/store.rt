// The fields and parameters that code reads and changes as it runs.
ghost use Rattle.std.specs.Prelude.{◌≡◌, ℕ, is_some, IfOk};
ghost use Rattle.std.specs.Bool.{OnFalse, OnTrue};
ghost use Rattle.std.specs.declared.option.Option.{Option};
ghost use Rattle.std.specs.Option.{option_copied};
ghost use Rattle.cs_ast.specs.declared.value.Value.{Value};
ghost use Rattle.cs_meaning.specs.State.{with_field};

use crate::owners::Owners;
use cs_ast::Value;
use std::alloc::{AllocError, Global};

/// As [`Owners`], but a change may need memory.
pub(crate) trait Store {
    ghost Rest: { Type 0 };

    ghost fields: { Self → ℕ → ℕ → Option Value };

    ghost parameters: { Self → ℕ → ℕ → Option Value };

    ghost rest: { Self → Rest };

    fn get(&self, who: u32, at: u32) -> Option<&Value>
        ensures { option_copied result ≡ fields self.now who at };

    /// Gives a field that is there this value. Answers false, and changes nothing, where there is no such field.
    fn put(&mut self, alloc: Global, who: u32, at: u32, value: Value) -> Result<bool, AllocError>
        ensures found { IfOk result (λ found. found ≡ is_some (fields self.old who at)) }
        ensures set { IfOk result (λ found. OnTrue found ((w a : ℕ) → fields self.new w a ≡ with_field (fields self.old) who at value w a)) }
        ensures unset { IfOk result (λ found. OnFalse found ((w a : ℕ) → fields self.new w a ≡ fields self.old w a)) }
        ensures parameters { (w a : ℕ) → parameters self.new w a ≡ parameters self.old w a }
        ensures rest { rest self.new ≡ rest self.old };

    fn parameter_of(&self, who: u32, at: u32) -> Option<&Value>
        ensures { option_copied result ≡ parameters self.now who at };
}

impl<O: Owners> Store for O {
    ghost Rest = { O.Rest };

    ghost fields = { O.fields };

    ghost parameters = { O.parameters };

    ghost rest = { O.rest };

    fn get(&self, who: u32, at: u32) -> Option<&Value> {
        self.field(who, at)
    }

    fn put(&mut self, _alloc: Global, who: u32, at: u32, value: Value) -> Result<bool, AllocError> {
        Ok(self.set(who, at, value))
    }

    fn parameter_of(&self, who: u32, at: u32) -> Option<&Value> {
        self.parameter(who, at)
    }
}
