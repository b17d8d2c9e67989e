// Laws of the typing. Each function does nothing: its contract is the law.
ghost use Rattle.std.specs.Prelude.{ℕ, List, Bool, Option};
ghost use Rattle.cs_ast.specs.declared.code.Code.{Code};
ghost use Rattle.cs_ast.specs.declared.cs_type.CsType.{CsType};
ghost use Rattle.cs_meaning.specs.State.{State};
ghost use Rattle.cs_meaning.specs.Outcome.{IsDefined};
ghost use Rattle.cs_meaning.specs.Meaning.{Setting, meaning, body_meaning};
ghost use Rattle.cs_ast.specs.declared.value.Value.{Value};
ghost use Rattle.cs_typing.specs.Types.{Types, Signature, with_instances};
ghost use Rattle.cs_typing.specs.Values.{ValueHas};
ghost use Rattle.cs_typing.specs.Expressions.{Surroundings, CodeHas};
ghost use Rattle.cs_typing.specs.Statements.{Jumps, Runs};
ghost use Rattle.cs_typing.specs.Bodies.{surroundings_of, BodyHas};
ghost use Rattle.cs_typing.specs.States.{StateHas, Remain};
ghost use Rattle.cs_typing.specs.Outcomes.{Fits, no_jump, leaving, Typed, Ended, Left};
ghost use Rattle.cs_typing.specs.Settings.{SettingHas};

/// An expression with a type is not stuck: it gives a value of the type or a fault, and leaves the locals their types.
pub fn typed_expressions_are_never_stuck()
    ensures { (at : Surroundings) (around : Setting) (locals : List CsType) (type : CsType) (code : Code) (s : State)
        → SettingHas at around → CodeHas at locals type code → StateHas at.types locals s
        → IsDefined (meaning around code s) × Fits (no_jump at.types) (Typed at.types locals type) (meaning around code s) }
{}

/// A statement that may stand somewhere is not stuck there. It comes to its end only where its end can be reached, with
/// its locals behind those before it; it jumps only where it may, and returns values of the result's type alone.
pub fn typed_statements_are_never_stuck()
    ensures { (at : Surroundings) (around : Setting) (result : CsType) (j : Jumps) (locals : List CsType) (inner : List CsType) (ends : Bool) (code : Code) (s : State)
        → SettingHas at around → Runs at result j locals inner ends code → StateHas at.types locals s
        → IsDefined (meaning around code s) × Fits (leaving at.types result j locals) (Ended at.types inner ends) (meaning around code s) }
{}

/// A body that keeps to its signature is not stuck, over locals of its types: it gives a value of its result's type or a fault.
pub fn typed_bodies_are_never_stuck()
    ensures { (types : Types) (body : Signature) (around : Setting) (code : Code) (s : State)
        → SettingHas (surroundings_of types body) around → BodyHas types body code → StateHas types body.locals s
        → IsDefined (body_meaning around code s) × Fits (no_jump types) (Left types body.result) (body_meaning around code s) }
{}

/// Values keep their types where further instances are there.
pub fn values_keep_their_types_among_more_instances()
    ensures { (types : Types) (instances : ℕ → Option ℕ) → Remain types.instances instances
        → (type : CsType) (x : Value) → ValueHas types type x → ValueHas (with_instances types instances) type x }
{}
