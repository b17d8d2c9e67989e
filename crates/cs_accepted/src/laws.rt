// Laws of accepted code. Each function does nothing: its contract is the law.
ghost use Rattle.std.specs.Prelude.{◌≡◌, ℕ, false, List, Option};
ghost use Rattle.cs_ast.specs.declared.code.Code.{Code};
ghost use Rattle.cs_ast.specs.declared.cs_type.CsType.{CsType};
ghost use Rattle.cs_ast.specs.declared.expression.Expr.{Expr};
ghost use Rattle.cs_ast.specs.declared.expression.Stmt.{Stmt};
ghost use Rattle.cs_ast.specs.declared.scope.Scope.{Scope};
ghost use Rattle.cs_grammar.specs.Statements.{Statements, no_jumps};
ghost use Rattle.cs_meaning.specs.State.{State};
ghost use Rattle.cs_meaning.specs.Outcome.{IsDefined};
ghost use Rattle.cs_meaning.specs.Meaning.{Setting, meaning, body_meaning};
ghost use Rattle.cs_rules.specs.declared.checked.Checked.{Checked};
ghost use Rattle.cs_rules.specs.Judged.{fine};
ghost use Rattle.cs_rules.specs.Trees.{value_in};
ghost use Rattle.cs_token.specs.declared.token.Token.{Token};
ghost use Rattle.cs_typing.specs.Types.{Types, Signature, with_instances};
ghost use Rattle.cs_typing.specs.Expressions.{Surroundings};
ghost use Rattle.cs_typing.specs.Bodies.{surroundings_of, BodyHas};
ghost use Rattle.cs_typing.specs.States.{StateHas};
ghost use Rattle.cs_typing.specs.Outcomes.{Fits, no_jump, Left};
ghost use Rattle.cs_accepted.specs.Scopes.{ScopeFits};
ghost use Rattle.cs_accepted.specs.Accepted.{ValueFits, Typed};
ghost use Rattle.cs_accepted.specs.Bodies.{body_leaves};
ghost use Rattle.cs_accepted.specs.Programs.{AcceptedAs, ProgramAccepted, SettingAccepted};

/// The code of an expression that breaks no rule has the expression's type.
pub fn accepted_expressions_have_their_types()
    ensures { (a : Expr) (scope : Scope) (x : Checked) (at : Surroundings) (locals : List CsType)
        → value_in scope a ≡ fine x → ScopeFits at locals scope → ValueFits at locals x }
{}

/// With an accepted program, the code of an expression that breaks no rule is not stuck: it gives a value of the expression's
/// type or a fault, and fields, locals and receivers keep to their types.
pub fn accepted_expressions_are_never_stuck()
    ensures { (a : Expr) (scope : Scope) (x : Checked) (at : Surroundings) (locals : List CsType) (around : Setting) (s : State)
        → value_in scope a ≡ fine x → ScopeFits at locals scope → SettingAccepted at around → StateHas at.types locals s
        → IsDefined (meaning around x.code s) × Fits (no_jump at.types) (Typed at.types locals x.expr_type) (meaning around x.code s) }
{}

/// The code of an accepted body keeps to the body's signature.
pub fn accepted_bodies_keep_to_their_signatures()
    ensures { (types : Types) (body : Signature) (code : Code) → AcceptedAs types body code → BodyHas types body code }
{}

/// With an accepted program, the code of an accepted body is not stuck, over locals of its types: it gives a value of its
/// result's type or a fault, and fields and receivers keep to their types.
pub fn accepted_bodies_are_never_stuck()
    ensures { (types : Types) (body : Signature) (code : Code) (around : Setting) (s : State)
        → SettingAccepted (surroundings_of types body) around → AcceptedAs types body code → StateHas types body.locals s
        → IsDefined (body_meaning around code s) × Fits (no_jump types) (Left types body.result) (body_meaning around code s) }
{}

/// A program stays accepted where other instances are there.
pub fn programs_stay_accepted_among_other_instances()
    ensures { (types : Types) (instances : ℕ → Option ℕ) (bodies : List (ℕ × Code))
        → ProgramAccepted types bodies → ProgramAccepted (with_instances types instances) bodies }
{}

/// No jump leaves the statements that tokens spell outside all loops.
pub fn no_jump_leaves_a_spelled_body()
    ensures { (tokens : List Token) (rest : List Token) (body : List Stmt)
        → Statements no_jumps tokens rest body → ((body_leaves body).breaks ≡ false) × ((body_leaves body).continues ≡ false) }
{}
