// Laws of the expressions that texts spell. Each function does nothing: its contract is the law.
ghost use Rattle.std.specs.Prelude.{◌≡◌, ℕ, List, Option};
ghost use Rattle.cs_ast.specs.declared.expression.Expr.{Expr as Tree};
ghost use Rattle.razor_ast.specs.TextValues.{IsExpressionOf};
ghost use Rattle.text_core.specs.declared.place.Place.{Place};

/// Of each text it is known which expression it spells where it stands, or that it spells none.
pub fn each_text_spells_one_expression_or_none()
    ensures { (around : List ℕ) (begin : Place) (text : List ℕ) → (a : Option Tree) × IsExpressionOf around begin text a }
{}

/// There is no second answer.
pub fn a_text_spells_no_second_expression()
    ensures { (around : List ℕ) (begin : Place) (text : List ℕ) (a : Option Tree) (b : Option Tree) → IsExpressionOf around begin text a
        → IsExpressionOf around begin text b → a ≡ b }
{}
