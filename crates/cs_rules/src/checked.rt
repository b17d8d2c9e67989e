// Expressions that break no rule, and their types.
use cs_ast::{Code, CsType};
use text_core::Place;

/// The type of an expression.
#[derive(Debug, Drop)]
pub enum ExprType {
    Of(CsType),
    /// The type of `null`, which stands wherever a type that may be null is wanted.
    Null,
    /// The type of `(MarkupString)e`, which no operand, argument or variable has.
    Markup,
}

/// An expression that breaks no rule.
#[derive(Debug, Drop)]
pub struct Checked {
    pub place: Place,
    pub code: Code,
    pub expr_type: ExprType,
}
