// The operators of expressions and assignments.

/// An operator before its operand.
#[derive(Clone, Copy, Debug, PartialEq, Eq)]
pub enum UnaryOp {
    Minus,
    Plus,
    Not,
}

/// A type in brackets before its operand.
#[derive(Clone, Copy, Debug, PartialEq, Eq)]
pub enum CastOp {
    /// `(string)`
    Text,
    /// `(MarkupString)`, which stands outermost only.
    Markup,
}

/// An operator between two operands.
#[derive(Clone, Copy, Debug, PartialEq, Eq)]
pub enum BinaryOp {
    /// `??`
    Coalesce,
    Or,
    And,
    Equal,
    NotEqual,
    Less,
    Greater,
    LessOrEqual,
    GreaterOrEqual,
    Add,
    Subtract,
    Multiply,
    Divide,
    Remainder,
}

/// An assignment: `=`, or `+=` and its kin.
#[derive(Clone, Copy, Debug, PartialEq, Eq)]
pub enum AssignOp {
    Set,
    Add,
    Subtract,
    Multiply,
    Divide,
    Remainder,
}

/// `++` or `--` behind a name.
#[derive(Clone, Copy, Debug, PartialEq, Eq)]
pub enum StepOp {
    Increment,
    Decrement,
}

/// A type whose members are named behind it: `int.MaxValue`, `string.Empty`.
#[derive(Clone, Copy, Debug, PartialEq, Eq)]
pub enum StaticType {
    Int,
    Text,
}
