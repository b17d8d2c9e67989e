// The trees of expressions and statements.
use crate::{AssignOp, BinaryOp, CastOp, Ident, StaticType, StepOp, TypeExpr, UnaryOp};
use sqlite_items::{Boxed, Items};
use text_core::{Place, Txt};

/// An expression, and the place where it begins. Brackets leave no tree: an operation begins at its first token, the
/// brackets of its first operand among them, and an expression that is whole in brackets begins inside them.
#[cycle(tree)]
#[derive(Debug, Drop)]
pub struct Expr {
    pub place: Place,
    pub kind: ExprKind,
}

/// The forms of expressions.
#[cycle(tree)]
#[derive(Debug, Drop)]
pub enum ExprKind {
    Int(i32),
    Bool(bool),
    Text(Txt),
    Null,
    /// `$".."`, its pieces in their order.
    Interpolated(Items<TextPart>),
    Name(Txt),
    Unary(UnaryOp, Boxed<Expr>),
    Cast(CastOp, Boxed<Expr>),
    Binary(BinaryOp, Boxed<Expr>, Boxed<Expr>),
    /// `a ? b : c`
    Conditional(Boxed<Expr>, Boxed<Expr>, Boxed<Expr>),
    /// `a with { N = e, .. }`
    With(Boxed<Expr>, Items<WithPart>),
    /// `a.N`
    Member(Boxed<Expr>, Ident),
    /// `a?.N`
    NullMember(Boxed<Expr>, Ident),
    /// `a(b, ..)`. The calls of the library are calls of a member.
    Call(Boxed<Expr>, Items<Expr>),
    /// `a[b]`
    Index(Boxed<Expr>, Boxed<Expr>),
    /// `new N(a, ..)`
    New(Ident, Items<Expr>),
    /// `ImmutableList<T>.Empty`
    EmptyList(TypeExpr),
    /// `int.N`, `string.N`
    Static(StaticType, Ident),
    /// `x = e` and its kin, which stand as a statement, as the step of a `for` and as the body of a lambda only.
    Assign(AssignOp, Ident, Boxed<Expr>),
    /// `x++`, `x--`, which stand where assignments do.
    Step(StepOp, Ident),
    /// `x => e`, or with a block. It stands by itself only.
    Lambda(Option<Ident>, Body),
}

/// A piece of an interpolated text.
#[cycle(tree)]
#[derive(Debug, Drop)]
pub enum TextPart {
    Literal(Txt),
    Hole(Expr),
}

/// `N = e` behind `with`.
#[cycle(tree)]
#[derive(Debug, Drop)]
pub struct WithPart {
    pub name: Ident,
    pub value: Expr,
}

/// What a method or a lambda does.
#[cycle(tree)]
#[derive(Debug, Drop)]
pub enum Body {
    /// `=> e`
    Value(Boxed<Expr>),
    Block(Items<Stmt>),
}

/// A statement, and the place where it begins.
#[cycle(tree)]
#[derive(Debug, Drop)]
pub struct Stmt {
    pub place: Place,
    pub kind: StmtKind,
}

/// The forms of statements.
#[cycle(tree)]
#[derive(Debug, Drop)]
pub enum StmtKind {
    /// `T x = e;`, or `var x = e;` without a type. A local without a value is read, though a rule refuses it.
    Local {
        cs_type: Option<TypeExpr>,
        name: Ident,
        value: Option<Expr>,
    },
    /// `;`
    Empty,
    Block(Items<Stmt>),
    If {
        condition: Expr,
        yes: Boxed<Stmt>,
        no: Option<Boxed<Stmt>>,
    },
    While {
        condition: Expr,
        body: Boxed<Stmt>,
    },
    /// `for (start; condition; step) body`, each of the three absent at will. The start is a local, or an expression as
    /// a statement.
    For {
        start: Option<Boxed<Stmt>>,
        condition: Option<Expr>,
        step: Option<Expr>,
        body: Boxed<Stmt>,
    },
    /// `foreach (var x in e) body`
    ForEach {
        name: Ident,
        list: Expr,
        body: Boxed<Stmt>,
    },
    Switch {
        value: Expr,
        sections: Items<Section>,
    },
    Break,
    Continue,
    Return(Option<Expr>),
    /// An assignment, a step or a call as a statement.
    Expr(Expr),
    /// `await e;`, where e is a call of `InvokeAsync`.
    Await(Expr),
}

/// A section of a `switch`, of one label or more. Its last statement is a `break` or a `return`.
#[cycle(tree)]
#[derive(Debug, Drop)]
pub struct Section {
    pub labels: Items<Label>,
    pub body: Items<Stmt>,
}

/// A label of a `switch`, at its constant or at the word `default`.
#[derive(Debug, Drop)]
pub struct Label {
    pub place: Place,
    pub kind: LabelKind,
}

/// What a label says.
#[derive(Debug, Drop)]
pub enum LabelKind {
    Int(i32),
    Bool(bool),
    Text(Txt),
    Null,
    Default,
}
