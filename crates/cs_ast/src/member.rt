// The trees of members.
use crate::{Body, Expr, Ident, TypeExpr};
use sqlite_items::Items;
use text_core::{Place, Txt};

/// A member of a component, and the place where it begins.
#[derive(Debug, Drop)]
pub struct Member {
    pub place: Place,
    pub kind: MemberKind,
}

/// The forms of members. Modifiers leave nothing in the tree.
#[derive(Debug, Drop)]
pub enum MemberKind {
    /// `T x;`, `T x = e;`, or the same as a property.
    Field {
        cs_type: TypeExpr,
        name: Ident,
        initial: Option<Expr>,
    },
    /// A property behind `[Parameter]`, or behind `[CascadingParameter]`, which may give the name of what it takes.
    Parameter {
        cascading: bool,
        source: Option<Txt>,
        cs_type: TypeExpr,
        name: Ident,
        initial: Option<Expr>,
    },
    /// `R m(T a, ..) { .. }` or with `=> e;`. There is no result for `void`, `Task` and `async Task`.
    Method {
        result: Option<TypeExpr>,
        name: Ident,
        arguments: Items<Argument>,
        body: Body,
    },
    /// `T x => e;`, a method without arguments that is called without brackets.
    Getter {
        result: TypeExpr,
        name: Ident,
        value: Expr,
    },
    /// `record N(T A, ..);`
    RecordDef {
        name: Ident,
        parts: Items<Argument>,
    },
}

/// A name with its type, as an argument of a method or a part of a record.
#[derive(Debug, Drop)]
pub struct Argument {
    pub cs_type: TypeExpr,
    pub name: Ident,
}
