// Types, and how they are written.
use sqlite_items::Boxed;
use text_core::{Place, Txt};

/// A type.
#[derive(Debug, Drop)]
pub enum CsType {
    Int,
    Bool,
    /// `string`
    Text,
    /// The record of this name.
    Rec(Txt),
    /// `ImmutableList<T>`
    List(Boxed<CsType>),
    /// `EventCallback`, or `EventCallback<T>`.
    Callback(Option<Boxed<CsType>>),
    /// `RenderFragment`, or `RenderFragment<T>`.
    Fragment(Option<Boxed<CsType>>),
    /// `ChangeEventArgs`
    Change,
    /// `EventArgs`, or one of the event argument types without members.
    Args,
    /// The type of what has no value, as a call of a method without a result.
    Nothing,
}

/// A type where it is written. A `?` behind it is not kept.
#[cycle(types)]
#[derive(Debug, Drop)]
pub struct TypeExpr {
    pub place: Place,
    pub kind: TypeKind,
}

/// The forms of written types, as in [`CsType`].
#[cycle(types)]
#[derive(Debug, Drop)]
pub enum TypeKind {
    Int,
    Bool,
    Text,
    /// A name, which may be that of a record.
    Named(Txt),
    List(Boxed<TypeExpr>),
    Callback(Option<Boxed<TypeExpr>>),
    Fragment(Option<Boxed<TypeExpr>>),
    Change,
    Args,
}
