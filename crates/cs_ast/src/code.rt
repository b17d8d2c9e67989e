// Code whose names stand for numbers.
use crate::{AssignOp, BinaryOp, CastOp, StepOp, UnaryOp, Value};
use sqlite_items::{Boxed, Items};
use text_core::Txt;

/// Expressions and statements with names resolved to numbers. The number of an own field is its position among the own
/// fields in the order of members, from 0, of a parameter likewise among the parameters, of a local its position in
/// the list of locals, of a method or lambda its number in [`Bodies`].
#[derive(Debug, Drop)]
pub enum Code {
    Int(i32),
    Bool(bool),
    Text(Txt),
    Null,
    Field(u32),
    Parameter(u32),
    Local(u32),
    /// The texts of these joined. A piece that is a [`Code::Piece`] is no expression of its own.
    Interpolated(Items<Code>),
    /// A literal piece of an interpolated text.
    Piece(Txt),
    Unary(UnaryOp, Boxed<Code>),
    Cast(CastOp, Boxed<Code>),
    Binary(BinaryOp, Boxed<Code>, Boxed<Code>),
    Conditional(Boxed<Code>, Boxed<Code>, Boxed<Code>),
    /// A record with the parts at these positions replaced by these values, the last where one is named twice.
    With(Boxed<Code>, Items<u32>, Items<Code>),
    /// The part of a record at a position.
    Part(Boxed<Code>, u32),
    /// The same, and null of null.
    NullPart(Boxed<Code>, u32),
    Index(Boxed<Code>, Boxed<Code>),
    /// A record of this kind with these parts.
    New(u32, Items<Code>),
    /// A member of the library over its target, if it has one, and its arguments.
    Library(LibraryMember, Items<Code>),
    /// A call of a method of the own instance.
    Call(u32, Items<Code>),
    /// A method or lambda as a value: its number in [`Bodies`], and the locals that it captures.
    Callback(u32, Items<u32>),
    /// A fragment with one more captured value.
    Fill(Boxed<Code>, Boxed<Code>),
    /// `InvokeAsync`, with its argument if there is one.
    Invoke(Boxed<Code>, Option<Boxed<Code>>),
    Assign(Variable, AssignOp, Boxed<Code>),
    Step(Variable, StepOp),
    /// What `@bind` does with the text of an event: where it is readable, it becomes the value of this own field.
    Bind(u32, BindKind),
    /// A new local with this value, behind those that are there.
    Declare(Boxed<Code>),
    Empty,
    Block(Items<Code>),
    If(Boxed<Code>, Boxed<Code>, Option<Boxed<Code>>),
    While(Boxed<Code>, Boxed<Code>),
    /// Start, condition, step and body.
    For(Option<Boxed<Code>>, Option<Boxed<Code>>, Option<Boxed<Code>>, Boxed<Code>),
    /// The list, and the body with a new local for the item.
    ForEach(Boxed<Code>, Boxed<Code>),
    /// A value, and its [`Code::Section`]s.
    Switch(Boxed<Code>, Items<Code>),
    /// A section of a `switch`: its constants, whether `default` is among its labels, and its statements.
    Section(Items<Value>, bool, Items<Code>),
    Break,
    Continue,
    Return(Option<Boxed<Code>>),
    /// An expression as a statement.
    Perform(Boxed<Code>),
}

/// What an assignment changes.
#[derive(Clone, Copy, Debug, PartialEq, Eq)]
pub enum Variable {
    /// An own field.
    Field(u32),
    Local(u32),
}

/// The members of the library.
#[derive(Clone, Copy, Debug, PartialEq, Eq)]
pub enum LibraryMember {
    /// The UTF-16 units of a text.
    Length,
    ToText,
    IsNullOrEmpty,
    /// `ImmutableList<T>.Empty`
    EmptyList,
    Count,
    Add,
    Insert,
    RemoveAt,
    SetItem,
    HasDelegate,
    /// `Value` of a `ChangeEventArgs`.
    ChangeValue,
}

/// How a bound field reads the text of an event.
#[derive(Clone, Copy, Debug, PartialEq, Eq)]
pub enum BindKind {
    Int,
    Bool,
    Text,
}
