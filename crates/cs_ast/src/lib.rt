//! Trees of C# code, its values, and code whose names stand for numbers.
//!
//! The contracts say when two values are the same, how a value is shown as text and how large it is, exactly. A tree keeps
//! the place of each part that a rule may name. That a tree is spelled by some text, or that code stays within its
//! fields and locals, is said by the crates that make them.
#![tactic(auto)]

mod bodies;
mod code;
mod cs_type;
mod expression;
mod identifier;
mod member;
mod operators;
mod scope;
mod value;

pub use bodies::Bodies;
pub use code::{BindKind, Code, LibraryMember, Variable};
pub use cs_type::{CsType, TypeExpr, TypeKind};
pub use expression::{
    Body, Expr, ExprKind, Label, LabelKind, Section, Stmt, StmtKind, TextPart, WithPart,
};
pub use identifier::Ident;
pub use member::{Argument, Member, MemberKind};
pub use operators::{AssignOp, BinaryOp, CastOp, StaticType, StepOp, UnaryOp};
pub use scope::{Effect, NameKind, Named, Scope};
pub use value::{Value, same, show, size};
