//! The pieces of Razor text: literal text, tags, attributes and their values, at signs, tokens of C# code, and what stands between them.
//!
//! The contract of `pieces` gives for every text the pieces that it is cut into by the tables of `specs/`, each with its span and
//! place, or says that it is cut into none. A text is cut in at most one way, and its pieces cover it. The contract does not say
//! that memory is found, nor what pieces mean together: whether an end tag fits its start tag, which attributes there are, or
//! what an expression is, is left to who reads the pieces. The contexts that the tables go by are public for laws about them alone.
#![tactic(auto)]

mod blocks;
mod changes;
mod code;
mod content;
mod context;
mod cutting;
mod directives;
mod fault;
mod found;
mod laws;
mod piece;
mod runs;
mod tag_fronts;
mod tags;
mod values;

pub use context::{Change, Context, Held, Holds, Point, Wanted};
pub use cutting::pieces;
pub use fault::RazorFault;
pub use found::{CodeFront, Found};
pub use laws::a_text_is_cut_in_one_way;
pub use piece::{Piece, PieceKind, Quote};
pub use runs::RunKind;
