//! The tokens of C# text, as far as this project's C# goes: names, words, numbers, texts, interpolated texts, and signs,
//! with white space and comments between them.
//!
//! The contract of `tokens` gives for every text the tokens that it spells by the lexical grammar of `specs/`, each with
//! its span and place, or the first fault in it with its cause and place. Each text spells one list of tokens or goes
//! wrong in one way, and never both; the tokens cover it but for white space and comments. The contract does not say that memory
//! is found, nor what tokens mean: whether braces are in balance outside interpolated texts, or what an expression is, is left to
//! who reads the tokens.
//!
//! A reader of texts in which C# stands among other things goes token by token itself: `front_of` says what stands at the front of a
//! text, exactly, `move_past` what is open behind it, and `behind` at which place.
#![tactic(auto)]

mod around;
mod characters;
mod fault;
mod front;
mod laws;
mod lexer;
mod places;
mod signs;
mod token;
mod words;
mod written;

pub use around::{Around, Opened, innermost, move_past};
pub use characters::{Class, after, begins, split};
pub use fault::{Cause, LexFault};
pub use front::{Front, front_of};
pub use laws::{
    a_text_goes_wrong_in_one_way, a_text_spells_one_token_list, a_text_spells_tokens_or_goes_wrong,
    a_text_that_goes_wrong_spells_nothing,
};
pub use lexer::tokens;
pub use places::{behind, first_place};
pub use token::{Sign, Token, TokenKind, Word};
