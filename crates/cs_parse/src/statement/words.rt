// Words and names that stand first.
ghost use Rattle.std.specs.Prelude.{◌≡◌, Some, None, MatchOption};
ghost use Rattle.cs_parse.specs.Reading.{Gives};
ghost use Rattle.cs_parse.specs.SimpleReading as spec;

use crate::tokens::is_word;
use crate::unread::Unread;
use cs_token::{Token, TokenKind, Word};
use text_core::Place;

/// The tokens behind this word, if it stands first.
pub fn behind_word<'a>(tokens: &'a [Token], word: Word) -> Option<&'a [Token]>
    ensures { MatchOption result (spec.after_word word tokens.now ≡ None) (λ rest. spec.after_word word tokens.now ≡ Some rest.now) }
{
    match tokens.split_first() {
        Some((t, rest)) if is_word(t, word) => Some(rest),
        _ => None,
    }
}

/// The tokens behind this word, which has to stand first.
pub fn after_word<'a>(tokens: &'a [Token], word: Word) -> Result<&'a [Token], Unread>
    ensures { Gives (λ rest. rest.now) result (spec.after_word word tokens.now) }
{
    match behind_word(tokens, word) {
        Some(rest) => Ok(rest),
        None => Err(Unread::Syntax(tokens.len())),
    }
}

pub fn is_name(t: &Token) -> bool
    ensures { result ≡ spec.is_name t.now.kind }
{
    match &t.kind {
        TokenKind::Name(_) => true,
        _ => false,
    }
}

/// Whether a name stands first.
pub fn has_name(tokens: &[Token]) -> bool
    ensures { result ≡ spec.has_name tokens.now }
{
    match tokens.split_first() {
        Some((t, _)) => is_name(t),
        None => false,
    }
}

/// The place of the token that stands first.
pub fn place_first(tokens: &[Token]) -> Result<Place, Unread>
    ensures { Gives (λ p. p) result (spec.place_first tokens.now) }
{
    match tokens.split_first() {
        Some((t, _)) => Ok(t.place),
        None => Err(Unread::Syntax(0)),
    }
}
