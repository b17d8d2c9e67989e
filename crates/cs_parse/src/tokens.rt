// Single tokens.
ghost use Rattle.std.specs.Prelude.{◌≡◌, ◌<◌, ◌↔◌, IsTrue, Some, None, MatchOption, IfSome, IfOk, length};
ghost use Rattle.cs_parse.specs.Reading as spec;
ghost use Rattle.cs_parse.specs.Reading.{Gives};

use crate::unread::Unread;
use cs_ast::Ident;
use cs_token::{Sign, Token, TokenKind, Word};

/// What was read, and the tokens behind it.
pub type Front<'a, T> = Result<(T, &'a [Token]), Unread>;

fn same_sign(a: Sign, b: Sign) -> bool
    ensures { IsTrue result ↔ (a ≡ b) }
{
    a == b
}

fn same_word(a: Word, b: Word) -> bool
    ensures { IsTrue result ↔ (a ≡ b) }
{
    a == b
}

pub fn is_sign(t: &Token, sign: Sign) -> bool
    ensures { result ≡ spec.is_sign sign t.now.kind }
{
    match &t.kind {
        TokenKind::Sign(found) => same_sign(*found, sign),
        _ => false,
    }
}

pub fn is_word(t: &Token, word: Word) -> bool
    ensures { result ≡ spec.is_word word t.now.kind }
{
    match &t.kind {
        TokenKind::Word(found) => same_word(*found, word),
        _ => false,
    }
}

/// Whether this sign stands first.
pub fn has_sign(tokens: &[Token], sign: Sign) -> bool
    ensures { result ≡ spec.has_sign sign tokens.now }
{
    match tokens.split_first() {
        Some((t, _)) => is_sign(t, sign),
        None => false,
    }
}

/// The tokens behind this sign, if it stands first.
pub fn behind<'a>(tokens: &'a [Token], sign: Sign) -> Option<&'a [Token]>
    ensures read { MatchOption result (spec.after sign tokens.now ≡ None) (λ rest. spec.after sign tokens.now ≡ Some rest.now) }
    ensures fewer { IfSome result (λ rest. length rest.now < length tokens.now) }
{
    match tokens.split_first() {
        Some((t, rest)) if is_sign(t, sign) => Some(rest),
        _ => None,
    }
}

/// The tokens behind this sign, which has to stand first.
pub fn after<'a>(tokens: &'a [Token], sign: Sign) -> Result<&'a [Token], Unread>
    ensures read { Gives (λ rest. rest.now) result (spec.after sign tokens.now) }
    ensures fewer { IfOk result (λ rest. length rest.now < length tokens.now) }
{
    match behind(tokens, sign) {
        Some(rest) => Ok(rest),
        None => Err(Unread::Syntax(tokens.len())),
    }
}

/// The name that stands first.
pub fn name_first<'a>(tokens: &'a [Token]) -> Front<'a, Ident>
    ensures read { Gives (λ x. (x.0, x.1.now)) result (spec.name_first tokens.now) }
    ensures fewer { IfOk result (λ x. length x.1.now < length tokens.now) }
{
    let Some((t, rest)) = tokens.split_first() else {
        return Err(Unread::Syntax(0));
    };
    match &t.kind {
        TokenKind::Name(name) => Ok((
            Ident {
                place: t.place,
                name: name.clone()?,
            },
            rest,
        )),
        _ => Err(Unread::Syntax(tokens.len())),
    }
}
