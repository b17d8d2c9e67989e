// Reads attributes and modifiers.
ghost use Rattle.std.specs.Prelude.{◌≡◌, Some, None, IsTrue, MatchOption};
ghost use Rattle.text_core.specs.Ascii.{is_ascii};
ghost use Rattle.cs_grammar.specs.Tables as tables;
ghost use Rattle.cs_parse.specs.MemberReading as spec;
ghost use Rattle.cs_parse.specs.Reading.{Gives};

use crate::tokens::{Front, after, behind};
use crate::unread::Unread;
use cs_token::{Sign, Token, TokenKind, Word};
use text_core::Txt;

/// What an attribute says of a parameter: whether it is cascading, and the name of what it takes.
#[derive(Drop)]
pub struct Attribute {
    pub cascading: bool,
    pub source: Option<Txt>,
}

/// Whether a token is this name.
pub fn is_named(t: &Token, name: &str) -> bool
    requires { IsTrue (is_ascii name.now) }
    ensures { result ≡ spec.is_named name.now t.now.kind }
{
    match &t.kind {
        TokenKind::Name(found) => found.is(name),
        _ => false,
    }
}

/// The tokens behind this name, if it stands first.
pub fn behind_name<'a>(tokens: &'a [Token], name: &str) -> Option<&'a [Token]>
    requires { IsTrue (is_ascii name.now) }
    ensures { MatchOption result
        (spec.after_name name.now tokens.now ≡ None)
        (λ rest. spec.after_name name.now tokens.now ≡ Some rest.now) }
{
    match tokens.split_first() {
        Some((t, rest)) if is_named(t, name) => Some(rest),
        _ => None,
    }
}

/// The tokens behind this name, which has to stand first.
pub fn after_name<'a>(tokens: &'a [Token], name: &str) -> Result<&'a [Token], Unread>
    requires { IsTrue (is_ascii name.now) }
    ensures { Gives (λ rest. rest.now) result (spec.after_name name.now tokens.now) }
{
    match behind_name(tokens, name) {
        Some(rest) => Ok(rest),
        None => Err(Unread::Syntax(tokens.len())),
    }
}

#[tactic(auto, unfolding(cs_grammar::specs::Tables::is_modifier))]
fn is_modifier(word: Word) -> bool
    ensures { result ≡ tables.is_modifier word }
{
    match word {
        Word::Private | Word::Public | Word::Protected | Word::Internal | Word::Override => true,
        _ => false,
    }
}

fn modifies(t: &Token) -> bool
    ensures { result ≡ spec.modifies t.now.kind }
{
    match &t.kind {
        TokenKind::Word(word) => is_modifier(*word),
        _ => false,
    }
}

/// The tokens behind the modifiers that stand first.
pub fn unmodified<'a>(tokens: &'a [Token]) -> &'a [Token]
    ensures { result.now ≡ spec.unmodified tokens.now }
{
    let mut left = tokens;
    while let Some((t, rest)) = left.split_first() {
        if !modifies(t) {
            return left;
        }
        left = rest;
    }
    left
}

/// An attribute behind its bracket.
pub fn attribute_first<'a>(tokens: &'a [Token]) -> Front<'a, Attribute>
    ensures { Gives (λ x. (x.0, x.1.now)) result (spec.attribute_first tokens.now) }
{
    match behind_name(tokens, "Parameter") {
        Some(rest) => given(rest),
        None => cascading(after_name(tokens, "CascadingParameter")?),
    }
}

fn given<'a>(tokens: &'a [Token]) -> Front<'a, Attribute>
    ensures { Gives (λ x. (x.0, x.1.now)) result (spec.given tokens.now) }
{
    let attribute = Attribute {
        cascading: false,
        source: None,
    };
    Ok((attribute, after(tokens, Sign::CloseSquare)?))
}

fn cascading<'a>(tokens: &'a [Token]) -> Front<'a, Attribute>
    ensures { Gives (λ x. (x.0, x.1.now)) result (spec.cascading tokens.now) }
{
    let (source, rest) = source(tokens)?;
    let rest = after(rest, Sign::CloseSquare)?;
    let attribute = Attribute {
        cascading: true,
        source,
    };
    Ok((attribute, rest))
}

/// `(Name = "..")`, or nothing.
fn source<'a>(tokens: &'a [Token]) -> Front<'a, Option<Txt>>
    ensures { Gives (λ x. (x.0, x.1.now)) result (spec.source tokens.now) }
{
    match behind(tokens, Sign::OpenRound) {
        Some(rest) => {
            let (source, rest) = source_first(rest)?;
            Ok((Some(source), rest))
        }
        None => Ok((None, tokens)),
    }
}

/// `Name = ".."` and a bracket.
fn source_first<'a>(tokens: &'a [Token]) -> Front<'a, Txt>
    ensures { Gives (λ x. (x.0, x.1.now)) result (spec.source_first tokens.now) }
{
    let rest = after_name(tokens, "Name")?;
    let rest = after(rest, Sign::Assign)?;
    let (text, rest) = text_first(rest)?;
    Ok((text, after(rest, Sign::CloseRound)?))
}

/// The text that stands first.
fn text_first<'a>(tokens: &'a [Token]) -> Front<'a, Txt>
    ensures { Gives (λ x. (x.0, x.1.now)) result (spec.text_first tokens.now) }
{
    let Some((t, rest)) = tokens.split_first() else {
        return Err(Unread::Syntax(0));
    };
    match &t.kind {
        TokenKind::Text(text) => Ok((text.clone()?, rest)),
        _ => Err(Unread::Syntax(tokens.len())),
    }
}
