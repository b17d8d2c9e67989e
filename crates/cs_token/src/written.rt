// How the characters of a text are written.
ghost use Rattle.std.specs.Prelude.{◌≡◌, IfOk};
ghost use Rattle.std.specs.Option.{option_map};
ghost use Rattle.cs_token.specs.Written.{is_plain, escaped, numbered};
ghost use Rattle.cs_token.specs.Reading.Written.{number_at, escape_at, doubled_at, unit_at, said_at};

use std::alloc::Global;
use text_core::{Oom, Txt};

/// Where the characters of a text are written.
#[derive(Clone, Copy, Debug, PartialEq, Eq)]
pub(crate) enum Form {
    /// Between double quotes.
    Quoted,
    /// In a literal part of an interpolated text, where a brace is doubled.
    Part,
}

/// Whether the character is written as itself.
fn is_plain(form: Form, character: char) -> bool
    ensures { result ≡ is_plain form character }
{
    match form {
        Form::Quoted => !matches!(character, '"' | '\\' | '\n'),
        Form::Part => !matches!(character, '"' | '\\' | '\n' | '{' | '}'),
    }
}

/// The character that a letter behind a backslash says.
fn escaped(letter: char) -> Option<char>
    ensures { result ≡ escaped letter }
{
    match letter {
        '\\' | '"' | '\'' => Some(letter),
        '0' => Some('\0'),
        'n' => Some('\n'),
        'r' => Some('\r'),
        't' => Some('\t'),
        _ => None,
    }
}

/// The character that four digits to the base 16 say, which is no surrogate.
fn numbered(a: char, b: char, c: char, d: char) -> Option<char>
    ensures { result ≡ numbered a b c d }
{
    let a = a.to_digit(16)?;
    let b = b.to_digit(16)?;
    let c = c.to_digit(16)?;
    let d = d.to_digit(16)?;
    char::from_u32(a * 4096 + b * 256 + c * 16 + d)
}

/// The character that a number behind `\u` says, and what stands behind it.
#[tactic(auto, unfolding(crate::specs::Reading::Written::number_at))]
fn number(text: &[char]) -> Option<(char, &[char])>
    ensures { option_map (λ x. (x.0, x.1.now)) result ≡ number_at text.now }
{
    match text {
        [a, b, c, d, rest @ ..] => Some((numbered(*a, *b, *c, *d)?, rest)),
        _ => None,
    }
}

/// The character that is said behind a backslash, and what stands behind it.
#[tactic(auto, unfolding(crate::specs::Reading::Written::escape_at))]
fn escape(text: &[char]) -> Option<(char, &[char])>
    ensures { option_map (λ x. (x.0, x.1.now)) result ≡ escape_at text.now }
{
    match text {
        [] => None,
        ['u', rest @ ..] => number(rest),
        [letter, rest @ ..] => Some((escaped(*letter)?, rest)),
    }
}

/// The brace that is doubled at the front, and what stands behind it.
#[tactic(auto, unfolding(crate::specs::Reading::Written::doubled_at))]
fn doubled(form: Form, text: &[char]) -> Option<(char, &[char])>
    ensures { option_map (λ x. (x.0, x.1.now)) result ≡ doubled_at form text.now }
{
    match text {
        ['{', '{', rest @ ..] if form == Form::Part => Some(('{', rest)),
        ['}', '}', rest @ ..] if form == Form::Part => Some(('}', rest)),
        _ => None,
    }
}

/// The character that is said at the front, and what stands behind it.
#[tactic(auto, unfolding(crate::specs::Reading::Written::unit_at))]
fn unit(form: Form, text: &[char]) -> Option<(char, &[char])>
    ensures { option_map (λ x. (x.0, x.1.now)) result ≡ unit_at form text.now }
{
    match text {
        [] => None,
        ['\\', rest @ ..] => escape(rest),
        [first, rest @ ..] if is_plain(form, *first) => Some((*first, rest)),
        _ => doubled(form, text),
    }
}

/// The characters that are said at the front, as many as there are, and what stands behind them.
pub(crate) fn said(alloc: Global, form: Form, text: &[char]) -> Result<(Txt, &[char]), Oom>
    ensures { IfOk result (λ x. (x.0, x.1.now) ≡ said_at form text.now) }
{
    let mut found = Txt::new(alloc);
    let mut rest = text;
    while let Some((character, next)) = unit(form, rest) {
        found.push(character)?;
        rest = next;
    }
    Ok((found, rest))
}
