// The tokens of code.
ghost use Rattle.std.specs.Prelude.{◌≡◌, IfOk};
ghost use Rattle.std.specs.Option.{option_map};
ghost use Rattle.first_click.specs.Tokens.{begins_double, IsCode};
ghost use Rattle.first_click.specs.Reading.Tokens.{token_at};

use super::characters::{Class, begins, run, skip};
use std::alloc::Global;
use text_core::{Oom, Txt};

/// Whether the text begins with `++` or `--`.
fn begins_double(text: &[u8]) -> bool
    ensures { result ≡ begins_double text.now }
{
    match text {
        [] => false,
        [_] => false,
        [first, second, ..] => matches!(first, b'+' | b'-') && second == first,
    }
}

/// The token that stands first behind white space, and what stands behind it.
#[tactic(auto, unfolding(crate::specs::Reading::Tokens::token_at))]
fn cut_token(text: &[u8]) -> Option<(&[u8], &[u8])>
    ensures { option_map (λ cut. (cut.0.now, cut.1.now)) result ≡ token_at text.now }
{
    let text = skip(Class::White, text);
    if begins(Class::Word, text) {
        return run(Class::Word, text);
    }
    if begins_double(text) {
        return Some(text.split_at(2));
    }
    if text.is_empty() {
        return None;
    }
    Some(text.split_at(1))
}

/// The tokens of code.
pub fn tokens_of(alloc: Global, text: &[u8]) -> Result<Vec<Txt>, Oom>
    ensures { IfOk result (λ tokens. IsCode text.now tokens.items) }
{
    let mut tokens = Vec::new(alloc);
    let mut rest = text;
    while let Some((token, next)) = cut_token(rest) {
        tokens.push(Txt::from_latin1(alloc, token)?)?;
        rest = next;
    }
    Ok(tokens)
}
