// In which quotes a value is written.
ghost use Rattle.std.specs.Prelude.{◌≡◌, ◌==◌, IfOk};
ghost use Rattle.std.specs.List.{list_any};
ghost use Rattle.razor_token.specs.CodeFronts as code;
ghost use Rattle.razor_print.specs.Quotes as spec;

use crate::value_texts::stands_in;
use razor_ast::ValuePart;
use razor_token::Quote;
use std::alloc::Global;
use text_core::{Oom, Txt};

/// The character of a quote.
pub fn mark(quote: Quote) -> char
    ensures { result ≡ code.mark quote }
{
    match quote {
        Quote::Double => '"',
        Quote::Single => '\'',
    }
}

/// Whether the character stands in the text.
#[tactic(auto, using(crate::proofs::LastLaws::any_more))]
fn contains(wanted: char, text: &Txt) -> bool
    ensures { result ≡ list_any (λ c. c == wanted) text.now }
{
    let mut found = false;
    for character in text.as_str().chars() {
        found = found || character == wanted;
    }
    found
}

/// Whether the quote stands in the text.
fn holds(quote: Quote, text: &Txt) -> bool
    ensures { result ≡ spec.holds quote text.now }
{
    contains(mark(quote), text)
}

/// The quotes of a text that is taken as it is.
pub fn text_quote(alloc: Global, text: &Txt) -> Result<Quote, Oom>
    ensures { IfOk result (λ quote. quote ≡ spec.text_quote text.now) }
{
    if !holds(Quote::Double, text) {
        return Ok(Quote::Double);
    }
    if !holds(Quote::Single, text) {
        return Ok(Quote::Single);
    }
    if stands_in(alloc, Quote::Double, text)? {
        Ok(Quote::Double)
    } else {
        Ok(Quote::Single)
    }
}

fn is_double(part: &ValuePart) -> bool
    ensures { result ≡ spec.is_double part.now }
{
    match part {
        ValuePart::Literal(text) => holds(Quote::Double, text),
        ValuePart::Shown(_) => false,
    }
}

/// Whether a double quote stands in literal text.
fn any_double(parts: &[ValuePart]) -> bool
    ensures { result ≡ list_any spec.is_double parts.now }
{
    parts.iter().any(|part| is_double(part))
}

/// The quotes of literal text mixed with expressions.
pub fn mixed_quote(parts: &[ValuePart]) -> Quote
    ensures { result ≡ spec.mixed_quote parts.now }
{
    if any_double(parts) {
        Quote::Single
    } else {
        Quote::Double
    }
}
