// Writes the values of attributes.
ghost use Rattle.std.specs.Prelude.{◌≡◌, ◌++◌, [], ◌∷◌, OnOk, codes};
ghost use Rattle.std.specs.List.{flat_map};
ghost use Rattle.cs_token.specs.declared.token.TokenKind.TheVariants as t;
ghost use Rattle.cs_print.specs.Printed.{whole, printed};
ghost use Rattle.razor_token.specs.CodeFronts as code;
ghost use Rattle.razor_token.specs.declared.piece.Quote.TheVariants as q;
ghost use Rattle.razor_print.specs.Parts.{parts_text, quoted, in_quotes, tokens, led, verbatim, token};
ghost use Rattle.razor_print.specs.Quotes as quotes;
ghost use Rattle.razor_print.specs.Attributes.{value_part, given_parts, value_parts};

use crate::parts::{push_ascii, push_led, push_said, push_shown};
use crate::quotes::{mark, mixed_quote, text_quote};
use cs_ast::Expr;
use cs_print::{push_name, push_whole};
use razor_ast::{AttributeKind, Given, ValuePart};
use razor_token::Quote;
use std::alloc::Global;
use text_core::{Oom, Txt};

/// `=` and a quote.
fn push_value_start(out: &mut Txt, quote: Quote) -> Result<(), Oom>
    ensures { OnOk result (out.new ≡ out.old ++ 61 ∷ code.mark quote ∷ []) }
{
    out.push('=')?;
    out.push(mark(quote))
}

fn push_value_end(out: &mut Txt, quote: Quote) -> Result<(), Oom>
    ensures { OnOk result (out.new ≡ out.old ++ code.mark quote ∷ []) }
{
    out.push(mark(quote))
}

/// An expression with an at sign.
#[tactic(auto, using(crate::proofs::WrittenLaws::quoted_written))]
fn push_led_value(alloc: Global, out: &mut Txt, a: &Expr) -> Result<(), Oom>
    ensures { OnOk result (out.new ≡ out.old ++ parts_text (quoted q.Double (led (whole (printed a.now))))) }
{
    push_value_start(out, Quote::Double)?;
    push_led(alloc, out, a)?;
    push_value_end(out, Quote::Double)
}

/// An expression without an at sign, in single quotes.
#[tactic(auto, using(crate::proofs::WrittenLaws::code_written))]
fn push_key(alloc: Global, out: &mut Txt, a: &Expr) -> Result<(), Oom>
    ensures { OnOk result (out.new ≡ out.old ++ parts_text (quoted q.Single (tokens (whole (printed a.now))))) }
{
    push_value_start(out, Quote::Single)?;
    push_whole(alloc, out, a)?;
    push_value_end(out, Quote::Single)
}

#[tactic(auto, using(crate::proofs::WrittenLaws::name_written))]
fn push_bound(out: &mut Txt, name: &Txt) -> Result<(), Oom>
    ensures { OnOk result (out.new ≡ out.old ++ parts_text (quoted q.Double (token (t.Name name.now) ∷ []))) }
{
    push_value_start(out, Quote::Double)?;
    push_name(out, name)?;
    push_value_end(out, Quote::Double)
}

/// A text as it is, in double quotes.
#[tactic(auto, using(crate::proofs::WrittenLaws::verbatim_written))]
fn push_plain(out: &mut Txt, text: &Txt) -> Result<(), Oom>
    ensures { OnOk result (out.new ≡ out.old ++ parts_text (quoted q.Double (verbatim text.now ∷ []))) }
{
    push_value_start(out, Quote::Double)?;
    out.push_text(text)?;
    push_value_end(out, Quote::Double)
}

#[tactic(auto, using(crate::proofs::WrittenLaws::verbatim_written))]
fn push_input_event(out: &mut Txt) -> Result<(), Oom>
    ensures { OnOk result (out.new ≡ out.old ++ parts_text (quoted q.Double (verbatim (codes "oninput") ∷ []))) }
{
    push_value_start(out, Quote::Double)?;
    push_ascii(out, "oninput")?;
    push_value_end(out, Quote::Double)
}

/// A text as it is, in these quotes.
fn push_in_quotes(out: &mut Txt, quote: Quote, text: &Txt) -> Result<(), Oom>
    ensures { OnOk result (out.new ≡ out.old ++ in_quotes quote text.now) }
{
    push_value_start(out, quote)?;
    out.push_text(text)?;
    push_value_end(out, quote)
}

/// The text of a parameter.
fn push_text(alloc: Global, out: &mut Txt, text: &Txt) -> Result<(), Oom>
    ensures { OnOk result (out.new ≡ out.old ++ in_quotes (quotes.text_quote text.now) text.now) }
{
    let quote = text_quote(alloc, text)?;
    push_in_quotes(out, quote, text)
}

/// What a tag gives to a parameter.
#[tactic(auto, using(crate::proofs::TextLaws::text_nothing, crate::proofs::WrittenLaws::supplied_written))]
fn push_given(alloc: Global, out: &mut Txt, given: &Given) -> Result<(), Oom>
    ensures { OnOk result (out.new ≡ out.old ++ parts_text (given_parts given.now)) }
{
    match given {
        Given::Nothing => Ok(()),
        Given::Text { text, .. } => push_text(alloc, out, text),
        Given::Value(a) => push_led_value(alloc, out, a),
    }
}

fn push_value_part(alloc: Global, out: &mut Txt, part: &ValuePart) -> Result<(), Oom>
    ensures { OnOk result (out.new ≡ out.old ++ parts_text (value_part part.now)) }
{
    match part {
        ValuePart::Literal(text) => push_said(out, text),
        ValuePart::Shown(a) => push_shown(alloc, out, a),
    }
}

fn push_value_parts(alloc: Global, out: &mut Txt, parts: &[ValuePart]) -> Result<(), Oom>
    ensures { OnOk result (out.new ≡ out.old ++ parts_text (flat_map value_part parts.now)) }
{
    for part in parts {
        push_value_part(alloc, out, part)?;
    }
    Ok(())
}

/// Literal text mixed with expressions.
#[tactic(auto, using(crate::proofs::WrittenLaws::quoted_written))]
fn push_mixed(alloc: Global, out: &mut Txt, parts: &[ValuePart]) -> Result<(), Oom>
    ensures { OnOk result (out.new ≡ out.old ++ parts_text (quoted (quotes.mixed_quote parts.now) (flat_map value_part parts.now))) }
{
    let quote = mixed_quote(parts);
    push_value_start(out, quote)?;
    push_value_parts(alloc, out, parts)?;
    push_value_end(out, quote)
}

/// The value of an attribute.
#[tactic(auto, unfolding(crate::specs::Attributes::value_parts))]
pub fn push_value(alloc: Global, out: &mut Txt, kind: &AttributeKind) -> Result<(), Oom>
    ensures { OnOk result (out.new ≡ out.old ++ parts_text (value_parts kind.now)) }
{
    match kind {
        AttributeKind::Mixed { value, .. } => push_mixed(alloc, out, value.as_slice()),
        AttributeKind::Key(a) => push_key(alloc, out, a),
        AttributeKind::Event { value, .. } => push_led_value(alloc, out, value),
        AttributeKind::Bind { field, .. } => push_bound(out, &field.name),
        AttributeKind::BindEvent => push_input_event(out),
        AttributeKind::Parameter { given, .. } => push_given(alloc, out, given),
        AttributeKind::Context { name, .. } => push_plain(out, &name.name),
    }
}
