// The texts that values show.
ghost use Rattle.std.specs.Prelude.{◌≡◌, IfOk};
ghost use Rattle.cs_ast.specs.Texts.{text_of};
ghost use Rattle.cs_meaning.specs.NewValues.{appended, texts_of};

use cs_ast::{Value, show};
use std::alloc::Global;
use text_core::{Oom, Txt};

/// The text that a value shows, if it shows one.
pub(crate) fn shown(alloc: Global, value: &Value) -> Result<Option<Txt>, Oom>
    ensures { IfOk result (λ text. text ≡ text_of value.now) }
{
    match value {
        Value::Int(_) | Value::Bool(_) | Value::Text(_) | Value::Null => {
            Ok(Some(show(alloc, value)?))
        }
        _ => Ok(None),
    }
}

/// What the two show, one behind the other.
pub(crate) fn joined(alloc: Global, x: &Value, y: &Value) -> Result<Option<Txt>, Oom>
    ensures { IfOk result (λ text. text ≡ appended (text_of x.now) (text_of y.now)) }
{
    let Some(mut text) = shown(alloc, x)? else {
        return Ok(None);
    };
    let Some(more) = shown(alloc, y)? else {
        return Ok(None);
    };
    text.push_text(&more)?;
    Ok(Some(text))
}

/// What all show, one behind the other.
#[tactic(auto, using(crate::proofs::TextLemmas::appended_more, crate::proofs::TextLemmas::appended_none), unfolding(cs_meaning::specs::NewValues::texts_of))]
pub(crate) fn all_joined(alloc: Global, values: &[Value]) -> Result<Option<Txt>, Oom>
    ensures { IfOk result (λ text. text ≡ texts_of values.now) }
{
    let mut text = Txt::new(alloc);
    for value in values {
        let Some(more) = shown(alloc, value)? else {
            return Ok(None);
        };
        text.push_text(&more)?;
    }
    Ok(Some(text))
}
