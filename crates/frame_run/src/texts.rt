// The texts that values show as content and as attributes.
ghost use Rattle.std.specs.Prelude.{◌≡◌, ◌≤◌, map, IfOk};
ghost use Rattle.cs_ast.specs.Texts as show;
ghost use Rattle.cs_meaning.specs.State.{Fields};
ghost use Rattle.drawing_meaning.specs.Texts as spec;
ghost use Rattle.frame_program.specs.Operations.{said_by};
ghost use Rattle.frame_run.specs.Agrees.{Agrees, reached, stage_in};

use crate::charging::charged;
use crate::evaluating::value_of;
use crate::exit::Exit;
use crate::kinds::{into_text, is_null, truth};
use crate::progress::{Around, Progress};
use cs_ast::{Value, show};
use cs_eval::Owners;
use frame_program::TextPart;
use std::alloc::Global;
use text_core::{Oom, Txt};

/// The text that a value shows, if it shows one.
fn text_of(alloc: Global, value: &Value) -> Result<Option<Txt>, Oom>
    ensures { IfOk result (λ text. text ≡ show.text_of value.now) }
{
    match value {
        Value::Int(_) | Value::Bool(_) | Value::Text(_) | Value::Null => {
            Ok(Some(show(alloc, value)?))
        }
        _ => Ok(None),
    }
}

/// A new text of what a value shows.
pub(crate) fn shown(alloc: Global, value: &Value, progress: &mut Progress) -> Result<Txt, Exit>
    ensures means { (fields : Fields) → Agrees result (reached progress.new fields) (spec.shown value.now (reached progress.old fields)) }
    ensures spent { progress.new.left ≤ progress.old.left }
{
    let Some(text) = text_of(alloc, value)? else {
        return Err(Exit::Stuck);
    };
    let new = charged(Value::Text(text), progress)?;
    match into_text(new) {
        Some(text) => Ok(text),
        None => Err(Exit::Stuck),
    }
}

/// The text of an attribute that is one expression: none for `false` and null, empty for `true`.
pub(crate) fn attribute_text(
    alloc: Global,
    value: &Value,
    progress: &mut Progress,
) -> Result<Option<Txt>, Exit>
    ensures means { (fields : Fields) → Agrees result (reached progress.new fields) (spec.attribute_text value.now (reached progress.old fields)) }
    ensures spent { progress.new.left ≤ progress.old.left }
{
    match truth(value) {
        Some(true) => Ok(Some(Txt::new(alloc))),
        Some(false) => Ok(None),
        None => {
            if is_null(value) {
                return Ok(None);
            }
            Ok(Some(shown(alloc, value, progress)?))
        }
    }
}

/// What a part of the text of an attribute shows.
fn said<O: Owners>(
    around: &Around<'_>,
    part: &TextPart,
    progress: &mut Progress,
    owners: &O,
) -> Result<Txt, Exit>
    ensures means { Agrees result (reached progress.new (O.fields owners.now))
        (said_by part.now (stage_in around.now (O.parameters owners.now)) (reached progress.old (O.fields owners.now))) }
    ensures spent { progress.new.left ≤ progress.old.left }
{
    match part {
        TextPart::Literal(text) => Ok(text.clone()?),
        TextPart::Shown(code) => {
            let value = value_of(around, code, progress, owners)?;
            match text_of(around.alloc, &value)? {
                Some(text) => Ok(text),
                None => Err(Exit::Stuck),
            }
        }
    }
}

/// What parts show, one behind another.
#[tactic(auto, using(crate::proofs::SequenceLemmas::said_start, crate::proofs::SequenceLemmas::said_behind, crate::proofs::SequenceLemmas::said_end), unfolding(drawing_meaning::specs::Texts::all_said))]
pub(crate) fn all_said<O: Owners>(
    around: &Around<'_>,
    parts: &[TextPart],
    progress: &mut Progress,
    owners: &O,
) -> Result<Txt, Exit>
    ensures means { Agrees result (reached progress.new (O.fields owners.now))
        (spec.all_said (map said_by parts.now) (stage_in around.now (O.parameters owners.now)) (reached progress.old (O.fields owners.now))) }
    ensures spent { progress.new.left ≤ progress.old.left }
{
    let mut text = Txt::new(around.alloc);
    for part in parts {
        text.push_text(&said(around, part, progress, owners)?)?;
    }
    Ok(text)
}
