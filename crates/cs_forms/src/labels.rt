// The labels of a `switch`.
ghost use Rattle.std.specs.Prelude.{◌≡◌};
ghost use Rattle.cs_rules.specs.Statements as spec;
ghost use Rattle.cs_forms.specs.Agrees.{Agrees};

use crate::CheckFault;
use crate::fault::mismatch;
use cs_ast::{CsType, Label, LabelKind, Value};
use cs_rules::ExprType;
use sqlite_items::Items;
use std::alloc::Global;
use text_core::Place;

/// Whether a `switch` decides by the type.
#[tactic(auto, unfolding(cs_rules::specs::Statements::decides))]
pub fn decides(given: &ExprType) -> bool
    ensures { result ≡ spec.decides given.now }
{
    match given {
        ExprType::Of(CsType::Int) | ExprType::Of(CsType::Bool) | ExprType::Of(CsType::Text) => {
            true
        }
        _ => false,
    }
}

/// The constant of a label, if it has one.
fn labelled(kind: &LabelKind, decided: &ExprType, place: Place) -> Result<Option<Value>, CheckFault>
    ensures { Agrees result (spec.labelled kind.now decided.now place) }
{
    match kind {
        LabelKind::Default => Ok(None),
        LabelKind::Int(number) => match decided {
            ExprType::Of(CsType::Int) => Ok(Some(Value::Int(*number))),
            _ => Err(mismatch(place)),
        },
        LabelKind::Bool(truth) => match decided {
            ExprType::Of(CsType::Bool) => Ok(Some(Value::Bool(*truth))),
            _ => Err(mismatch(place)),
        },
        LabelKind::Text(text) => match decided {
            ExprType::Of(CsType::Text) => Ok(Some(Value::Text(text.clone()?))),
            _ => Err(mismatch(place)),
        },
        LabelKind::Null => match decided {
            ExprType::Of(CsType::Text) => Ok(Some(Value::Null)),
            _ => Err(mismatch(place)),
        },
    }
}

/// The constants of labels, in order.
#[tactic(auto, using(crate::proofs::FrontLemmas::front_none, crate::proofs::FrontLemmas::front_constant, crate::proofs::FrontLemmas::front_same, crate::proofs::FrontLemmas::front_end))]
pub fn constants(
    alloc: Global,
    decided: &ExprType,
    labels: &[Label],
) -> Result<Items<Value>, CheckFault>
    ensures { Agrees result (spec.constants decided.now labels.now) }
{
    let mut values = Items::new(alloc);
    for label in labels {
        if let Some(value) = labelled(&label.kind, decided, label.place)? {
            values.push(value)?;
        }
    }
    Ok(values)
}

fn is_default(kind: &LabelKind) -> bool
    ensures { result ≡ spec.is_default kind.now }
{
    match kind {
        LabelKind::Default => true,
        _ => false,
    }
}

/// Whether `default` is among the labels.
pub fn has_default(labels: &[Label]) -> bool
    ensures { result ≡ spec.has_default labels.now }
{
    for label in labels {
        if is_default(&label.kind) {
            return true;
        }
    }
    false
}
