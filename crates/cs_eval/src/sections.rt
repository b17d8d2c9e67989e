// Which section of a `switch` a value selects.
ghost use Rattle.std.specs.Prelude.{◌≡◌, find, option_map};
ghost use Rattle.std.specs.List.{list_any};
ghost use Rattle.std.specs.Option.{option_copied};
ghost use Rattle.cs_meaning.specs.Equality.{is_same};
ghost use Rattle.cs_meaning.specs.Sections as spec;

use crate::operators::equal;
use cs_ast::{Code, Value};

/// Whether one of the constants is the value.
fn is_among(value: &Value, constants: &[Value]) -> bool
    ensures { result ≡ list_any (is_same value.now) constants.now }
{
    for constant in constants {
        if equal(value, constant) {
            return true;
        }
    }
    false
}

/// The statements of the first section with a constant that is the value.
#[tactic(auto, using(cs_meaning::proofs::PartLemmas::section_some, cs_meaning::proofs::PartLemmas::section_none))]
fn labelled<'a>(value: &Value, sections: &'a [Code]) -> Option<&'a [Code]>
    ensures { option_copied result ≡ option_map (λ it. it.statements) (find (λ it. list_any (is_same value.now) it.constants) (spec.sections_of sections.now)) }
{
    for section in sections {
        if let Code::Section(constants, _, statements) = section {
            if is_among(value, constants.as_slice()) {
                return Some(statements.as_slice());
            }
        }
    }
    None
}

/// The statements of the first section with `default`.
#[tactic(auto, using(cs_meaning::proofs::PartLemmas::section_some, cs_meaning::proofs::PartLemmas::section_none))]
fn default_section(sections: &[Code]) -> Option<&[Code]>
    ensures { option_copied result ≡ option_map (λ it. it.statements) (find (λ it. it.otherwise) (spec.sections_of sections.now)) }
{
    for section in sections {
        if let Code::Section(_, true, statements) = section {
            return Some(statements.as_slice());
        }
    }
    None
}

/// The statements of the section that the value selects.
pub(crate) fn selected<'a>(value: &Value, sections: &'a [Code]) -> Option<&'a [Code]>
    ensures { option_copied result ≡ spec.selected value.now (spec.sections_of sections.now) }
{
    match labelled(value, sections) {
        Some(statements) => Some(statements),
        None => default_section(sections),
    }
}
