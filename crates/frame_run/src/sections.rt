// Which section of a `switch` a value selects.
ghost use Rattle.std.specs.Prelude.{◌≡◌, find, map, option_map};
ghost use Rattle.std.specs.List.{list_any};
ghost use Rattle.std.specs.Option.{option_copied};
ghost use Rattle.cs_meaning.specs.Equality.{is_same};
ghost use Rattle.cs_meaning.specs.Sections as spec;
ghost use Rattle.drawing_meaning.specs.Nodes.{or_nothing};
ghost use Rattle.frame_program.specs.Operations.{act_of, acts_of_section};
ghost use Rattle.frame_run.specs.Sections.{labels};

use crate::kinds::equal;
use cs_ast::Value;
use frame_program::{Operation, OperationSection};

/// Whether one of the constants is the value.
fn is_among(value: &Value, constants: &[Value]) -> bool
    ensures { result ≡ list_any (is_same value.now) constants.now }
{
    for constant in constants {
        if equal(value, constant) {
            return true;
        }
    }
    false
}

/// What the first section with a constant that is the value does.
fn labelled<'a>(value: &Value, sections: &'a [OperationSection]) -> Option<&'a [Operation]>
    ensures { option_copied result ≡ option_map (λ it. it.statements) (find (λ it. list_any (is_same value.now) it.constants) (map labels sections.now)) }
{
    for section in sections {
        if is_among(value, section.constants.as_slice()) {
            return Some(section.operations.as_slice());
        }
    }
    None
}

/// What the first section with `default` does.
fn default_section(sections: &[OperationSection]) -> Option<&[Operation]>
    ensures { option_copied result ≡ option_map (λ it. it.statements) (find (λ it. it.otherwise) (map labels sections.now)) }
{
    for section in sections {
        if section.otherwise {
            return Some(section.operations.as_slice());
        }
    }
    None
}

/// What the section that the value selects does, if there is one.
fn selected<'a>(value: &Value, sections: &'a [OperationSection]) -> Option<&'a [Operation]>
    ensures { option_copied result ≡ spec.selected value.now (map labels sections.now) }
{
    match labelled(value, sections) {
        Some(operations) => Some(operations),
        None => default_section(sections),
    }
}

/// What the section that the value selects does; nothing where there is none.
#[tactic(auto, using(crate::proofs::SectionLemmas::selected_acts))]
pub(crate) fn operations_for<'a>(value: &Value, sections: &'a [OperationSection]) -> &'a [Operation]
    ensures { map act_of result.now ≡ or_nothing (spec.selected value.now (map acts_of_section sections.now)) }
{
    match selected(value, sections) {
        Some(operations) => operations,
        None => &[],
    }
}
