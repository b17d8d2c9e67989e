// Writes attributes.
ghost use Rattle.std.specs.Prelude.{◌≡◌, ◌++◌, OnOk};
ghost use Rattle.razor_print.specs.Parts.{parts_text};
ghost use Rattle.razor_print.specs.Attributes.{attribute_parts, attributes_parts};

use crate::values::push_value;
use razor_ast::Attribute;
use std::alloc::Global;
use text_core::{Oom, Txt};

#[tactic(auto, using(crate::proofs::WrittenLaws::attribute_written))]
fn push_attribute(alloc: Global, out: &mut Txt, attribute: &Attribute) -> Result<(), Oom>
    ensures { OnOk result (out.new ≡ out.old ++ parts_text (attribute_parts attribute.now)) }
{
    out.push(' ')?;
    out.push_text(&attribute.name)?;
    push_value(alloc, out, &attribute.kind)
}

/// Attributes, each behind a blank.
pub fn push_attributes(alloc: Global, out: &mut Txt, attributes: &[Attribute]) -> Result<(), Oom>
    ensures { OnOk result (out.new ≡ out.old ++ parts_text (attributes_parts attributes.now)) }
{
    for attribute in attributes {
        push_attribute(alloc, out, attribute)?;
    }
    Ok(())
}
