// Writes whole components.
ghost use Rattle.std.specs.Prelude.{◌≡◌, ◌++◌, OnOk, IfOk, true, map};
ghost use Rattle.razor_print.specs.Parts.{parts_text};
ghost use Rattle.razor_print.specs.Nodes.{node as printed_node};
ghost use Rattle.razor_print.specs.Components as spec;
ghost use Rattle.razor_print.specs.declared.before.Before.TheVariants as b;

use crate::before::{Before, is_parted, is_text};
use crate::heads::push_parted;
use crate::nodes::{leaves, push_item};
use crate::parts::push_ascii;
use cs_ast::Member;
use cs_print::{push_members, push_sign};
use cs_token::Sign;
use razor_ast::{Component, TNode};
use std::alloc::Global;
use text_core::{Oom, Txt};

#[tactic(auto, using(crate::proofs::WrittenLaws::implements_written))]
fn push_directive(out: &mut Txt) -> Result<(), Oom>
    ensures { OnOk result (out.new ≡ out.old ++ parts_text (spec.implements true)) }
{
    push_ascii(out, "@implements IDisposable\n")
}

#[tactic(auto, using(crate::proofs::TextLaws::text_nothing))]
fn push_implements(out: &mut Txt, disposes: bool) -> Result<(), Oom>
    ensures { OnOk result (out.new ≡ out.old ++ parts_text (spec.implements disposes)) }
{
    if disposes {
        push_directive(out)
    } else {
        Ok(())
    }
}

/// `@code` with these members, behind such a node.
#[tactic(auto, using(crate::proofs::WrittenLaws::section_written))]
fn push_code_section(
    alloc: Global,
    out: &mut Txt,
    before: Before,
    members: &[Member],
) -> Result<(), Oom>
    ensures { OnOk result (out.new ≡ out.old ++ parts_text (spec.code_section before members.now)) }
{
    push_parted(out, is_parted(before, true, false))?;
    push_ascii(out, "@code")?;
    push_sign(out, Sign::OpenBrace)?;
    push_members(alloc, out, members)?;
    out.push('}')
}

/// It, where there are members.
#[tactic(auto, using(crate::proofs::WrittenLaws::no_members, crate::proofs::WrittenLaws::some_members))]
fn push_members_section(
    alloc: Global,
    out: &mut Txt,
    before: Before,
    members: &[Member],
) -> Result<(), Oom>
    ensures { OnOk result (out.new ≡ out.old ++ parts_text (spec.members_section before members.now)) }
{
    if members.is_empty() {
        return Ok(());
    }
    push_code_section(alloc, out, before, members)
}

/// Parts two texts of which one stands right behind the other.
#[tactic(auto, using(crate::proofs::TextLaws::text_nothing))]
fn push_parting(alloc: Global, out: &mut Txt, before: Before, next: Before) -> Result<(), Oom>
    ensures { OnOk result (out.new ≡ out.old ++ parts_text (spec.parting before next)) }
{
    if is_text(before) && is_text(next) {
        push_code_section(alloc, out, before, &[])
    } else {
        Ok(())
    }
}

/// Nodes of a file one behind another. The answer is what the last of them is to what stands behind it.
fn push_nodes(alloc: Global, out: &mut Txt, nodes: &[TNode]) -> Result<Before, Oom>
    ensures written { OnOk result (out.new ≡ out.old ++ parts_text (spec.file_from b.Other (map printed_node nodes.now))) }
    ensures left { IfOk result (λ before. before ≡ spec.behind_all b.Other (map printed_node nodes.now)) }
{
    let mut before = Before::Other;
    for node in nodes {
        let next = leaves(node);
        push_parting(alloc, out, before, next)?;
        push_item(alloc, out, before, node)?;
        before = next;
    }
    Ok(before)
}

/// Writes a component.
#[tactic(auto, using(crate::proofs::WrittenLaws::component_written))]
pub fn push_component(alloc: Global, out: &mut Txt, component: &Component) -> Result<(), Oom>
    ensures { OnOk result (out.new ≡ out.old ++ spec.component_text component.now) }
{
    push_implements(out, component.disposes)?;
    let before = push_nodes(alloc, out, component.nodes.as_slice())?;
    push_members_section(alloc, out, before, component.members.as_slice())
}
