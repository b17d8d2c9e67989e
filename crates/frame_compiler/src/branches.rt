// Nodes of which conditions and values choose.
ghost use Rattle.std.specs.Prelude.{◌≡◌, map, option_map, OnOk};
ghost use Rattle.cs_forms.specs.Agrees.{AgreesBy};
ghost use Rattle.frame_program.specs.Operations.{act_of, acts_of_section};
ghost use Rattle.page_meaning.specs.Parts.{part_of};
ghost use Rattle.frame_parts.specs.Nodes as spec;
ghost use Rattle.frame_parts.specs.Sections.{part_of_section};
ghost use Rattle.frame_parts.specs.Views.{IsWhole, home_in, numbered};

use crate::nodes::node;
use crate::sequences::enclosed;
use cs_ast::{Expr, Label, Scope};
use cs_forms::CheckFault;
use frame_parts::forms;
use frame_parts::making::Making;
use frame_parts::site::Site;
use frame_parts::values::code;
use frame_program::{Operation, OperationSection};
use razor_ast::{TNode, TSection};
use sqlite_items::{Boxed, Items};

#[cycle(nodes)]
fn or_nothing(
    site: &Site<'_>,
    one: &Option<Boxed<TNode>>,
    scope: &mut Scope,
    making: &mut Making,
) -> Result<Items<Operation>, CheckFault>
    requires whole { IsWhole site.now }
    ensures does { AgreesBy (λ all. (map act_of all, numbered making.new)) result (spec.or_nothing (home_in site.now) scope.old (option_map part_of one.now) (numbered making.old)) }
    ensures same { OnOk result (scope.new ≡ scope.old) }
{
    match one {
        Some(one) => node(site, one.get(), scope, making),
        None => Ok(Items::new(site.home.alloc)),
    }
}

#[cycle(nodes)]
pub fn branch(
    site: &Site<'_>,
    yes: &TNode,
    no: &Option<Boxed<TNode>>,
    test: &Expr,
    scope: &mut Scope,
    making: &mut Making,
) -> Result<Items<Operation>, CheckFault>
    requires whole { IsWhole site.now }
    ensures does { AgreesBy (λ all. (map act_of all, numbered making.new)) result
        (spec.branch (home_in site.now) scope.old test.now (part_of yes.now) (option_map part_of no.now) (numbered making.old)) }
    ensures same { OnOk result (scope.new ≡ scope.old) }
{
    let test = code(site.home.alloc, scope, test)?;
    let holds = node(site, yes, scope, making)?;
    let fails = or_nothing(site, no, scope, making)?;
    Ok(forms::branch(site.home.alloc, test, holds, fails)?)
}

/// Nodes as a section of a `switch` with these labels.
#[cycle(nodes)]
fn labelled(
    site: &Site<'_>,
    nodes: &[TNode],
    labels: &[Label],
    scope: &mut Scope,
    making: &mut Making,
) -> Result<OperationSection, CheckFault>
    requires whole { IsWhole site.now }
    ensures does { AgreesBy (λ it. (acts_of_section it, numbered making.new)) result (spec.section (home_in site.now) scope.old labels.now (map part_of nodes.now) (numbered making.old)) }
    ensures same { OnOk result (scope.new ≡ scope.old) }
{
    let operations = enclosed(site, nodes, scope, making)?;
    Ok(forms::section(site.home.alloc, labels, operations)?)
}

#[cycle(nodes)]
#[tactic(auto, using(frame_parts::proofs::SectionLaws::section_law))]
fn section(
    site: &Site<'_>,
    one: &TSection,
    scope: &mut Scope,
    making: &mut Making,
) -> Result<OperationSection, CheckFault>
    requires whole { IsWhole site.now }
    ensures does { AgreesBy (λ it. (acts_of_section it, numbered making.new)) result (spec.section_of_part (home_in site.now) scope.old (part_of_section one.now) (numbered making.old)) }
    ensures same { OnOk result (scope.new ≡ scope.old) }
{
    let labels = one.labels.as_slice();
    labelled(site, one.items.as_slice(), labels, scope, making)
}

#[cycle(nodes)]
#[tactic(auto, using(frame_parts::proofs::FrontLemmas::front_none, frame_parts::proofs::FrontLemmas::front_one, frame_parts::proofs::FrontLemmas::front_end))]
fn sections(
    site: &Site<'_>,
    sections: &[TSection],
    scope: &mut Scope,
    making: &mut Making,
) -> Result<Items<OperationSection>, CheckFault>
    requires whole { IsWhole site.now }
    ensures does { AgreesBy (λ all. (map acts_of_section all, numbered making.new)) result (spec.sections (home_in site.now) scope.old (map part_of_section sections.now) (numbered making.old)) }
    ensures same { OnOk result (scope.new ≡ scope.old) }
{
    let mut all = Items::new(site.home.alloc);
    for one in sections {
        all.push(section(site, one, scope, making)?)?;
    }
    Ok(all)
}

#[cycle(nodes)]
pub fn switch(
    site: &Site<'_>,
    all: &[TSection],
    a: &Expr,
    scope: &mut Scope,
    making: &mut Making,
) -> Result<Items<Operation>, CheckFault>
    requires whole { IsWhole site.now }
    ensures does { AgreesBy (λ all. (map act_of all, numbered making.new)) result
        (spec.switch (home_in site.now) scope.old a.now (map part_of_section all.now) (numbered making.old)) }
    ensures same { OnOk result (scope.new ≡ scope.old) }
{
    let value = code(site.home.alloc, scope, a)?;
    let all = sections(site, all, scope, making)?;
    Ok(forms::switch(site.home.alloc, value, all)?)
}
