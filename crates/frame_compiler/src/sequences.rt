// Nodes one after another, in the scopes that they stand in.
ghost use Rattle.std.specs.Prelude.{◌≡◌, map, OnOk, take, length};
ghost use Rattle.cs_forms.specs.Agrees.{AgreesBy};
ghost use Rattle.frame_program.specs.Operations.{act_of};
ghost use Rattle.page_meaning.specs.Parts.{part_of};
ghost use Rattle.frame_parts.specs.Nodes as spec;
ghost use Rattle.frame_parts.specs.Order as order;
ghost use Rattle.frame_parts.specs.Views.{IsWhole, home_in, numbered};

use crate::nodes::node;
use cs_ast::Scope;
use cs_forms::CheckFault;
use frame_parts::forms;
use frame_parts::making::Making;
use frame_parts::site::Site;
use frame_parts::values::go_behind;
use frame_program::Operation;
use razor_ast::TNode;
use razor_parts::locals::cut;
use sqlite_items::Items;

/// Goes behind a node: what it declares is in scope from then on.
#[tactic(auto, using(cs_check::proofs::ScopeLemmas::kept_self, frame_parts::proofs::PartLaws::element_behind, frame_parts::proofs::PartLaws::child_behind, frame_parts::proofs::PartLaws::text_behind, frame_parts::proofs::PartLaws::raw_behind, frame_parts::proofs::PartLaws::content_behind, frame_parts::proofs::PartLaws::group_behind, frame_parts::proofs::PartLaws::statement_behind, frame_parts::proofs::PartLaws::block_behind, frame_parts::proofs::PartLaws::if_behind, frame_parts::proofs::PartLaws::switch_behind, frame_parts::proofs::PartLaws::for_behind, frame_parts::proofs::PartLaws::for_each_behind, frame_parts::proofs::PartLaws::while_behind))]
fn behind(site: &Site<'_>, one: &TNode, scope: &mut Scope) -> Result<(), CheckFault>
    ensures does { AgreesBy (λ gone. scope.new) result ((part_of one.now).behind scope.old) }
    ensures kept { OnOk result (take (length scope.old.names) scope.new.names ≡ scope.old.names) }
    ensures rest { OnOk result (scope.new ≡ record scope.old { names = scope.new.names }) }
{
    match one {
        TNode::Statement(one) => go_behind(site.home.alloc, scope, one),
        TNode::Element { .. } => Ok(()),
        TNode::Child { .. } => Ok(()),
        TNode::Text { .. } => Ok(()),
        TNode::Raw { .. } => Ok(()),
        TNode::Content { .. } => Ok(()),
        TNode::Group { .. } => Ok(()),
        TNode::Block { .. } => Ok(()),
        TNode::If { .. } => Ok(()),
        TNode::Switch { .. } => Ok(()),
        TNode::For { .. } => Ok(()),
        TNode::ForEach { .. } => Ok(()),
        TNode::While { .. } => Ok(()),
    }
}

/// Nodes one after another, which leave what they declare in scope.
#[cycle(nodes)]
#[tactic(auto, using(cs_check::proofs::ScopeLemmas::kept_self, cs_check::proofs::ScopeLemmas::kept_on, frame_parts::proofs::FrontLemmas::front_none, frame_parts::proofs::FrontLemmas::front_more, frame_parts::proofs::FrontLemmas::front_end))]
pub fn in_order(
    site: &Site<'_>,
    nodes: &[TNode],
    scope: &mut Scope,
    making: &mut Making,
) -> Result<Items<Operation>, CheckFault>
    requires whole { IsWhole site.now }
    ensures does { AgreesBy (λ all. (map act_of all, numbered making.new)) result (order.in_order (home_in site.now) (map part_of nodes.now) scope.old (numbered making.old)) }
    ensures kept { OnOk result (take (length scope.old.names) scope.new.names ≡ scope.old.names) }
    ensures rest { OnOk result (scope.new ≡ record scope.old { names = scope.new.names }) }
{
    let mut all = Items::new(site.home.alloc);
    for one in nodes {
        all.append(node(site, one, scope, making)?)?;
        behind(site, one, scope)?;
    }
    Ok(all)
}

/// The same in a scope of their own.
#[cycle(nodes)]
pub fn enclosed(
    site: &Site<'_>,
    nodes: &[TNode],
    scope: &mut Scope,
    making: &mut Making,
) -> Result<Items<Operation>, CheckFault>
    requires whole { IsWhole site.now }
    ensures does { AgreesBy (λ all. (map act_of all, numbered making.new)) result (order.in_order (home_in site.now) (map part_of nodes.now) scope.old (numbered making.old)) }
    ensures same { OnOk result (scope.new ≡ scope.old) }
{
    let depth = scope.names.len();
    let all = in_order(site, nodes, scope, making)?;
    cut(&mut scope.names, depth);
    Ok(all)
}

#[cycle(nodes)]
pub fn block(
    site: &Site<'_>,
    nodes: &[TNode],
    scope: &mut Scope,
    making: &mut Making,
) -> Result<Items<Operation>, CheckFault>
    requires whole { IsWhole site.now }
    ensures does { AgreesBy (λ all. (map act_of all, numbered making.new)) result (spec.block (home_in site.now) scope.old (map part_of nodes.now) (numbered making.old)) }
    ensures same { OnOk result (scope.new ≡ scope.old) }
{
    let inside = enclosed(site, nodes, scope, making)?;
    Ok(forms::block(site.home.alloc, inside)?)
}
