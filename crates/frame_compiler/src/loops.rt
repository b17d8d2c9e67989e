// Nodes that are repeated.
ghost use Rattle.std.specs.Prelude.{◌≡◌, map, OnOk};
ghost use Rattle.cs_forms.specs.Agrees.{AgreesBy};
ghost use Rattle.frame_program.specs.Operations.{act_of};
ghost use Rattle.page_meaning.specs.Parts.{part_of};
ghost use Rattle.frame_parts.specs.Nodes as spec;
ghost use Rattle.frame_parts.specs.Steps.{step};
ghost use Rattle.frame_parts.specs.Views.{IsWhole, home_in, numbered};

use crate::nodes::node;
use cs_ast::{Expr, Scope, Stmt};
use cs_forms::CheckFault;
use cs_forms::joining::Listed;
use frame_parts::forms;
use frame_parts::keys::turn_key;
use frame_parts::making::Making;
use frame_parts::site::Site;
use frame_parts::values::{code, headed, listed};
use frame_program::Operation;
use razor_ast::TNode;
use razor_parts::locals::{cut, push_local};
use sqlite_items::Items;
use text_core::Txt;

#[cycle(nodes)]
pub fn while_loop(
    site: &Site<'_>,
    body: &TNode,
    number: u32,
    test: &Expr,
    scope: &mut Scope,
    making: &mut Making,
) -> Result<Items<Operation>, CheckFault>
    requires whole { IsWhole site.now }
    ensures does { AgreesBy (λ all. (map act_of all, numbered making.new)) result
        (spec.while_loop (home_in site.now) scope.old number test.now (part_of body.now) (numbered making.old)) }
    ensures same { OnOk result (scope.new ≡ scope.old) }
{
    let test = code(site.home.alloc, scope, test)?;
    let turn = node(site, body, scope, making)?;
    let keyed = turn_key(body);
    Ok(forms::while_loop(site.home.alloc, number, test, keyed, turn)?)
}

#[cycle(nodes)]
pub fn for_loop(
    site: &Site<'_>,
    body: &TNode,
    number: u32,
    start: &Option<Stmt>,
    test: &Option<Expr>,
    step: &Option<Expr>,
    scope: &mut Scope,
    making: &mut Making,
) -> Result<Items<Operation>, CheckFault>
    requires whole { IsWhole site.now }
    ensures does { AgreesBy (λ all. (map act_of all, numbered making.new)) result
        (spec.for_loop (home_in site.now) scope.old number start.now test.now step.now (part_of body.now) (numbered making.old)) }
    ensures same { OnOk result (scope.new ≡ scope.old) }
{
    let alloc = site.home.alloc;
    let depth = scope.names.len();
    let head = headed(alloc, scope, start, test, step)?;
    let turn = node(site, body, scope, making)?;
    cut(&mut scope.names, depth);
    Ok(forms::for_loop(alloc, number, head, turn_key(body), turn)?)
}

#[cycle(nodes)]
pub fn for_each(
    site: &Site<'_>,
    body: &TNode,
    number: u32,
    name: &Txt,
    list: &Expr,
    scope: &mut Scope,
    making: &mut Making,
) -> Result<Items<Operation>, CheckFault>
    requires whole { IsWhole site.now }
    ensures does { AgreesBy (λ all. (map act_of all, numbered making.new)) result
        (spec.for_each (home_in site.now) scope.old number name.now list.now (part_of body.now) (numbered making.old)) }
    ensures same { OnOk result (scope.new ≡ scope.old) }
{
    let alloc = site.home.alloc;
    let Listed { item, code } = listed(alloc, scope, list)?;
    let depth = scope.names.len();
    push_local(scope, name, item)?;
    let turn = node(site, body, scope, making)?;
    cut(&mut scope.names, depth);
    let keyed = turn_key(body);
    Ok(forms::for_each(alloc, number, code, keyed, turn)?)
}
