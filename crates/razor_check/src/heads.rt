// What stands in brackets in templates, and content.
ghost use Rattle.std.specs.Prelude.{◌≡◌, ◌++◌, map, Some, IfOk, OnOk};
ghost use Rattle.std.specs.List.{flat_map};
ghost use Rattle.cs_rules.specs.Statements.{condition as condition_spec, constants as constants_spec};
ghost use Rattle.cs_check.specs.Views.{behind as behind_scope};
ghost use Rattle.cs_forms.specs.Agrees.{Agrees};
ghost use Rattle.cs_forbidden.specs.Trees as forbidden_spec;
ghost use Rattle.razor_rules.specs.Findings.{also, found as found_in};
ghost use Rattle.razor_rules.specs.Grounds as grounds;
ghost use Rattle.razor_rules.specs.Parts.{any_does};
ghost use Rattle.razor_rules.specs.TemplateDeeds.{changing as changing_spec};
ghost use Rattle.razor_rules.specs.Values.{content as content_spec};
ghost use Rattle.razor_rules.specs.Templates as spec;
ghost use Rattle.razor_rules.specs.Templates.{part_of};
ghost use Rattle.razor_parts.specs.Views.{home_of};
ghost use Rattle.razor_check.specs.Going as going;

use crate::ground::{declare, mark_of};
use crate::names::is_new;
use crate::noting::{note, note_code};
use crate::statements::{declared_by, push_locals, stated};
use crate::values::{content, value};
use cs_ast::{Code, CsType, Expr, Ident, Label, Named, Stmt};
use cs_forbidden::Mark;
use cs_forms::CheckFault;
use cs_forms::fault::mismatch;
use cs_forms::labels::{constants, decides};
use cs_forms::leaves::items_of;
use cs_forms::types::{copy_type, fitting};
use cs_rules::ExprType;
use razor_ast::TNode;
use razor_parts::deeds::{any, changing, node};
use razor_parts::home::Home;
use razor_rules::Ground;
use rule_findings::Findings;
use sqlite_items::Items;
use std::alloc::Global;
use text_core::Oom;

/// A condition.
#[tactic(auto, unfolding(cs_rules::specs::Statements::condition))]
fn condition(alloc: Global, g: &Ground, a: &Expr) -> Result<Code, CheckFault>
    ensures { Agrees result (condition_spec (forbidden_spec.uses g.now.forbidden a.now).value g.now.scope) }
{
    let x = value(alloc, g, a)?;
    fitting(&CsType::Bool, x)
}

/// A test.
pub fn test_rules(home: &Home<'_>, g: &Ground, a: &Expr, found: &mut Findings) -> Result<(), Oom>
    ensures { OnOk result (found.new.first ≡ also found.old.first (spec.test_rules a.now g.now)) }
{
    note_code(found, condition(home.alloc, g, a))
}

/// An expression as content.
pub fn content_rules(home: &Home<'_>, g: &Ground, a: &Expr, found: &mut Findings) -> Result<(), Oom>
    ensures { OnOk result (found.new.first ≡ also found.old.first (found_in (content_spec g.now a.now))) }
{
    note(found, content(home.alloc, g, a))
}

/// The step of a `for`.
#[tactic(auto, using(razor_rules::proofs::FirstLaws::also_nothing))]
fn step_rules(home: &Home<'_>, g: &Ground, a: &Expr, found: &mut Findings) -> Result<(), Oom>
    ensures { OnOk result (found.new.first ≡ also found.old.first (spec.step_rules a.now g.now)) }
{
    match value(home.alloc, g, a) {
        Ok(_) => Ok(()),
        Err(CheckFault::Broken { rule, place }) => {
            found.add(rule, place);
            Ok(())
        }
        Err(CheckFault::Oom) => Err(Oom),
    }
}

#[tactic(auto, using(razor_rules::proofs::FirstLaws::also_nothing, crate::proofs::AlsoLemmas::also_alone))]
fn optional_test(
    home: &Home<'_>,
    g: &Ground,
    test: &Option<Expr>,
    found: &mut Findings,
) -> Result<(), Oom>
    ensures { OnOk result (found.new.first ≡ also found.old.first (flat_map (λ a. spec.test_rules a g.now) (spec.option_list test.now))) }
{
    match test {
        Some(test) => test_rules(home, g, test, found),
        None => Ok(()),
    }
}

#[tactic(auto, using(razor_rules::proofs::FirstLaws::also_nothing, crate::proofs::AlsoLemmas::also_alone))]
fn optional_step(
    home: &Home<'_>,
    g: &Ground,
    step: &Option<Expr>,
    found: &mut Findings,
) -> Result<(), Oom>
    ensures { OnOk result (found.new.first ≡ also found.old.first (flat_map (λ a. spec.step_rules a g.now) (spec.option_list step.now))) }
{
    match step {
        Some(step) => step_rules(home, g, step, found),
        None => Ok(()),
    }
}

/// What a `for` has in its brackets behind its start.
#[tactic(auto, using(razor_rules::proofs::FirstLaws::also_append))]
pub fn head_rules(
    home: &Home<'_>,
    g: &Ground,
    test: &Option<Expr>,
    step: &Option<Expr>,
    found: &mut Findings,
) -> Result<(), Oom>
    ensures { OnOk result (found.new.first ≡ also found.old.first
        (flat_map (λ a. spec.test_rules a g.now) (spec.option_list test.now) ++ flat_map (λ a. spec.step_rules a g.now) (spec.option_list step.now))) }
{
    optional_test(home, g, test, found)?;
    optional_step(home, g, step, found)
}

fn push_start(g: &mut Ground, one: &Stmt, locals: Items<Named>) -> Result<(), Oom>
    ensures does { OnOk result (g.new ≡ spec.behind_start (spec.declared_by one.now) g.old (behind_scope g.old.scope locals)) }
    ensures kept { OnOk result (going.Kept g.old g.new) }
{
    match declared_by(one) {
        None => Ok(()),
        Some(_) => push_locals(g, locals, Mark::OfFor),
    }
}

#[tactic(auto, using(razor_rules::proofs::FirstLaws::also_nothing))]
fn start_statement(
    home: &Home<'_>,
    g: &mut Ground,
    start: &Stmt,
    found: &mut Findings,
) -> Result<bool, Oom>
    ensures goes { IfOk result (λ go. go ≡ going.is_fine (spec.started (Some start.now) g.old)) }
    ensures finds { OnOk result (found.new.first ≡ also found.old.first (found_in (spec.started (Some start.now) g.old))) }
    ensures does { OnOk result (g.new ≡ going.ground_or (spec.started (Some start.now) g.old) g.old) }
    ensures kept { OnOk result (going.Kept g.old g.new) }
{
    match stated(home.alloc, g, start) {
        Ok(it) => {
            push_start(g, start, it.locals)?;
            Ok(true)
        }
        Err(CheckFault::Broken { rule, place }) => {
            found.add(rule, place);
            Ok(false)
        }
        Err(CheckFault::Oom) => Err(Oom),
    }
}

/// The start of a `for`; whether what is behind it is to be looked at.
#[tactic(auto, using(razor_rules::proofs::FirstLaws::also_nothing))]
pub fn start_rules(
    home: &Home<'_>,
    g: &mut Ground,
    start: &Option<Stmt>,
    found: &mut Findings,
) -> Result<bool, Oom>
    ensures goes { IfOk result (λ go. go ≡ going.is_fine (spec.started start.now g.old)) }
    ensures finds { OnOk result (found.new.first ≡ also found.old.first (found_in (spec.started start.now g.old))) }
    ensures does { OnOk result (g.new ≡ going.ground_or (spec.started start.now g.old) g.old) }
    ensures kept { OnOk result (going.Kept g.old g.new) }
{
    match start {
        None => Ok(true),
        Some(start) => start_statement(home, g, start, found),
    }
}

/// The type of the items of the list of a `foreach`, whose local is new.
fn item_type(alloc: Global, g: &Ground, name: &Ident, list: &Expr) -> Result<CsType, CheckFault>
    ensures { Agrees result (going.item_type name.now list.now g.now) }
{
    is_new(&g.scope, name)?;
    let x = value(alloc, g, list)?;
    let item = items_of(x.get().place, &x.get().expr_type)?;
    Ok(copy_type(alloc, item)?)
}

/// The head of a `foreach` over this body; whether that is to be looked at.
#[tactic(auto, using(crate::proofs::GoingLemmas::item_law, razor_rules::proofs::FirstLaws::also_nothing))]
pub fn item_rules(
    home: &Home<'_>,
    g: &mut Ground,
    body: &TNode,
    name: &Ident,
    list: &Expr,
    found: &mut Findings,
) -> Result<bool, Oom>
    ensures goes { IfOk result (λ go. go ≡ going.is_fine (spec.item_ground name.now list.now (part_of (home_of home.now) body.now) g.old)) }
    ensures finds { OnOk result (found.new.first ≡ also found.old.first (found_in (spec.item_ground name.now list.now (part_of (home_of home.now) body.now) g.old))) }
    ensures does { OnOk result (g.new ≡ going.ground_or (spec.item_ground name.now list.now (part_of (home_of home.now) body.now) g.old) g.old) }
    ensures kept { OnOk result (going.Kept g.old g.new) }
{
    match item_type(home.alloc, g, name, list) {
        Ok(item) => {
            let deed = changing(home.alloc, &name.name)?;
            let assigned = node(home, &deed, body)?;
            declare(g, name, item, mark_of(assigned))?;
            Ok(true)
        }
        Err(CheckFault::Broken { rule, place }) => {
            found.add(rule, place);
            Ok(false)
        }
        Err(CheckFault::Oom) => Err(Oom),
    }
}

/// The argument of a fragment with these nodes; whether they are to be looked at.
#[tactic(auto, using(razor_rules::proofs::FirstLaws::also_nothing))]
pub fn argument_rules(
    home: &Home<'_>,
    g: &mut Ground,
    nodes: &[TNode],
    argument: Option<CsType>,
    name: &Ident,
    found: &mut Findings,
) -> Result<bool, Oom>
    ensures goes { IfOk result (λ go. go ≡ going.is_fine (grounds.with_new argument name.now (any_does (map (part_of (home_of home.now)) nodes.now) (changing_spec name.now.name)) g.old)) }
    ensures finds { OnOk result (found.new.first ≡ also found.old.first (found_in (grounds.with_new argument name.now (any_does (map (part_of (home_of home.now)) nodes.now) (changing_spec name.now.name)) g.old))) }
    ensures does { OnOk result (g.new ≡ going.ground_or (grounds.with_new argument name.now (any_does (map (part_of (home_of home.now)) nodes.now) (changing_spec name.now.name)) g.old) g.old) }
    ensures kept { OnOk result (going.Kept g.old g.new) }
{
    let Some(argument) = argument else {
        return Ok(true);
    };
    match is_new(&g.scope, name) {
        Ok(()) => {
            let deed = changing(home.alloc, &name.name)?;
            let assigned = any(home, &deed, nodes)?;
            declare(g, name, argument, mark_of(assigned))?;
            Ok(true)
        }
        Err(CheckFault::Broken { rule, place }) => {
            found.add(rule, place);
            Ok(false)
        }
        Err(CheckFault::Oom) => Err(Oom),
    }
}

/// The type by which a `switch` decides.
pub fn decided(alloc: Global, g: &Ground, a: &Expr) -> Result<ExprType, CheckFault>
    ensures { Agrees result (spec.decided a.now g.now) }
{
    let x = value(alloc, g, a)?;
    if decides(&x.get().expr_type) {
        Ok(x.into_inner().expr_type)
    } else {
        Err(mismatch(x.get().place))
    }
}

/// The labels of a section of a `switch`.
#[tactic(auto, using(razor_rules::proofs::FirstLaws::also_nothing))]
pub fn label_rules(
    home: &Home<'_>,
    labels: &[Label],
    given: &ExprType,
    found: &mut Findings,
) -> Result<(), Oom>
    ensures { OnOk result (found.new.first ≡ also found.old.first (found_in (constants_spec given.now labels.now))) }
{
    match constants(home.alloc, given, labels) {
        Ok(_) => Ok(()),
        Err(CheckFault::Broken { rule, place }) => {
            found.add(rule, place);
            Ok(())
        }
        Err(CheckFault::Oom) => Err(Oom),
    }
}
