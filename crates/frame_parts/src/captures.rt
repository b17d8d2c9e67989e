// The locals that lambdas and fragments use from outside them.
ghost use Rattle.std.specs.Prelude.{◌≡◌, ◌||◌, ◌++◌, ◌∷◌, [], filter, IfOk, OnOk};
ghost use Rattle.cs_effects.specs.Deeds.{of_body};
ghost use Rattle.page_meaning.specs.Captures as spec;
ghost use Rattle.razor_rules.specs.TemplateDeeds as deeds_spec;
ghost use Rattle.razor_rules.specs.Scopes.{member_scope};
ghost use Rattle.frame_parts.specs.Uses as uses;
ghost use Rattle.frame_parts.specs.Views.{IsWhole, home_in};

use crate::names::{copied, is_local};
use crate::scopes::member_scope as scope_of_members;
use crate::site::Site;
use cs_ast::{Body, Expr, Ident, Named, Scope};
use cs_effects::{Deed, body_does, expression_does};
use cs_forms::types::copy_type;
use razor_ast::TNode;
use razor_parts::deeds::{any, changing};
use razor_parts::forms::{Form, form_of};
use razor_parts::locals::push_local;
use sqlite_items::Items;
use std::alloc::Global;
use text_core::{Oom, Txt};

/// What may use locals: an expression, or the content of a fragment.
#[derive(Clone, Copy)]
pub enum User<'a> {
    Expression(&'a Expr),
    Content(&'a [TNode]),
}

fn names_in(alloc: Global, argument: &Option<Ident>) -> Result<Items<Txt>, Oom>
    ensures { IfOk result (λ names. names ≡ deeds_spec.names_in argument.now) }
{
    let mut names = Items::new(alloc);
    if let Some(argument) = argument {
        names.push(argument.name.clone()?)?;
    }
    Ok(names)
}

fn lambda_does(
    alloc: Global,
    deed: &Deed,
    argument: &Option<Ident>,
    body: &Body,
) -> Result<bool, Oom>
    ensures { IfOk result (λ yes. yes ≡ of_body deed.now body.now (deeds_spec.names_in argument.now)) }
{
    let locals = names_in(alloc, argument)?;
    body_does(alloc, deed, locals.as_slice(), body)
}

/// Whether an expression does it, or a lambda when it is run.
#[tactic(auto, using(razor_parts::proofs::DeedLaws::lambda_does, razor_parts::proofs::DeedLaws::name_does, razor_parts::proofs::DeedLaws::other_does))]
fn does_it(alloc: Global, deed: &Deed, a: &Expr) -> Result<bool, Oom>
    ensures { IfOk result (λ yes. yes ≡ deeds_spec.expression_does deed.now a.now) }
{
    match form_of(&a.kind) {
        Form::Lambda(argument, body) => lambda_does(alloc, deed, argument, body),
        Form::Name(_) => Ok(expression_does(deed, &[], a)),
        Form::Other => Ok(expression_does(deed, &[], a)),
    }
}

#[tactic(auto, using(crate::proofs::SameParts::content_deeds))]
fn does(site: &Site<'_>, user: User<'_>, deed: &Deed) -> Result<bool, Oom>
    ensures { IfOk result (λ yes. yes ≡ uses.does user.entry deed.now) }
{
    match user {
        User::Expression(a) => does_it(site.home.alloc, deed, a),
        User::Content(nodes) => any(&site.home, deed, nodes),
    }
}

/// Whether the local of a name is read or changed.
fn is_used(site: &Site<'_>, user: User<'_>, name: &Txt) -> Result<bool, Oom>
    ensures { IfOk result (λ yes. yes ≡ (uses.does user.entry (deeds_spec.reading name.now) || uses.does user.entry (deeds_spec.changing name.now))) }
{
    let read = does(site, user, &Deed::Runs(name.clone()?))?;
    let changed = does(site, user, &changing(site.home.alloc, name)?)?;
    Ok(read || changed)
}

/// Puts a name behind others, if it is that of a local which is used.
fn push_used(
    site: &Site<'_>,
    user: User<'_>,
    one: &Named,
    all: &mut Items<Named>,
) -> Result<(), Oom>
    ensures { OnOk result (all.new ≡ all.old ++ filter (uses.is_used user.entry) (one.now ∷ [])) }
{
    if !is_local(&one.kind) {
        return Ok(());
    }
    if is_used(site, user, &one.name)? {
        all.push(copied(site.home.alloc, one)?)?;
    }
    Ok(())
}

/// The locals in a scope that are used.
#[tactic(auto, using(razor_parts::proofs::ListLemmas::filter_more))]
pub fn used(site: &Site<'_>, user: User<'_>, scope: &Scope) -> Result<Items<Named>, Oom>
    ensures { IfOk result (λ all. all ≡ spec.used (uses.does user.entry) scope.now) }
{
    let mut all = Items::new(site.home.alloc);
    for one in scope.names.as_slice() {
        push_used(site, user, one, &mut all)?;
    }
    Ok(all)
}

/// The positions of locals among all.
pub fn positions_of(alloc: Global, locals: &[Named]) -> Result<Items<u32>, Oom>
    ensures { IfOk result (λ positions. positions ≡ spec.positions_of locals.now) }
{
    let mut positions = Items::new(alloc);
    for one in locals {
        positions.push(one.place)?;
    }
    Ok(positions)
}

/// The scope of the members, with these as its locals.
pub fn inner_scope(site: &Site<'_>, captured: &[Named]) -> Result<Scope, Oom>
    requires whole { IsWhole site.now }
    ensures { IfOk result (λ scope. scope ≡ spec.with_captured captured.now (member_scope (home_in site.now))) }
{
    let mut scope = scope_of_members(site)?;
    for one in captured {
        let cs_type = copy_type(site.home.alloc, &one.cs_type)?;
        push_local(&mut scope, &one.name, cs_type)?;
    }
    Ok(scope)
}
