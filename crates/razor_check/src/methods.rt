// The rules of methods.
ghost use Rattle.std.specs.Prelude.{◌≡◌, ◌&&◌, [], not, map, OnOk, IfOk};
ghost use Rattle.std.specs.List.{flat_map};
ghost use Rattle.cs_rules.specs.declared.rule.Rule.TheVariants.{DuplicateName, MissingReturn};
ghost use Rattle.razor_rules.specs.Findings.{also, broken_unless, found as found_in};
ghost use Rattle.razor_rules.specs.Declarations as spec;
ghost use Rattle.razor_rules.specs.Names as names_spec;
ghost use Rattle.razor_rules.specs.Bodies.{reaches_end as reaches};
ghost use Rattle.razor_rules.specs.Scopes.{member_scope};
ghost use Rattle.razor_rules.specs.WrittenTypes as written_types;
ghost use Rattle.rule_findings.specs.Views.{ident_of};
ghost use Rattle.razor_parts.specs.Views.{home_of};
ghost use Rattle.razor_check.specs.Members as members_spec;

use crate::bodies::{checked_body, checked_result};
use crate::noting::{note_code, note_type};
use cs_ast::{Argument, Body, CsType, Expr, Ident, Scope, TypeExpr};
use cs_forbidden::Forbidden;
use cs_forms::written::{type_of, written};
use cs_rules::Rule;
use razor_parts::home::Home;
use razor_parts::leaves::reaches_end;
use razor_parts::locals::{cut, push_arguments};
use razor_parts::names::result_type;
use razor_parts::records::named;
use razor_parts::written_types::argument_type;
use rule_findings::{Findings, Name, repeated};
use sqlite_items::Items;
use std::alloc::Global;
use text_core::{Oom, Txt};

fn is_lifecycle(name: &Txt) -> bool
    ensures { result ≡ spec.is_lifecycle name.now }
{
    name.is("OnInitialized") || name.is("OnParametersSet") || name.is("Dispose")
}

/// What is forbidden in the body of a method of this name.
fn forbidden_in(home: &Home<'_>, name: &Txt) -> Result<Forbidden, Oom>
    ensures { IfOk result (λ forbidden. forbidden ≡ members_spec.forbidden_in home.now.invoking name.now) }
{
    if is_lifecycle(name) {
        let bodies = Items::from_slice(home.alloc, home.invoking.as_slice())?;
        Ok(Forbidden {
            outside: Items::new(home.alloc),
            changes: None,
            invokes: Some(Rule::CallbackInLifecycle),
            bodies,
        })
    } else {
        Ok(Forbidden::nothing(home.alloc))
    }
}

fn argument_names(alloc: Global, arguments: &[Argument]) -> Result<Vec<Name<'_>>, Oom>
    ensures { IfOk result (λ names. map ident_of names.items ≡ map (λ one. one.name) arguments.now) }
{
    let mut names = Vec::new(alloc);
    for one in arguments {
        names.push(named(&one.name))?;
    }
    Ok(names)
}

/// A name that stands twice among those of arguments or parts.
pub fn argument_rules(
    alloc: Global,
    arguments: &[Argument],
    found: &mut Findings,
) -> Result<(), Oom>
    ensures { OnOk result (found.new.first ≡ also found.old.first (names_spec.repeated DuplicateName [] (map (λ one. one.name) arguments.now))) }
{
    let names = argument_names(alloc, arguments)?;
    repeated(Rule::DuplicateName, names.as_slice(), found);
    Ok(())
}

/// The types of the arguments of a method.
#[tactic(auto, using(razor_rules::proofs::FirstLaws::also_append, razor_rules::proofs::FirstLaws::also_nothing))]
fn argument_types(home: &Home<'_>, arguments: &[Argument], found: &mut Findings) -> Result<(), Oom>
    ensures { OnOk result (found.new.first
        ≡ also found.old.first (flat_map (λ one. found_in (written_types.argument_type home.now.records.now one.cs_type)) arguments.now)) }
{
    for one in arguments {
        note_type(found, argument_type(home.alloc, home.records, &one.cs_type))?;
    }
    Ok(())
}

/// The type that a method gives.
#[tactic(auto, using(razor_rules::proofs::FirstLaws::also_nothing))]
fn result_rules(home: &Home<'_>, gives: &Option<TypeExpr>, found: &mut Findings) -> Result<(), Oom>
    ensures { OnOk result (found.new.first ≡ also found.old.first (spec.result_rules (home_of home.now) home.now.invoking members_spec.no_circles gives.now)) }
{
    match gives {
        Some(it) => note_type(found, written(home.alloc, home.records, it)),
        None => Ok(()),
    }
}

/// A lifecycle method has no arguments and no result.
fn lifecycle_rule(name: &Ident, plain: bool, found: &mut Findings)
    ensures { found.new.first ≡ also found.old.first (spec.lifecycle_rule name.now plain) }
{
    let fine = !is_lifecycle(&name.name) || plain;
    found.add_unless(fine, Rule::BadLifecycle, name.place);
}

/// A method with a result doesn't reach its end.
fn end_rule(gives: bool, name: &Ident, body: &Body, found: &mut Findings)
    ensures { found.new.first ≡ also found.old.first (broken_unless (not (gives && reaches body.now)) MissingReturn name.now.place) }
{
    let fine = !(gives && reaches_end(body));
    found.add_unless(fine, Rule::MissingReturn, name.place);
}

/// The body of a method.
#[tactic(auto, unfolding(razor_rules::specs::Declarations::body_rules))]
fn body_rules(
    home: &Home<'_>,
    scope: &mut Scope,
    name: &Txt,
    gives: &Option<TypeExpr>,
    arguments: &[Argument],
    body: &Body,
    found: &mut Findings,
) -> Result<(), Oom>
    requires { scope.old ≡ member_scope (home_of home.now) }
    ensures does { OnOk result (found.new.first
        ≡ also found.old.first (spec.body_rules (home_of home.now) home.now.invoking members_spec.no_circles name.now gives.now arguments.now body.now)) }
    ensures same { OnOk result (scope.new ≡ scope.old) }
{
    let depth = scope.names.len();
    scope.result = result_type(home.alloc, gives)?;
    push_arguments(home.alloc, scope, arguments)?;
    let forbidden = forbidden_in(home, name)?;
    let checked = checked_body(home.alloc, &forbidden, scope, body);
    scope.result = CsType::Nothing;
    cut(&mut scope.names, depth);
    note_code(found, checked)
}

/// The value of a method without brackets.
fn value_rules(
    home: &Home<'_>,
    scope: &mut Scope,
    name: &Txt,
    gives: &TypeExpr,
    value: &Expr,
    found: &mut Findings,
) -> Result<(), Oom>
    requires { scope.old ≡ member_scope (home_of home.now) }
    ensures does { OnOk result (found.new.first
        ≡ also found.old.first (members_spec.value_rules (home_of home.now) home.now.invoking name.now gives.now value.now)) }
    ensures same { OnOk result (scope.new ≡ scope.old) }
{
    let depth = scope.names.len();
    scope.result = type_of(home.alloc, gives)?;
    push_arguments(home.alloc, scope, &[])?;
    let forbidden = forbidden_in(home, name)?;
    let checked = checked_result(home.alloc, &forbidden, scope, value);
    scope.result = CsType::Nothing;
    cut(&mut scope.names, depth);
    note_code(found, checked)
}

/// A method: its result, its name, its arguments and its body.
#[derive(Clone, Copy)]
pub struct Method<'a> {
    pub gives: &'a Option<TypeExpr>,
    pub name: &'a Ident,
    pub arguments: &'a [Argument],
    pub body: &'a Body,
}

/// The rules of a method besides those of its body.
#[tactic(auto, using(razor_rules::proofs::FirstLaws::also_append, razor_rules::proofs::FirstLaws::also_nothing))]
fn head_rules(home: &Home<'_>, it: &Method<'_>, found: &mut Findings) -> Result<(), Oom>
    ensures { OnOk result (found.new.first
        ≡ also found.old.first (members_spec.head_rules (home_of home.now) home.now.invoking it.now.gives.now it.now.name.now it.now.arguments.now it.now.body.now)) }
{
    result_rules(home, it.gives, found)?;
    let plain = it.gives.is_none() && it.arguments.is_empty();
    lifecycle_rule(it.name, plain, found);
    end_rule(it.gives.is_some(), it.name, it.body, found);
    argument_types(home, it.arguments, found)?;
    argument_rules(home.alloc, it.arguments, found)
}

#[tactic(auto, using(razor_rules::proofs::FirstLaws::also_append, crate::proofs::MemberLaws::method_parts))]
pub fn method_rules(
    home: &Home<'_>,
    scope: &mut Scope,
    it: &Method<'_>,
    found: &mut Findings,
) -> Result<(), Oom>
    requires { scope.old ≡ member_scope (home_of home.now) }
    ensures does { OnOk result (found.new.first
        ≡ also found.old.first (spec.method_rules (home_of home.now) home.now.invoking members_spec.no_circles it.now.gives.now it.now.name.now it.now.arguments.now it.now.body.now)) }
    ensures same { OnOk result (scope.new ≡ scope.old) }
{
    head_rules(home, it, found)?;
    body_rules(
        home,
        scope,
        &it.name.name,
        it.gives,
        it.arguments,
        it.body,
        found,
    )
}

#[tactic(auto, using(razor_rules::proofs::FirstLaws::also_append, razor_rules::proofs::FirstLaws::also_nothing))]
pub fn getter_rules(
    home: &Home<'_>,
    scope: &mut Scope,
    gives: &TypeExpr,
    name: &Ident,
    value: &Expr,
    found: &mut Findings,
) -> Result<(), Oom>
    requires { scope.old ≡ member_scope (home_of home.now) }
    ensures does { OnOk result (found.new.first
        ≡ also found.old.first (members_spec.getter_rules (home_of home.now) home.now.invoking gives.now name.now value.now)) }
    ensures same { OnOk result (scope.new ≡ scope.old) }
{
    note_type(found, written(home.alloc, home.records, gives))?;
    lifecycle_rule(name, false, found);
    value_rules(home, scope, &name.name, gives, value, found)
}
