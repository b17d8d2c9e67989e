// The rules of members.
ghost use Rattle.std.specs.Prelude.{◌≡◌, [], map, OnOk};
ghost use Rattle.std.specs.List.{flat_map};
ghost use Rattle.cs_ast.specs.declared.cs_type.CsType.{CsType as TypeOf};
ghost use Rattle.cs_rules.specs.declared.rule.Rule.TheVariants.{DuplicateName};
ghost use Rattle.cs_rules.specs.Judged.{Judged};
ghost use Rattle.cs_rules.specs.Written.{written as written_spec};
ghost use Rattle.cs_forms.specs.Agrees.{Agrees};
ghost use Rattle.razor_rules.specs.Findings.{also, found as found_in, found_then};
ghost use Rattle.razor_rules.specs.Declarations as spec;
ghost use Rattle.razor_rules.specs.Scopes.{member_scope};
ghost use Rattle.rule_findings.specs.Views.{text_of};
ghost use Rattle.razor_parts.specs.Views.{home_of};
ghost use Rattle.razor_check.specs.Members as members_spec;
ghost use Rattle.razor_check.specs.Results as results;

use crate::bodies::checked_value;
use crate::methods::{Method, argument_rules, getter_rules, method_rules};
use crate::noting::{note_code, note_type};
use cs_ast::{Argument, Code, CsType, Expr, Ident, MemberKind, Scope};
use cs_forbidden::Forbidden;
use cs_forms::CheckFault;
use cs_forms::types::fitting;
use cs_forms::written::written;
use cs_rules::Rule;
use razor_parts::circles::is_among_texts;
use razor_parts::home::Home;
use razor_parts::records::{member_idents, push_record_names};
use razor_parts::written_types::parameter_type;
use rule_findings::{Findings, Name, repeated, repeated_behind};
use sqlite_items::Items;
use std::alloc::Global;
use std::mem;
use text_core::{Oom, Txt};

fn initial_value(
    alloc: Global,
    scope: &Scope,
    a: &Expr,
    cs_type: &CsType,
) -> Result<Code, CheckFault>
    ensures { Agrees result (results.initial_value scope.now cs_type.now a.now) }
{
    let forbidden = Forbidden::nothing(alloc);
    let x = checked_value(alloc, &forbidden, scope, a)?;
    fitting(cs_type, x)
}

/// An initial value, in a scope without names.
fn without_names(
    alloc: Global,
    scope: &mut Scope,
    a: &Expr,
    cs_type: &CsType,
) -> Result<Code, CheckFault>
    ensures does { Agrees result (results.initial_value (record scope.old { names = [] }) cs_type.now a.now) }
    ensures same { scope.new ≡ scope.old }
{
    let names = mem::replace(&mut scope.names, Items::new(alloc));
    let result = initial_value(alloc, scope, a, cs_type);
    scope.names = names;
    result
}

/// The initial value of a field or a parameter of a type.
#[tactic(auto, using(razor_rules::proofs::FirstLaws::also_nothing))]
fn initial_rules(
    home: &Home<'_>,
    scope: &mut Scope,
    a: &Option<Expr>,
    cs_type: &CsType,
    found: &mut Findings,
) -> Result<(), Oom>
    requires { scope.old ≡ member_scope (home_of home.now) }
    ensures does { OnOk result (found.new.first ≡ also found.old.first (spec.initial_rules (home_of home.now) home.now.invoking members_spec.no_circles a.now cs_type.now)) }
    ensures same { OnOk result (scope.new ≡ scope.old) }
{
    match a {
        Some(a) => note_code(found, without_names(home.alloc, scope, a, cs_type)),
        None => Ok(()),
    }
}

/// A field or a parameter, by what its type comes to.
#[tactic(auto, using(razor_rules::proofs::FirstLaws::also_nothing))]
fn typed_rules(
    home: &Home<'_>,
    scope: &mut Scope,
    a: &Option<Expr>,
    known: Result<CsType, CheckFault>,
    found: &mut Findings,
) -> Result<(), Oom>
    requires { scope.old ≡ member_scope (home_of home.now) }
    ensures does { (judged : Judged TypeOf) → Agrees known judged → OnOk result (found.new.first
        ≡ also found.old.first (found_then judged (spec.initial_rules (home_of home.now) home.now.invoking members_spec.no_circles a.now))) }
    ensures same { OnOk result (scope.new ≡ scope.old) }
{
    match known {
        Ok(cs_type) => initial_rules(home, scope, a, &cs_type, found),
        Err(CheckFault::Broken { rule, place }) => {
            found.add(rule, place);
            Ok(())
        }
        Err(CheckFault::Oom) => Err(Oom),
    }
}

/// The types of the parts of a record.
#[tactic(auto, using(razor_rules::proofs::FirstLaws::also_append, razor_rules::proofs::FirstLaws::also_nothing))]
fn part_types(home: &Home<'_>, parts: &[Argument], found: &mut Findings) -> Result<(), Oom>
    ensures { OnOk result (found.new.first
        ≡ also found.old.first (flat_map (λ one. found_in (written_spec home.now.records.now one.cs_type)) parts.now)) }
{
    for one in parts {
        note_type(found, written(home.alloc, home.records, &one.cs_type))?;
    }
    Ok(())
}

#[tactic(auto, unfolding(razor_rules::specs::Declarations::record_rules), using(razor_rules::proofs::FirstLaws::also_append))]
fn record_rules(
    home: &Home<'_>,
    circular: &[Txt],
    name: &Ident,
    parts: &[Argument],
    found: &mut Findings,
) -> Result<(), Oom>
    ensures { OnOk result (found.new.first
        ≡ also found.old.first (spec.record_rules (home_of home.now) home.now.invoking (members_spec.among circular.now) name.now parts.now)) }
{
    let fine = !is_among_texts(&name.name, circular);
    found.add_unless(fine, Rule::RecursiveRecord, name.place);
    part_types(home, parts, found)?;
    argument_rules(home.alloc, parts, found)
}

/// The rules that a member breaks by itself.
#[tactic(auto, unfolding(razor_rules::specs::Declarations::member_rules), using(crate::proofs::MemberLaws::getter_parts, crate::proofs::MemberLaws::method_any, crate::proofs::MemberLaws::initial_any))]
fn member_rules(
    home: &Home<'_>,
    circular: &[Txt],
    scope: &mut Scope,
    kind: &MemberKind,
    found: &mut Findings,
) -> Result<(), Oom>
    requires { scope.old ≡ member_scope (home_of home.now) }
    ensures does { OnOk result (found.new.first
        ≡ also found.old.first (spec.member_rules (home_of home.now) home.now.invoking (members_spec.among circular.now) kind.now)) }
    ensures same { OnOk result (scope.new ≡ scope.old) }
{
    match kind {
        MemberKind::Field {
            cs_type,
            initial,
            ..
        } => {
            let known = written(home.alloc, home.records, cs_type);
            typed_rules(home, scope, initial, known, found)
        }
        MemberKind::Parameter {
            cs_type,
            initial,
            ..
        } => {
            let known = parameter_type(home.alloc, home.records, cs_type);
            typed_rules(home, scope, initial, known, found)
        }
        MemberKind::Method {
            result,
            name,
            arguments,
            body,
        } => {
            let it = Method {
                gives: result,
                name,
                arguments: arguments.as_slice(),
                body,
            };
            method_rules(home, scope, &it, found)
        }
        MemberKind::Getter {
            result,
            name,
            value,
        } => getter_rules(home, scope, result, name, value, found),
        MemberKind::RecordDef { name, parts } => {
            record_rules(home, circular, name, parts.as_slice(), found)
        }
    }
}

/// No two members of one name, and no record of the name of an earlier one.
#[tactic(auto, using(razor_rules::proofs::FirstLaws::also_append, razor_rules::proofs::FirstLaws::also_nothing))]
fn names_rules(home: &Home<'_>, earlier: &[Name<'_>], found: &mut Findings) -> Result<(), Oom>
    ensures { OnOk result (found.new.first
        ≡ also found.old.first (members_spec.names_rules home.now.members.now (map text_of earlier.now))) }
{
    let names = member_idents(home.alloc, home.members)?;
    repeated(Rule::DuplicateName, names.as_slice(), found);
    let mut records = Vec::new(home.alloc);
    push_record_names(home.members, &mut records)?;
    repeated_behind(Rule::DuplicateName, earlier, records.as_slice(), found);
    Ok(())
}

/// The rules of the members, whose names are in scope, behind records of earlier files of these names.
#[tactic(auto, using(razor_rules::proofs::FirstLaws::also_append, razor_rules::proofs::FirstLaws::also_nothing))]
pub fn members_rules(
    home: &Home<'_>,
    circular: &[Txt],
    scope: &mut Scope,
    earlier: &[Name<'_>],
    found: &mut Findings,
) -> Result<(), Oom>
    requires { scope.old ≡ member_scope (home_of home.now) }
    ensures does { OnOk result (found.new.first
        ≡ also found.old.first (members_spec.members_rules (home_of home.now) home.now.invoking (members_spec.among circular.now) (map text_of earlier.now))) }
    ensures same { OnOk result (scope.new ≡ scope.old) }
{
    names_rules(home, earlier, found)?;
    for member in home.members {
        member_rules(home, circular, scope, &member.kind, found)?;
    }
    Ok(())
}
