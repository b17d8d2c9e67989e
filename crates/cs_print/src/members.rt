// Writes members.
ghost use Rattle.std.specs.Prelude.{◌≡◌, ◌++◌, [], ◌∷◌, OnOk, IsTrue, Some, map, option_map, true};
ghost use Rattle.text_core.specs.Ascii.{is_ascii};
ghost use Rattle.cs_ast.specs.declared.member.MemberKind.TheVariants as mk;
ghost use Rattle.cs_token.specs.declared.token.TokenKind.TheVariants as k;
ghost use Rattle.cs_token.specs.declared.token.Sign.TheVariants as s;
ghost use Rattle.cs_print.specs.Layout.{code_text};
ghost use Rattle.cs_print.specs.PrintedMembers as spec;
ghost use Rattle.cs_print.specs.Printed.{in_round, behind_commas, ended, printed, whole};
ghost use Rattle.cs_print.specs.PrintedMembers.{argument_kinds, arguments_kinds, member_kinds, members_kinds};

use crate::expressions::push_whole;
use crate::statements::{push_block, push_initial};
use crate::tokens::{push_fixed, push_name, push_sign, push_text, push_word};
use crate::types::push_type;
use cs_ast::{Argument, Body, Expr, Ident, Member, MemberKind, TypeExpr, TypeKind};
use cs_token::{Sign, Word};
use std::alloc::Global;
use text_core::{Oom, Txt};

#[tactic(auto, using(crate::proofs::TextLaws::text_then, crate::proofs::TextLaws::text_behind, crate::proofs::TextLaws::text_alone))]
fn push_argument(out: &mut Txt, argument: &Argument) -> Result<(), Oom>
    ensures { OnOk result (out.new ≡ out.old ++ code_text (argument_kinds argument.now)) }
{
    push_type(out, &argument.cs_type)?;
    push_name(out, &argument.name.name)
}

#[tactic(auto, using(crate::proofs::TextLaws::text_then, crate::proofs::TextLaws::text_behind, crate::proofs::TextLaws::text_alone))]
fn push_another_argument(out: &mut Txt, argument: &Argument) -> Result<(), Oom>
    ensures { OnOk result (out.new ≡ out.old ++ code_text (k.Sign s.Comma ∷ argument_kinds argument.now)) }
{
    push_sign(out, Sign::Comma)?;
    push_argument(out, argument)
}

fn push_more_arguments(out: &mut Txt, arguments: &[Argument]) -> Result<(), Oom>
    ensures { OnOk result (out.new ≡ out.old ++ code_text (behind_commas (map argument_kinds arguments.now))) }
{
    for argument in arguments {
        push_another_argument(out, argument)?;
    }
    Ok(())
}

#[tactic(auto, using(crate::proofs::WrittenLaws::no_arguments, crate::proofs::WrittenLaws::some_arguments))]
fn push_some_arguments(out: &mut Txt, arguments: &[Argument]) -> Result<(), Oom>
    ensures { OnOk result (out.new ≡ out.old ++ code_text (arguments_kinds arguments.now)) }
{
    match arguments {
        [] => Ok(()),
        [first, rest @ ..] => {
            push_argument(out, first)?;
            push_more_arguments(out, rest)
        }
    }
}

#[tactic(auto, using(crate::proofs::TextLaws::text_then, crate::proofs::TextLaws::text_behind, crate::proofs::TextLaws::text_alone))]
fn push_arguments(out: &mut Txt, arguments: &[Argument]) -> Result<(), Oom>
    ensures { OnOk result (out.new ≡ out.old ++ code_text (in_round (arguments_kinds arguments.now))) }
{
    push_sign(out, Sign::OpenRound)?;
    push_some_arguments(out, arguments)?;
    push_sign(out, Sign::CloseRound)
}

/// Whether the type is named `record`.
#[tactic(auto, using(crate::proofs::RecordLaws::is_record_named, crate::proofs::RecordLaws::is_record_int, crate::proofs::RecordLaws::is_record_bool, crate::proofs::RecordLaws::is_record_text, crate::proofs::RecordLaws::is_record_list, crate::proofs::RecordLaws::is_record_callback, crate::proofs::RecordLaws::is_record_fragment, crate::proofs::RecordLaws::is_record_change, crate::proofs::RecordLaws::is_record_args))]
fn is_record(kind: &TypeKind) -> bool
    ensures { result ≡ spec.is_record kind.now }
{
    match kind {
        TypeKind::Named(name) => name.is("record"),
        TypeKind::Int
        | TypeKind::Bool
        | TypeKind::Text
        | TypeKind::List(_)
        | TypeKind::Callback(_)
        | TypeKind::Fragment(_)
        | TypeKind::Change
        | TypeKind::Args => false,
    }
}

#[tactic(auto, using(crate::proofs::TextLaws::text_then, crate::proofs::TextLaws::text_behind, crate::proofs::TextLaws::text_alone))]
fn push_result_type(out: &mut Txt, cs_type: &TypeExpr) -> Result<(), Oom>
    ensures { OnOk result (out.new ≡ out.old ++ code_text (spec.result_of cs_type.now)) }
{
    if !is_record(&cs_type.kind) {
        return push_type(out, cs_type);
    }
    push_type(out, cs_type)?;
    push_sign(out, Sign::Question)
}

#[tactic(auto, using(crate::proofs::TextLaws::text_then, crate::proofs::TextLaws::text_behind, crate::proofs::TextLaws::text_alone))]
fn push_result(out: &mut Txt, cs_type: &Option<TypeExpr>) -> Result<(), Oom>
    ensures { OnOk result (out.new ≡ out.old ++ code_text (spec.result_kinds cs_type.now)) }
{
    match cs_type {
        None => push_word(out, Word::Void),
        Some(cs_type) => push_result_type(out, cs_type),
    }
}

#[tactic(auto, using(crate::proofs::TextLaws::text_then, crate::proofs::TextLaws::text_behind, crate::proofs::TextLaws::text_alone))]
fn push_arrow(alloc: Global, out: &mut Txt, a: &Expr) -> Result<(), Oom>
    ensures { OnOk result (out.new ≡ out.old ++ code_text (k.Sign s.Arrow ∷ ended (whole (printed a.now)))) }
{
    push_sign(out, Sign::Arrow)?;
    push_whole(alloc, out, a)?;
    push_sign(out, Sign::Semicolon)
}

#[tactic(auto, using(crate::proofs::RecordLaws::method_value, crate::proofs::RecordLaws::method_block))]
fn push_method_body(alloc: Global, out: &mut Txt, body: &Body) -> Result<(), Oom>
    ensures { OnOk result (out.new ≡ out.old ++ code_text (spec.method_body body.now)) }
{
    match body {
        Body::Value(a) => push_arrow(alloc, out, a.get()),
        Body::Block(statements) => push_block(alloc, out, statements.as_slice()),
    }
}

#[tactic(auto, using(crate::proofs::TextLaws::text_then, crate::proofs::TextLaws::text_behind, crate::proofs::TextLaws::text_alone))]
fn push_accessors(out: &mut Txt) -> Result<(), Oom>
    ensures { OnOk result (out.new ≡ out.old ++ code_text spec.accessors) }
{
    push_sign(out, Sign::OpenBrace)?;
    push_fixed(out, "get")?;
    push_sign(out, Sign::Semicolon)?;
    push_fixed(out, "set")?;
    push_sign(out, Sign::Semicolon)?;
    push_sign(out, Sign::CloseBrace)
}

#[tactic(auto, using(crate::proofs::TextLaws::text_then, crate::proofs::TextLaws::text_behind, crate::proofs::TextLaws::text_alone, crate::proofs::TextLaws::text_nothing))]
fn push_property_end(alloc: Global, out: &mut Txt, value: &Option<Expr>) -> Result<(), Oom>
    ensures { OnOk result (out.new ≡ out.old ++ code_text (spec.property_end (option_map printed value.now))) }
{
    match value {
        None => Ok(()),
        Some(value) => {
            push_sign(out, Sign::Assign)?;
            push_whole(alloc, out, value)?;
            push_sign(out, Sign::Semicolon)
        }
    }
}

#[tactic(auto, using(crate::proofs::TextLaws::text_then, crate::proofs::TextLaws::text_behind, crate::proofs::TextLaws::text_alone))]
fn push_mark(out: &mut Txt, name: &str) -> Result<(), Oom>
    requires { IsTrue (is_ascii name.now) }
    ensures { OnOk result (out.new ≡ out.old ++ code_text (spec.in_square (k.Name name.now ∷ []))) }
{
    push_sign(out, Sign::OpenSquare)?;
    push_fixed(out, name)?;
    push_sign(out, Sign::CloseSquare)
}

fn push_source(out: &mut Txt, source: &Txt) -> Result<(), Oom>
    ensures { OnOk result (out.new ≡ out.old ++ code_text (spec.source_kinds source.now)) }
{
    push_fixed(out, "CascadingParameter")?;
    push_sign(out, Sign::OpenRound)?;
    push_fixed(out, "Name")?;
    push_sign(out, Sign::Assign)?;
    push_text(out, source)?;
    push_sign(out, Sign::CloseRound)
}

#[tactic(auto, using(crate::proofs::TextLaws::text_then, crate::proofs::TextLaws::text_behind, crate::proofs::TextLaws::text_alone))]
fn push_named_mark(out: &mut Txt, source: &Txt) -> Result<(), Oom>
    ensures { OnOk result (out.new ≡ out.old ++ code_text (spec.attribute_kinds true (Some source.now))) }
{
    push_sign(out, Sign::OpenSquare)?;
    push_source(out, source)?;
    push_sign(out, Sign::CloseSquare)
}

/// The attribute of a parameter that is supplied from above.
fn push_cascading(out: &mut Txt, source: &Option<Txt>) -> Result<(), Oom>
    ensures { OnOk result (out.new ≡ out.old ++ code_text (spec.attribute_kinds true source.now)) }
{
    match source {
        None => push_mark(out, "CascadingParameter"),
        Some(source) => push_named_mark(out, source),
    }
}

fn push_attribute(out: &mut Txt, cascading: bool, source: &Option<Txt>) -> Result<(), Oom>
    ensures { OnOk result (out.new ≡ out.old ++ code_text (spec.attribute_kinds cascading source.now)) }
{
    if cascading {
        push_cascading(out, source)
    } else {
        push_mark(out, "Parameter")
    }
}

#[tactic(auto, using(crate::proofs::TextLaws::text_then, crate::proofs::TextLaws::text_behind, crate::proofs::TextLaws::text_alone), unfolding(crate::specs::PrintedMembers::member_kinds))]
fn push_field(
    alloc: Global,
    out: &mut Txt,
    cs_type: &TypeExpr,
    name: &Ident,
    initial: &Option<Expr>,
) -> Result<(), Oom>
    ensures { OnOk result (out.new ≡ out.old ++ code_text (member_kinds (mk.Field cs_type.now name.now initial.now))) }
{
    push_type(out, cs_type)?;
    push_name(out, &name.name)?;
    push_initial(alloc, out, initial)?;
    push_sign(out, Sign::Semicolon)
}

/// A property of this type, behind its attribute.
#[tactic(auto, using(crate::proofs::TextLaws::text_then, crate::proofs::TextLaws::text_behind, crate::proofs::TextLaws::text_alone))]
fn push_property(
    alloc: Global,
    out: &mut Txt,
    cs_type: &TypeExpr,
    name: &Ident,
    initial: &Option<Expr>,
) -> Result<(), Oom>
    ensures { OnOk result (out.new ≡ out.old ++ code_text (spec.property_kinds cs_type.now name.now.name (option_map printed initial.now))) }
{
    push_type(out, cs_type)?;
    push_name(out, &name.name)?;
    push_accessors(out)?;
    push_property_end(alloc, out, initial)
}

#[tactic(auto, using(crate::proofs::TextLaws::text_then, crate::proofs::TextLaws::text_behind, crate::proofs::TextLaws::text_alone), unfolding(crate::specs::PrintedMembers::member_kinds))]
fn push_method(
    alloc: Global,
    out: &mut Txt,
    gives: &Option<TypeExpr>,
    name: &Ident,
    arguments: &[Argument],
    body: &Body,
) -> Result<(), Oom>
    ensures { OnOk result (out.new ≡ out.old ++ code_text (member_kinds (mk.Method gives.now name.now arguments.now body.now))) }
{
    push_result(out, gives)?;
    push_name(out, &name.name)?;
    push_arguments(out, arguments)?;
    push_method_body(alloc, out, body)
}

#[tactic(auto, using(crate::proofs::TextLaws::text_then, crate::proofs::TextLaws::text_behind, crate::proofs::TextLaws::text_alone), unfolding(crate::specs::PrintedMembers::member_kinds))]
fn push_getter(
    alloc: Global,
    out: &mut Txt,
    gives: &TypeExpr,
    name: &Ident,
    value: &Expr,
) -> Result<(), Oom>
    ensures { OnOk result (out.new ≡ out.old ++ code_text (member_kinds (mk.Getter gives.now name.now value.now))) }
{
    push_type(out, gives)?;
    push_name(out, &name.name)?;
    push_arrow(alloc, out, value)
}

#[tactic(auto, using(crate::proofs::TextLaws::text_then, crate::proofs::TextLaws::text_behind, crate::proofs::TextLaws::text_alone), unfolding(crate::specs::PrintedMembers::member_kinds))]
fn push_record(out: &mut Txt, name: &Ident, parts: &[Argument]) -> Result<(), Oom>
    ensures { OnOk result (out.new ≡ out.old ++ code_text (member_kinds (mk.RecordDef name.now parts.now))) }
{
    push_fixed(out, "record")?;
    push_name(out, &name.name)?;
    push_arguments(out, parts)?;
    push_sign(out, Sign::Semicolon)
}

#[tactic(auto, using(crate::proofs::TextLaws::text_then, crate::proofs::TextLaws::text_behind, crate::proofs::TextLaws::text_alone), unfolding(crate::specs::PrintedMembers::member_kinds))]
fn push_parameter(
    alloc: Global,
    out: &mut Txt,
    cascading: bool,
    source: &Option<Txt>,
    cs_type: &TypeExpr,
    name: &Ident,
    initial: &Option<Expr>,
) -> Result<(), Oom>
    ensures { OnOk result (out.new ≡ out.old ++ code_text (member_kinds (mk.Parameter cascading source.now cs_type.now name.now initial.now))) }
{
    push_attribute(out, cascading, source)?;
    push_property(alloc, out, cs_type, name, initial)
}

fn push_member(alloc: Global, out: &mut Txt, member: &Member) -> Result<(), Oom>
    ensures { OnOk result (out.new ≡ out.old ++ code_text (member_kinds member.now.kind)) }
{
    match &member.kind {
        MemberKind::Field {
            cs_type,
            name,
            initial,
        } => push_field(alloc, out, cs_type, name, initial),
        MemberKind::Parameter {
            cascading,
            source,
            cs_type,
            name,
            initial,
        } => push_parameter(alloc, out, *cascading, source, cs_type, name, initial),
        MemberKind::Method {
            result: gives,
            name,
            arguments,
            body,
        } => push_method(alloc, out, gives, name, arguments.as_slice(), body),
        MemberKind::Getter {
            result: gives,
            name,
            value,
        } => push_getter(alloc, out, gives, name, value),
        MemberKind::RecordDef { name, parts } => push_record(out, name, parts.as_slice()),
    }
}

/// Writes members one behind another.
pub fn push_members(alloc: Global, out: &mut Txt, members: &[Member]) -> Result<(), Oom>
    ensures { OnOk result (out.new ≡ out.old ++ code_text (members_kinds members.now)) }
{
    for member in members {
        push_member(alloc, out, member)?;
    }
    Ok(())
}
