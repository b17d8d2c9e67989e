// Writes expressions.
ghost use Rattle.std.specs.Prelude.{◌≡◌, ◌++◌, [], ◌∷◌, OnOk, map};
ghost use Rattle.std.specs.List.{flat_map};
ghost use Rattle.cs_token.specs.declared.token.TokenKind.TheVariants as k;
ghost use Rattle.cs_token.specs.declared.token.Sign.TheVariants as s;
ghost use Rattle.cs_print.specs.Layout.{code_text};
ghost use Rattle.cs_print.specs.Printed as spec;
ghost use Rattle.cs_print.specs.Printed.{at_level, whole, printed, printed_kind, listed, behind_commas, in_round, in_braces};

use crate::lists::{push_arguments, push_parts, push_texts};
use crate::operators::{
    assignment_sign, cast_word, left_level, level, operator_sign, right_level, static_word,
    step_sign, truth_word, unary_sign,
};
use crate::statements::push_body;
use crate::tokens::{push_fixed, push_name, push_number, push_sign, push_text, push_word};
use crate::types::push_type_of;
use cs_ast::{
    AssignOp, BinaryOp, Body, CastOp, Expr, ExprKind, Ident, StaticType, StepOp, TextPart,
    TypeExpr, UnaryOp, WithPart,
};
use cs_token::{Sign, Word};
use std::alloc::Global;
use text_core::{Oom, Txt};

/// How tightly an expression holds its operands.
#[tactic(auto, using(crate::proofs::PrintedLaws::expr_int, crate::proofs::PrintedLaws::expr_bool, crate::proofs::PrintedLaws::expr_text, crate::proofs::PrintedLaws::expr_null, crate::proofs::PrintedLaws::expr_interpolated, crate::proofs::PrintedLaws::expr_name, crate::proofs::PrintedLaws::expr_unary, crate::proofs::PrintedLaws::expr_cast, crate::proofs::PrintedLaws::expr_binary, crate::proofs::PrintedLaws::expr_conditional, crate::proofs::PrintedLaws::expr_with_parts, crate::proofs::PrintedLaws::expr_member, crate::proofs::PrintedLaws::expr_null_member, crate::proofs::PrintedLaws::expr_call, crate::proofs::PrintedLaws::expr_index, crate::proofs::PrintedLaws::expr_new_record, crate::proofs::PrintedLaws::expr_empty_list, crate::proofs::PrintedLaws::expr_static, crate::proofs::PrintedLaws::expr_assign, crate::proofs::PrintedLaws::expr_step, crate::proofs::PrintedLaws::expr_lambda), unfolding(crate::specs::Printed::binary, crate::specs::Printed::conditional, crate::specs::Printed::with_parts, crate::specs::Printed::unary, crate::specs::Printed::cast, crate::specs::Printed::null_member, crate::specs::Printed::member, crate::specs::Printed::call, crate::specs::Printed::index, crate::specs::Printed::new_record, crate::specs::Printed::empty_list, crate::specs::Printed::static_member, crate::specs::Printed::interpolated, crate::specs::Printed::assign, crate::specs::Printed::step, crate::specs::Printed::lambda))]
fn level_of(kind: &ExprKind) -> u32
    ensures { result ≡ (printed_kind kind.now).level }
{
    match kind {
        ExprKind::Conditional(_, _, _)
        | ExprKind::Assign(_, _, _)
        | ExprKind::Step(_, _)
        | ExprKind::Lambda(_, _) => 0,
        ExprKind::Binary(op, _, _) => level(*op),
        ExprKind::With(_, _) => 10,
        ExprKind::Unary(_, _) | ExprKind::Cast(_, _) | ExprKind::NullMember(_, _) => 11,
        ExprKind::Int(_)
        | ExprKind::Bool(_)
        | ExprKind::Text(_)
        | ExprKind::Null
        | ExprKind::Interpolated(_)
        | ExprKind::Name(_)
        | ExprKind::Member(_, _)
        | ExprKind::Call(_, _)
        | ExprKind::Index(_, _)
        | ExprKind::New(_, _)
        | ExprKind::EmptyList(_)
        | ExprKind::Static(_, _) => 13,
    }
}

/// Where this level is asked.
#[cycle(code)]
#[tactic(auto, using(crate::proofs::TextLaws::text_then, crate::proofs::TextLaws::text_behind, crate::proofs::TextLaws::text_alone, crate::proofs::PrintedLaws::printed_law))]
pub fn push_at(alloc: Global, out: &mut Txt, least: u32, a: &Expr) -> Result<(), Oom>
    ensures { OnOk result (out.new ≡ out.old ++ code_text (at_level least (printed a.now))) }
{
    if level_of(&a.kind) >= least {
        return push_form(alloc, out, &a.kind);
    }
    push_sign(out, Sign::OpenRound)?;
    push_form(alloc, out, &a.kind)?;
    push_sign(out, Sign::CloseRound)
}

/// An expression as a whole.
#[cycle(code)]
pub fn push_whole(alloc: Global, out: &mut Txt, a: &Expr) -> Result<(), Oom>
    ensures { OnOk result (out.new ≡ out.old ++ code_text (whole (printed a.now))) }
{
    push_at(alloc, out, 0, a)
}

/// An expression by its form.
#[cycle(code)]
#[tactic(auto, using(crate::proofs::TextLaws::text_alone, crate::proofs::PrintedLaws::expr_int, crate::proofs::PrintedLaws::expr_bool, crate::proofs::PrintedLaws::expr_text, crate::proofs::PrintedLaws::expr_null, crate::proofs::PrintedLaws::expr_interpolated, crate::proofs::PrintedLaws::expr_name, crate::proofs::PrintedLaws::expr_unary, crate::proofs::PrintedLaws::expr_cast, crate::proofs::PrintedLaws::expr_binary, crate::proofs::PrintedLaws::expr_conditional, crate::proofs::PrintedLaws::expr_with_parts, crate::proofs::PrintedLaws::expr_member, crate::proofs::PrintedLaws::expr_null_member, crate::proofs::PrintedLaws::expr_call, crate::proofs::PrintedLaws::expr_index, crate::proofs::PrintedLaws::expr_new_record, crate::proofs::PrintedLaws::expr_empty_list, crate::proofs::PrintedLaws::expr_static, crate::proofs::PrintedLaws::expr_assign, crate::proofs::PrintedLaws::expr_step, crate::proofs::PrintedLaws::expr_lambda))]
fn push_form(alloc: Global, out: &mut Txt, kind: &ExprKind) -> Result<(), Oom>
    ensures { OnOk result (out.new ≡ out.old ++ code_text ((printed_kind kind.now).kinds)) }
{
    match kind {
        ExprKind::Int(number) => push_number(alloc, out, *number),
        ExprKind::Bool(truth) => push_word(out, truth_word(*truth)),
        ExprKind::Text(text) => push_text(out, text),
        ExprKind::Null => push_word(out, Word::Null),
        ExprKind::Interpolated(parts) => push_interpolated(alloc, out, parts.as_slice()),
        ExprKind::Name(name) => push_name(out, name),
        ExprKind::Unary(op, a) => push_unary(alloc, out, *op, a.get()),
        ExprKind::Cast(op, a) => push_cast(alloc, out, *op, a.get()),
        ExprKind::Binary(op, a, b) => push_binary(alloc, out, *op, a.get(), b.get()),
        ExprKind::Conditional(test, a, b) => {
            push_conditional(alloc, out, test.get(), a.get(), b.get())
        }
        ExprKind::With(a, parts) => push_with(alloc, out, a.get(), parts.as_slice()),
        ExprKind::Member(a, name) => push_member(alloc, out, a.get(), name),
        ExprKind::NullMember(a, name) => push_null_member(alloc, out, a.get(), name),
        ExprKind::Call(a, arguments) => push_call(alloc, out, a.get(), arguments.as_slice()),
        ExprKind::Index(a, i) => push_index(alloc, out, a.get(), i.get()),
        ExprKind::New(name, arguments) => push_new(alloc, out, name, arguments.as_slice()),
        ExprKind::EmptyList(item) => push_empty_list(out, item),
        ExprKind::Static(owner, name) => push_static(out, *owner, name),
        ExprKind::Assign(op, name, a) => push_assign(alloc, out, *op, name, a.get()),
        ExprKind::Step(op, name) => push_step(out, *op, name),
        ExprKind::Lambda(name, body) => push_lambda(alloc, out, name, body),
    }
}

#[cycle(code)]
#[tactic(auto, using(crate::proofs::TextLaws::text_then, crate::proofs::TextLaws::text_behind, crate::proofs::TextLaws::text_alone), unfolding(crate::specs::Printed::unary))]
fn push_unary(alloc: Global, out: &mut Txt, op: UnaryOp, a: &Expr) -> Result<(), Oom>
    ensures { OnOk result (out.new ≡ out.old ++ code_text ((spec.unary op (printed a.now)).kinds)) }
{
    push_sign(out, unary_sign(op))?;
    push_at(alloc, out, 11, a)
}

#[cycle(code)]
#[tactic(auto, using(crate::proofs::TextLaws::text_then, crate::proofs::TextLaws::text_behind, crate::proofs::TextLaws::text_alone), unfolding(crate::specs::Printed::cast))]
fn push_cast(alloc: Global, out: &mut Txt, op: CastOp, a: &Expr) -> Result<(), Oom>
    ensures { OnOk result (out.new ≡ out.old ++ code_text ((spec.cast op (printed a.now)).kinds)) }
{
    push_sign(out, Sign::OpenRound)?;
    push_word(out, cast_word(op))?;
    push_sign(out, Sign::CloseRound)?;
    push_at(alloc, out, 11, a)
}

#[cycle(code)]
#[tactic(auto, using(crate::proofs::TextLaws::text_then, crate::proofs::TextLaws::text_behind, crate::proofs::TextLaws::text_alone), unfolding(crate::specs::Printed::binary))]
fn push_binary(alloc: Global, out: &mut Txt, op: BinaryOp, a: &Expr, b: &Expr) -> Result<(), Oom>
    ensures { OnOk result (out.new ≡ out.old ++ code_text ((spec.binary op (printed a.now) (printed b.now)).kinds)) }
{
    push_at(alloc, out, left_level(op), a)?;
    push_sign(out, operator_sign(op))?;
    push_at(alloc, out, right_level(op), b)
}

#[cycle(code)]
#[tactic(auto, using(crate::proofs::TextLaws::text_then, crate::proofs::TextLaws::text_behind, crate::proofs::TextLaws::text_alone), unfolding(crate::specs::Printed::conditional))]
fn push_conditional(
    alloc: Global,
    out: &mut Txt,
    test: &Expr,
    a: &Expr,
    b: &Expr,
) -> Result<(), Oom>
    ensures { OnOk result (out.new ≡ out.old ++ code_text ((spec.conditional (printed test.now) (printed a.now) (printed b.now)).kinds)) }
{
    push_at(alloc, out, 1, test)?;
    push_sign(out, Sign::Question)?;
    push_whole(alloc, out, a)?;
    push_sign(out, Sign::Colon)?;
    push_whole(alloc, out, b)
}

#[cycle(code)]
#[tactic(auto, using(crate::proofs::TextLaws::text_then, crate::proofs::TextLaws::text_behind, crate::proofs::TextLaws::text_alone), unfolding(crate::specs::Printed::with_parts))]
fn push_with(alloc: Global, out: &mut Txt, a: &Expr, parts: &[WithPart]) -> Result<(), Oom>
    ensures { OnOk result (out.new ≡ out.old ++ code_text ((spec.with_parts (printed a.now) (map spec.part_kinds parts.now)).kinds)) }
{
    push_at(alloc, out, 10, a)?;
    push_fixed(out, "with")?;
    push_sign(out, Sign::OpenBrace)?;
    push_parts(alloc, out, parts)?;
    push_sign(out, Sign::CloseBrace)
}

#[cycle(code)]
#[tactic(auto, using(crate::proofs::TextLaws::text_then, crate::proofs::TextLaws::text_behind, crate::proofs::TextLaws::text_alone), unfolding(crate::specs::Printed::member))]
fn push_member(alloc: Global, out: &mut Txt, a: &Expr, name: &Ident) -> Result<(), Oom>
    ensures { OnOk result (out.new ≡ out.old ++ code_text ((spec.member (printed a.now) name.now.name).kinds)) }
{
    push_at(alloc, out, 13, a)?;
    push_sign(out, Sign::Dot)?;
    push_name(out, &name.name)
}

#[cycle(code)]
#[tactic(auto, using(crate::proofs::TextLaws::text_then, crate::proofs::TextLaws::text_behind, crate::proofs::TextLaws::text_alone), unfolding(crate::specs::Printed::null_member))]
fn push_null_member(alloc: Global, out: &mut Txt, a: &Expr, name: &Ident) -> Result<(), Oom>
    ensures { OnOk result (out.new ≡ out.old ++ code_text ((spec.null_member (printed a.now) name.now.name).kinds)) }
{
    push_at(alloc, out, 12, a)?;
    push_sign(out, Sign::QuestionDot)?;
    push_name(out, &name.name)
}

#[cycle(code)]
#[tactic(auto, using(crate::proofs::TextLaws::text_then, crate::proofs::TextLaws::text_behind, crate::proofs::TextLaws::text_alone), unfolding(crate::specs::Printed::call))]
fn push_call(alloc: Global, out: &mut Txt, a: &Expr, arguments: &[Expr]) -> Result<(), Oom>
    ensures { OnOk result (out.new ≡ out.old ++ code_text ((spec.call (printed a.now) (map printed arguments.now)).kinds)) }
{
    push_at(alloc, out, 13, a)?;
    push_arguments(alloc, out, arguments)
}

#[cycle(code)]
#[tactic(auto, using(crate::proofs::TextLaws::text_then, crate::proofs::TextLaws::text_behind, crate::proofs::TextLaws::text_alone), unfolding(crate::specs::Printed::index))]
fn push_index(alloc: Global, out: &mut Txt, a: &Expr, i: &Expr) -> Result<(), Oom>
    ensures { OnOk result (out.new ≡ out.old ++ code_text ((spec.index (printed a.now) (printed i.now)).kinds)) }
{
    push_at(alloc, out, 13, a)?;
    push_sign(out, Sign::OpenSquare)?;
    push_whole(alloc, out, i)?;
    push_sign(out, Sign::CloseSquare)
}

#[cycle(code)]
#[tactic(auto, using(crate::proofs::TextLaws::text_then, crate::proofs::TextLaws::text_behind, crate::proofs::TextLaws::text_alone), unfolding(crate::specs::Printed::new_record))]
fn push_new(alloc: Global, out: &mut Txt, name: &Ident, arguments: &[Expr]) -> Result<(), Oom>
    ensures { OnOk result (out.new ≡ out.old ++ code_text ((spec.new_record name.now.name (map printed arguments.now)).kinds)) }
{
    push_word(out, Word::New)?;
    push_name(out, &name.name)?;
    push_arguments(alloc, out, arguments)
}

#[tactic(auto, using(crate::proofs::TextLaws::text_then, crate::proofs::TextLaws::text_behind, crate::proofs::TextLaws::text_alone), unfolding(crate::specs::Printed::empty_list))]
fn push_empty_list(out: &mut Txt, item: &TypeExpr) -> Result<(), Oom>
    ensures { OnOk result (out.new ≡ out.old ++ code_text ((spec.empty_list item.now).kinds)) }
{
    push_type_of(out, Word::ImmutableList, item)?;
    push_sign(out, Sign::Dot)?;
    push_fixed(out, "Empty")
}

#[tactic(auto, using(crate::proofs::TextLaws::text_then, crate::proofs::TextLaws::text_behind, crate::proofs::TextLaws::text_alone), unfolding(crate::specs::Printed::static_member))]
fn push_static(out: &mut Txt, owner: StaticType, name: &Ident) -> Result<(), Oom>
    ensures { OnOk result (out.new ≡ out.old ++ code_text ((spec.static_member owner name.now.name).kinds)) }
{
    push_word(out, static_word(owner))?;
    push_sign(out, Sign::Dot)?;
    push_name(out, &name.name)
}

#[cycle(code)]
#[tactic(auto, using(crate::proofs::TextLaws::text_then, crate::proofs::TextLaws::text_behind, crate::proofs::TextLaws::text_alone), unfolding(crate::specs::Printed::interpolated))]
fn push_interpolated(alloc: Global, out: &mut Txt, parts: &[TextPart]) -> Result<(), Oom>
    ensures { OnOk result (out.new ≡ out.old ++ code_text ((spec.interpolated (map spec.text_kinds parts.now)).kinds)) }
{
    push_sign(out, Sign::InterpolationStart)?;
    push_texts(alloc, out, parts)?;
    push_sign(out, Sign::InterpolationEnd)
}

#[cycle(code)]
#[tactic(auto, using(crate::proofs::TextLaws::text_then, crate::proofs::TextLaws::text_behind, crate::proofs::TextLaws::text_alone), unfolding(crate::specs::Printed::assign))]
fn push_assign(
    alloc: Global,
    out: &mut Txt,
    op: AssignOp,
    name: &Ident,
    a: &Expr,
) -> Result<(), Oom>
    ensures { OnOk result (out.new ≡ out.old ++ code_text ((spec.assign op name.now.name (printed a.now)).kinds)) }
{
    push_name(out, &name.name)?;
    push_sign(out, assignment_sign(op))?;
    push_whole(alloc, out, a)
}

#[tactic(auto, using(crate::proofs::TextLaws::text_then, crate::proofs::TextLaws::text_behind, crate::proofs::TextLaws::text_alone), unfolding(crate::specs::Printed::step))]
fn push_step(out: &mut Txt, op: StepOp, name: &Ident) -> Result<(), Oom>
    ensures { OnOk result (out.new ≡ out.old ++ code_text ((spec.step op name.now.name).kinds)) }
{
    push_name(out, &name.name)?;
    push_sign(out, step_sign(op))
}

#[cycle(code)]
#[tactic(auto, using(crate::proofs::TextLaws::text_then, crate::proofs::TextLaws::text_behind, crate::proofs::TextLaws::text_alone), unfolding(crate::specs::Printed::lambda))]
fn push_lambda(alloc: Global, out: &mut Txt, name: &Option<Ident>, body: &Body) -> Result<(), Oom>
    ensures { OnOk result (out.new ≡ out.old ++ code_text ((spec.lambda name.now (spec.body_kinds body.now)).kinds)) }
{
    match name {
        None => {
            push_sign(out, Sign::OpenRound)?;
            push_sign(out, Sign::CloseRound)?;
        }
        Some(name) => push_name(out, &name.name)?,
    }
    push_sign(out, Sign::Arrow)?;
    push_body(alloc, out, body)
}
