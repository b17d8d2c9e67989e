// What an expression is where a callback is wanted.
ghost use Rattle.cs_ast.specs.declared.expression.ExprKind.{out-ExprKind};
ghost use Rattle.razor_parts.specs.Forms.{Sees};

use cs_ast::{Body, ExprKind, Ident};
use text_core::Txt;

/// A lambda, a name, or another expression.
#[derive(Clone, Copy)]
pub enum Form<'a> {
    Lambda(&'a Option<Ident>, &'a Body),
    Name(&'a Txt),
    Other,
}

/// The form of an expression.
#[tactic(auto, using(crate::proofs::FormLaws::out_int, crate::proofs::FormLaws::out_bool, crate::proofs::FormLaws::out_text, crate::proofs::FormLaws::out_null, crate::proofs::FormLaws::out_interpolated, crate::proofs::FormLaws::out_name, crate::proofs::FormLaws::out_unary, crate::proofs::FormLaws::out_cast, crate::proofs::FormLaws::out_binary, crate::proofs::FormLaws::out_conditional, crate::proofs::FormLaws::out_with, crate::proofs::FormLaws::out_member, crate::proofs::FormLaws::out_null_member, crate::proofs::FormLaws::out_call, crate::proofs::FormLaws::out_index, crate::proofs::FormLaws::out_new, crate::proofs::FormLaws::out_empty_list, crate::proofs::FormLaws::out_static, crate::proofs::FormLaws::out_assign, crate::proofs::FormLaws::out_step, crate::proofs::FormLaws::out_lambda))]
pub fn form_of(kind: &ExprKind) -> Form<'_>
    ensures { Sees result (out-ExprKind kind.now) }
{
    match kind {
        ExprKind::Lambda(argument, body) => Form::Lambda(argument, body),
        ExprKind::Name(name) => Form::Name(name),
        ExprKind::Int(_) => Form::Other,
        ExprKind::Bool(_) => Form::Other,
        ExprKind::Text(_) => Form::Other,
        ExprKind::Null => Form::Other,
        ExprKind::Interpolated(_) => Form::Other,
        ExprKind::Unary(_, _) => Form::Other,
        ExprKind::Cast(_, _) => Form::Other,
        ExprKind::Binary(_, _, _) => Form::Other,
        ExprKind::Conditional(_, _, _) => Form::Other,
        ExprKind::With(_, _) => Form::Other,
        ExprKind::Member(_, _) => Form::Other,
        ExprKind::NullMember(_, _) => Form::Other,
        ExprKind::Call(_, _) => Form::Other,
        ExprKind::Index(_, _) => Form::Other,
        ExprKind::New(_, _) => Form::Other,
        ExprKind::EmptyList(_) => Form::Other,
        ExprKind::Static(_, _) => Form::Other,
        ExprKind::Assign(_, _, _) => Form::Other,
        ExprKind::Step(_, _) => Form::Other,
    }
}
