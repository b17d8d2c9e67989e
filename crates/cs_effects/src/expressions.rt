// Whether expressions do a deed.
ghost use Rattle.std.specs.Prelude.{◌≡◌, ◌&&◌, ◌||◌, map, bytes_eq, codes};
ghost use Rattle.std.specs.List.{list_any};
ghost use Rattle.cs_effects.specs.Deeds as spec;

use crate::deed::Deed;
use crate::locals::is_free;
use cs_ast::{Expr, ExprKind, TextPart, WithPart};
use text_core::Txt;

/// Whether it is done by assigning or stepping a name that no local has.
#[tactic(auto, unfolding(crate::specs::Deeds::by_change))]
fn by_change(deed: &Deed, name: &Txt) -> bool
    ensures { result ≡ spec.by_change deed.now name.now }
{
    match deed {
        Deed::Changes(fields) => is_among(fields.as_slice(), name),
        Deed::Invokes | Deed::Runs(_) => false,
    }
}

fn is_among(fields: &[Txt], name: &Txt) -> bool
    ensures { result ≡ list_any (λ field. bytes_eq field name.now) fields.now }
{
    for field in fields {
        if *field == *name {
            return true;
        }
    }
    false
}

#[tactic(auto, unfolding(crate::specs::Deeds::by_use))]
fn by_use(deed: &Deed, name: &Txt) -> bool
    ensures { result ≡ spec.by_use deed.now name.now }
{
    match deed {
        Deed::Runs(method) => *method == *name,
        Deed::Changes(_) | Deed::Invokes => false,
    }
}

#[tactic(auto, unfolding(crate::specs::Deeds::by_invoking))]
fn by_invoking(deed: &Deed) -> bool
    ensures { result ≡ spec.by_invoking deed.now }
{
    match deed {
        Deed::Invokes => true,
        Deed::Changes(_) | Deed::Runs(_) => false,
    }
}

fn is_invocation(deed: &Deed, name: &Txt) -> bool
    ensures { result ≡ (bytes_eq name.now (codes "InvokeAsync") && spec.by_invoking deed.now) }
{
    name.is("InvokeAsync") && by_invoking(deed)
}

/// Whether a call of it is one of `InvokeAsync`, and that is the deed.
#[tactic(auto, using(crate::proofs::DeedLaws::int_invokes, crate::proofs::DeedLaws::bool_invokes, crate::proofs::DeedLaws::text_invokes, crate::proofs::DeedLaws::null_invokes, crate::proofs::DeedLaws::interpolated_invokes, crate::proofs::DeedLaws::name_invokes, crate::proofs::DeedLaws::unary_invokes, crate::proofs::DeedLaws::cast_invokes, crate::proofs::DeedLaws::binary_invokes, crate::proofs::DeedLaws::conditional_invokes, crate::proofs::DeedLaws::with_invokes, crate::proofs::DeedLaws::member_invokes, crate::proofs::DeedLaws::null_member_invokes, crate::proofs::DeedLaws::call_invokes, crate::proofs::DeedLaws::index_invokes, crate::proofs::DeedLaws::new_invokes, crate::proofs::DeedLaws::empty_list_invokes, crate::proofs::DeedLaws::static_invokes, crate::proofs::DeedLaws::assign_invokes, crate::proofs::DeedLaws::step_invokes, crate::proofs::DeedLaws::lambda_invokes))]
fn invokes(deed: &Deed, kind: &ExprKind) -> bool
    ensures { result ≡ ((spec.of_kind deed.now kind.now).invokes && spec.by_invoking deed.now) }
{
    match kind {
        ExprKind::Member(_, name) => is_invocation(deed, &name.name),
        ExprKind::Int(_) => false,
        ExprKind::Bool(_) => false,
        ExprKind::Text(_) => false,
        ExprKind::Null => false,
        ExprKind::Interpolated(_) => false,
        ExprKind::Name(_) => false,
        ExprKind::Unary(_, _) => false,
        ExprKind::Cast(_, _) => false,
        ExprKind::Binary(_, _, _) => false,
        ExprKind::Conditional(_, _, _) => false,
        ExprKind::With(_, _) => false,
        ExprKind::NullMember(_, _) => false,
        ExprKind::Call(_, _) => false,
        ExprKind::Index(_, _) => false,
        ExprKind::New(_, _) => false,
        ExprKind::EmptyList(_) => false,
        ExprKind::Static(_, _) => false,
        ExprKind::Assign(_, _, _) => false,
        ExprKind::Step(_, _) => false,
        ExprKind::Lambda(_, _) => false,
    }
}

fn is_used(deed: &Deed, locals: &[Txt], name: &Txt) -> bool
    ensures { result ≡ (spec.is_free name.now locals.now && spec.by_use deed.now name.now) }
{
    is_free(name, locals) && by_use(deed, name)
}

fn is_changed(deed: &Deed, locals: &[Txt], name: &Txt) -> bool
    ensures { result ≡ (spec.is_free name.now locals.now && spec.by_change deed.now name.now) }
{
    is_free(name, locals) && by_change(deed, name)
}

/// Whether an expression does it.
#[cycle(expressions)]
#[tactic(auto, using(crate::proofs::DeedLaws::expr_law))]
pub fn does(deed: &Deed, locals: &[Txt], e: &Expr) -> bool
    ensures { result ≡ (spec.of_expr deed.now e.now).done locals.now }
{
    form(deed, locals, &e.kind)
}

/// The same by its form.
#[cycle(expressions)]
#[tactic(auto, using(crate::proofs::DeedLaws::expr_law, crate::proofs::DeedLaws::int_done, crate::proofs::DeedLaws::bool_done, crate::proofs::DeedLaws::text_done, crate::proofs::DeedLaws::null_done, crate::proofs::DeedLaws::interpolated_done, crate::proofs::DeedLaws::name_done, crate::proofs::DeedLaws::unary_done, crate::proofs::DeedLaws::cast_done, crate::proofs::DeedLaws::binary_done, crate::proofs::DeedLaws::conditional_done, crate::proofs::DeedLaws::with_done, crate::proofs::DeedLaws::member_done, crate::proofs::DeedLaws::null_member_done, crate::proofs::DeedLaws::call_done, crate::proofs::DeedLaws::index_done, crate::proofs::DeedLaws::new_done, crate::proofs::DeedLaws::empty_list_done, crate::proofs::DeedLaws::static_done, crate::proofs::DeedLaws::assign_done, crate::proofs::DeedLaws::step_done, crate::proofs::DeedLaws::lambda_done))]
fn form(deed: &Deed, locals: &[Txt], kind: &ExprKind) -> bool
    ensures { result ≡ (spec.of_kind deed.now kind.now).done locals.now }
{
    match kind {
        ExprKind::Int(_) => false,
        ExprKind::Bool(_) => false,
        ExprKind::Text(_) => false,
        ExprKind::Null => false,
        ExprKind::Interpolated(parts) => any_part(deed, locals, parts.as_slice()),
        ExprKind::Name(name) => is_used(deed, locals, name),
        ExprKind::Unary(_, a) => does(deed, locals, a.get()),
        ExprKind::Cast(_, a) => does(deed, locals, a.get()),
        ExprKind::Binary(_, a, b) => { does(deed, locals, a.get()) || does(deed, locals, b.get()) }
        ExprKind::Conditional(test, a, b) => {
            does(deed, locals, test.get())
                || (does(deed, locals, a.get()) || does(deed, locals, b.get()))
        }
        ExprKind::With(a, parts) => {
            does(deed, locals, a.get()) || any_with(deed, locals, parts.as_slice())
        }
        ExprKind::Member(a, _) => does(deed, locals, a.get()),
        ExprKind::NullMember(a, _) => does(deed, locals, a.get()),
        ExprKind::Call(target, arguments) => {
            invokes(deed, &target.get().kind)
                || (does(deed, locals, target.get()) || any_of(deed, locals, arguments.as_slice()))
        }
        ExprKind::Index(a, b) => does(deed, locals, a.get()) || does(deed, locals, b.get()),
        ExprKind::New(_, arguments) => any_of(deed, locals, arguments.as_slice()),
        ExprKind::EmptyList(_) => false,
        ExprKind::Static(_, _) => false,
        ExprKind::Assign(_, target, a) => assign(deed, locals, &target.name, a.get()),
        ExprKind::Step(_, target) => is_changed(deed, locals, &target.name),
        ExprKind::Lambda(_, _) => false,
    }
}

#[cycle(expressions)]
fn any_of(deed: &Deed, locals: &[Txt], all: &[Expr]) -> bool
    ensures { result ≡ list_any (λ x. x.done locals.now) (map (spec.of_expr deed.now) all.now) }
{
    for one in all {
        if does(deed, locals, one) {
            return true;
        }
    }
    false
}

/// A piece of an interpolated text.
#[cycle(expressions)]
#[tactic(auto, using(crate::proofs::DeedLaws::literal_done, crate::proofs::DeedLaws::hole_done))]
fn part(deed: &Deed, locals: &[Txt], it: &TextPart) -> bool
    ensures { result ≡ spec.of_part deed.now it.now locals.now }
{
    match it {
        TextPart::Literal(_) => false,
        TextPart::Hole(a) => does(deed, locals, a),
    }
}

#[cycle(expressions)]
fn any_part(deed: &Deed, locals: &[Txt], all: &[TextPart]) -> bool
    ensures { result ≡ list_any (λ x. x locals.now) (map (spec.of_part deed.now) all.now) }
{
    for one in all {
        if part(deed, locals, one) {
            return true;
        }
    }
    false
}

/// A part behind `with`.
#[cycle(expressions)]
#[tactic(auto, using(crate::proofs::DeedLaws::with_law))]
fn with_part(deed: &Deed, locals: &[Txt], it: &WithPart) -> bool
    ensures { result ≡ spec.of_with deed.now it.now locals.now }
{
    does(deed, locals, &it.value)
}

#[cycle(expressions)]
fn any_with(deed: &Deed, locals: &[Txt], all: &[WithPart]) -> bool
    ensures { result ≡ list_any (λ x. x locals.now) (map (spec.of_with deed.now) all.now) }
{
    for one in all {
        if with_part(deed, locals, one) {
            return true;
        }
    }
    false
}

#[cycle(expressions)]
fn assign(deed: &Deed, locals: &[Txt], target: &Txt, a: &Expr) -> bool
    ensures { result ≡ ((spec.is_free target.now locals.now && spec.by_change deed.now target.now) || (spec.of_expr deed.now a.now).done locals.now) }
{
    is_changed(deed, locals, target) || does(deed, locals, a)
}
