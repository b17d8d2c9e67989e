// What each form of expression comes to.
ghost use Rattle.std.specs.Prelude.{◌≡◌, map, Some};
ghost use Rattle.cs_rules.specs.Judged.{each};
ghost use Rattle.cs_rules.specs.Expressions as spec;
ghost use Rattle.cs_forbidden.specs.Trees.{value_in, uses};
ghost use Rattle.cs_forbidden.specs.Forms.{value_of_kind, callee_of_kind, piece as piece_of, given as given_of};
ghost use Rattle.cs_forms.specs.Agrees.{Agrees, AgreesBy};
ghost use Rattle.cs_check.specs.Steps as steps;
ghost use Rattle.cs_forms.specs.Views.{scope_of, forbidden_of, declared, replacing_view, replaced_view};

use cs_ast::{
    AssignOp, BinaryOp, CastOp, Code, CsType, Expr, ExprKind, Ident, TextPart, UnaryOp, WithPart,
};
use cs_forms::CheckFault;
use cs_forms::allowing::{allowed, allowed_callee};
use cs_forms::arguments::{Replaced, Replacing, with_replaced};
use cs_forms::callees::{callee_of_member, callee_of_value, static_callee};
use cs_forms::fault::mismatch;
use cs_forms::joining::{called, casted, chosen, constructed, indexed, joined};
use cs_forms::leaves::{
    assigned, dotted, empty_list, known_part, known_record, name_called, name_read, null,
    record_of, static_member, step, text,
};
use cs_forms::library::{null_member, value_of_member};
use cs_forms::names::{Names, variable_of};
use cs_forms::operators::{operator_of, shown, unary_type};
use cs_forms::types::{checked, code_of, fitting};
use cs_forms::written::Declared;
use cs_rules::{Callee, Checked};
use sqlite_items::{Boxed, Items};
use text_core::Place;

type Judged<T> = Result<Boxed<T>, CheckFault>;

/// What an expression comes to as a value.
#[cycle(expressions)]
pub fn value(names: &Names<'_>, e: &Expr) -> Judged<Checked>
    ensures { Agrees result (value_in (forbidden_of names.now) (scope_of names.now) e.now) }
{
    asked(names, e.place, &e.kind)
}

/// The same: a form that is fine is asked what its own code does.
#[cycle(expressions)]
fn asked(names: &Names<'_>, place: Place, kind: &ExprKind) -> Judged<Checked>
    ensures { Agrees result (steps.asked (forbidden_of names.now) place (value_of_kind (forbidden_of names.now) kind.now place (scope_of names.now))) }
{
    let x = form(names, place, kind)?;
    allowed(names, place, x)
}

/// A form by its parts.
#[cycle(expressions)]
#[tactic(auto, using(cs_forbidden::proofs::ExpressionLaws::lambda_value))]
fn form(names: &Names<'_>, place: Place, kind: &ExprKind) -> Judged<Checked>
    ensures { Agrees result (value_of_kind (forbidden_of names.now) kind.now place (scope_of names.now)) }
{
    match kind {
        ExprKind::Int(number) => checked(names.alloc, place, Code::Int(*number), CsType::Int),
        ExprKind::Bool(truth) => checked(names.alloc, place, Code::Bool(*truth), CsType::Bool),
        ExprKind::Text(it) => text(names.alloc, it, place),
        ExprKind::Null => null(names.alloc, place),
        ExprKind::Interpolated(parts) => interpolated(names, parts.as_slice(), place),
        ExprKind::Name(name) => name_read(names, name, place),
        ExprKind::Unary(op, a) => unary(names, *op, a.get(), place),
        ExprKind::Cast(op, a) => cast(names, *op, a.get(), place),
        ExprKind::Binary(op, a, b) => binary(names, *op, a.get(), b.get(), place),
        ExprKind::Conditional(condition, a, b) => {
            conditional(names, condition.get(), a.get(), b.get(), place)
        }
        ExprKind::With(a, parts) => with_of(names, a.get(), parts.as_slice(), place),
        ExprKind::Member(a, name) => member(names, a.get(), name, place),
        ExprKind::NullMember(a, name) => member_or_null(names, a.get(), name, place),
        ExprKind::Call(target, arguments) => {
            call(names, target.get(), arguments.as_slice(), place)
        }
        ExprKind::Index(a, i) => index(names, a.get(), i.get(), place),
        ExprKind::New(name, arguments) => new(names, name, arguments.as_slice(), place),
        ExprKind::EmptyList(cs_type) => empty_list(names, cs_type, place),
        ExprKind::Static(of, name) => static_member(names, *of, name, place),
        ExprKind::Assign(op, target, a) => assign(names, *op, target, a.get(), place),
        ExprKind::Step(op, target) => step(names, *op, target, place),
        ExprKind::Lambda(_, _) => Err(mismatch(place)),
    }
}

/// What an expression comes to as what is called.
#[cycle(expressions)]
fn callee(names: &Names<'_>, e: &Expr) -> Judged<Callee>
    ensures { Agrees result ((uses (forbidden_of names.now) e.now).callee (scope_of names.now)) }
{
    asked_callee(names, e.place, &e.kind)
}

/// The same: what is fine is asked whether its use is forbidden.
#[cycle(expressions)]
fn asked_callee(names: &Names<'_>, place: Place, kind: &ExprKind) -> Judged<Callee>
    ensures { Agrees result (steps.asked_callee (forbidden_of names.now) place (callee_of_kind (forbidden_of names.now) kind.now place (scope_of names.now))) }
{
    let it = called_form(names, place, kind)?;
    allowed_callee(names, place, it)
}

/// A form as what is called, by its parts.
#[cycle(expressions)]
fn called_form(names: &Names<'_>, place: Place, kind: &ExprKind) -> Judged<Callee>
    ensures { Agrees result (callee_of_kind (forbidden_of names.now) kind.now place (scope_of names.now)) }
{
    match kind {
        ExprKind::Name(name) => name_called(names, name, place),
        ExprKind::Member(a, name) => member_called(names, a.get(), name, place),
        ExprKind::Static(of, name) => static_callee(names.alloc, place, *of, name),
        _ => value_called(names, place, kind),
    }
}

/// A value as what is called.
#[cycle(expressions)]
fn value_called(names: &Names<'_>, place: Place, kind: &ExprKind) -> Judged<Callee>
    ensures { Agrees result (steps.value_called (value_of_kind (forbidden_of names.now) kind.now place (scope_of names.now))) }
{
    let x = form(names, place, kind)?;
    callee_of_value(names.alloc, x)
}

/// Values, in order.
#[cycle(expressions)]
#[tactic(auto, using(cs_forms::proofs::FrontLemmas::front_none, cs_forms::proofs::FrontLemmas::front_more, cs_forms::proofs::FrontLemmas::front_end))]
fn values(names: &Names<'_>, arguments: &[Expr]) -> Result<Vec<Boxed<Checked>>, CheckFault>
    ensures { AgreesBy (λ xs. xs.items) result (each (λ argument. argument (scope_of names.now)) (map (λ x. x.value) (map (uses (forbidden_of names.now)) arguments.now))) }
{
    let mut xs = Vec::new(names.alloc);
    for argument in arguments {
        xs.push(value(names, argument)?)?;
    }
    Ok(xs)
}

#[cycle(expressions)]
#[tactic(auto, unfolding(cs_rules::specs::Expressions::hole))]
fn hole(names: &Names<'_>, a: &Expr) -> Result<Code, CheckFault>
    ensures { Agrees result (spec.hole (uses (forbidden_of names.now) a.now).value (scope_of names.now)) }
{
    let x = value(names, a)?;
    shown(x.get().place, &x.get().expr_type)?;
    Ok(code_of(x))
}

/// A piece of an interpolated text.
#[cycle(expressions)]
#[tactic(auto, using(cs_forbidden::proofs::FormLaws::literal_piece, cs_forbidden::proofs::FormLaws::hole_piece))]
fn piece(names: &Names<'_>, part: &TextPart) -> Result<Code, CheckFault>
    ensures { Agrees result (piece_of (forbidden_of names.now) part.now (scope_of names.now)) }
{
    match part {
        TextPart::Literal(text) => Ok(Code::Piece(text.clone()?)),
        TextPart::Hole(a) => hole(names, a),
    }
}

#[cycle(expressions)]
#[tactic(auto, using(cs_forms::proofs::FrontLemmas::front_none, cs_forms::proofs::FrontLemmas::front_more, cs_forms::proofs::FrontLemmas::front_end))]
fn pieces(names: &Names<'_>, parts: &[TextPart]) -> Result<Items<Code>, CheckFault>
    ensures { Agrees result (each (λ part. part (scope_of names.now)) (map (piece_of (forbidden_of names.now)) parts.now)) }
{
    let mut codes = Items::new(names.alloc);
    for part in parts {
        codes.push(piece(names, part)?)?;
    }
    Ok(codes)
}

#[cycle(expressions)]
#[tactic(auto, unfolding(cs_rules::specs::Expressions::interpolated))]
fn interpolated(names: &Names<'_>, parts: &[TextPart], place: Place) -> Judged<Checked>
    ensures { Agrees result (spec.interpolated (map (piece_of (forbidden_of names.now)) parts.now) place (scope_of names.now)) }
{
    let codes = pieces(names, parts)?;
    checked(names.alloc, place, Code::Interpolated(codes), CsType::Text)
}

#[cycle(expressions)]
#[tactic(auto, unfolding(cs_rules::specs::Expressions::unary))]
fn unary(names: &Names<'_>, op: UnaryOp, a: &Expr, place: Place) -> Judged<Checked>
    ensures { Agrees result (spec.unary op (uses (forbidden_of names.now) a.now).value place (scope_of names.now)) }
{
    let x = value(names, a)?;
    let code = fitting(&unary_type(op), x)?;
    let code = Boxed::new(names.alloc, code)?;
    checked(names.alloc, place, Code::Unary(op, code), unary_type(op))
}

#[cycle(expressions)]
#[tactic(auto, unfolding(cs_rules::specs::Expressions::cast))]
fn cast(names: &Names<'_>, op: CastOp, a: &Expr, place: Place) -> Judged<Checked>
    ensures { Agrees result (spec.cast op (uses (forbidden_of names.now) a.now).value place (scope_of names.now)) }
{
    let x = value(names, a)?;
    let code = fitting(&CsType::Text, x)?;
    casted(names.alloc, op, code, place)
}

#[cycle(expressions)]
#[tactic(auto, unfolding(cs_rules::specs::Expressions::binary))]
fn binary(names: &Names<'_>, op: BinaryOp, a: &Expr, b: &Expr, place: Place) -> Judged<Checked>
    ensures { Agrees result (spec.binary op (uses (forbidden_of names.now) a.now).value (uses (forbidden_of names.now) b.now).value place (scope_of names.now)) }
{
    let x = value(names, a)?;
    let y = value(names, b)?;
    let records = names.around.scope.records.as_slice();
    joined(names.alloc, records, op, x, y, place)
}

#[cycle(expressions)]
#[tactic(auto, unfolding(cs_rules::specs::Expressions::conditional))]
fn conditional(
    names: &Names<'_>,
    condition: &Expr,
    a: &Expr,
    b: &Expr,
    place: Place,
) -> Judged<Checked>
    ensures { Agrees result (spec.conditional (uses (forbidden_of names.now) condition.now).value (uses (forbidden_of names.now) a.now).value (uses (forbidden_of names.now) b.now).value place (scope_of names.now)) }
{
    let test = value(names, condition)?;
    let x = value(names, a)?;
    let y = value(names, b)?;
    chosen(names.alloc, test, x, y, place)
}

#[cycle(expressions)]
#[tactic(auto, unfolding(cs_rules::specs::Expressions::index))]
fn index(names: &Names<'_>, a: &Expr, i: &Expr, place: Place) -> Judged<Checked>
    ensures { Agrees result (spec.index (uses (forbidden_of names.now) a.now).value (uses (forbidden_of names.now) i.now).value place (scope_of names.now)) }
{
    let x = value(names, a)?;
    let y = value(names, i)?;
    indexed(names.alloc, x, y, place)
}

#[cycle(expressions)]
#[tactic(auto, unfolding(cs_rules::specs::Expressions::member))]
fn member(names: &Names<'_>, a: &Expr, name: &Ident, place: Place) -> Judged<Checked>
    ensures { Agrees result (spec.member (uses (forbidden_of names.now) a.now).value name.now place (scope_of names.now)) }
{
    let x = value(names, a)?;
    let found = dotted(names, x.get(), name)?;
    value_of_member(names.alloc, place, code_of(x), found)
}

#[cycle(expressions)]
#[tactic(auto, unfolding(cs_rules::specs::Expressions::member_or_null))]
fn member_or_null(names: &Names<'_>, a: &Expr, name: &Ident, place: Place) -> Judged<Checked>
    ensures { Agrees result (spec.member_or_null (uses (forbidden_of names.now) a.now).value name.now place (scope_of names.now)) }
{
    let x = value(names, a)?;
    let found = dotted(names, x.get(), name)?;
    null_member(names.alloc, place, x, found)
}

#[cycle(expressions)]
#[tactic(auto, unfolding(cs_rules::specs::Expressions::member_called))]
fn member_called(names: &Names<'_>, a: &Expr, name: &Ident, place: Place) -> Judged<Callee>
    ensures { Agrees result (spec.member_called (uses (forbidden_of names.now) a.now).value name.now place (scope_of names.now)) }
{
    let x = value(names, a)?;
    let found = dotted(names, x.get(), name)?;
    callee_of_member(names.alloc, place, code_of(x), found)
}

#[cycle(expressions)]
#[tactic(auto, unfolding(cs_rules::specs::Expressions::call))]
fn call(names: &Names<'_>, target: &Expr, arguments: &[Expr], place: Place) -> Judged<Checked>
    ensures { Agrees result (spec.call (uses (forbidden_of names.now) target.now).callee (map (λ x. x.value) (map (uses (forbidden_of names.now)) arguments.now)) place (scope_of names.now)) }
{
    let callee = callee(names, target)?;
    let xs = values(names, arguments)?;
    called(names.alloc, place, callee, xs)
}

#[cycle(expressions)]
#[tactic(auto, unfolding(cs_rules::specs::Expressions::new))]
fn new(names: &Names<'_>, name: &Ident, arguments: &[Expr], place: Place) -> Judged<Checked>
    ensures { Agrees result (spec.new name.now (map (λ x. x.value) (map (uses (forbidden_of names.now)) arguments.now)) place (scope_of names.now)) }
{
    let found = known_record(names.around.scope.records.as_slice(), name)?;
    let xs = values(names, arguments)?;
    constructed(names.alloc, place, found, xs, name)
}

/// The new value of a part.
#[cycle(expressions)]
#[tactic(auto, unfolding(cs_rules::specs::Expressions::replacing), using(cs_forbidden::proofs::FormLaws::given_law))]
fn replacing(
    names: &Names<'_>,
    part: &WithPart,
    found: Declared<'_>,
) -> Result<Replacing, CheckFault>
    ensures { AgreesBy replacing_view result (spec.replacing (scope_of names.now) (declared found.entry) (given_of (forbidden_of names.now) part.now)) }
{
    let known = known_part(names.alloc, found.parts, &part.name)?;
    let value = value(names, &part.value)?;
    Ok(Replacing {
        number: known.number,
        wanted: known.cs_type,
        value,
    })
}

#[cycle(expressions)]
#[tactic(auto, using(crate::proofs::FrontLemmas::replaced_none, crate::proofs::FrontLemmas::replaced_more, crate::proofs::FrontLemmas::replaced_end))]
fn replacements(
    names: &Names<'_>,
    parts: &[WithPart],
    found: Declared<'_>,
) -> Result<Replaced, CheckFault>
    ensures { AgreesBy replaced_view result (spec.replacements (scope_of names.now) (declared found.entry) (map (given_of (forbidden_of names.now)) parts.now)) }
{
    let mut replaced = Replaced {
        positions: Items::new(names.alloc),
        wanted: Items::new(names.alloc),
        values: Vec::new(names.alloc),
    };
    for part in parts {
        let one = replacing(names, part, found)?;
        replaced.push(one)?;
    }
    Ok(replaced)
}

/// The value of a part.
#[cycle(expressions)]
#[tactic(auto, using(cs_forbidden::proofs::FormLaws::given_law))]
fn given(names: &Names<'_>, part: &WithPart) -> Judged<Checked>
    ensures { Agrees result ((given_of (forbidden_of names.now) part.now).value (scope_of names.now)) }
{
    value(names, &part.value)
}

/// The values of parts of what is no record.
#[cycle(expressions)]
fn of_no_record(names: &Names<'_>, parts: &[WithPart], wrong: Place) -> Judged<Checked>
    ensures { Agrees result (spec.of_no_record (map (given_of (forbidden_of names.now)) parts.now) wrong (scope_of names.now)) }
{
    for part in parts {
        given(names, part)?;
    }
    Err(mismatch(wrong))
}

/// A record with new values of parts.
#[cycle(expressions)]
fn with_record(
    names: &Names<'_>,
    parts: &[WithPart],
    x: Boxed<Checked>,
    found: Declared<'_>,
    place: Place,
) -> Judged<Checked>
    ensures { Agrees result (spec.with_parts (Some (declared found.entry)) (map (given_of (forbidden_of names.now)) parts.now) x place (scope_of names.now)) }
{
    let replaced = replacements(names, parts, found)?;
    with_replaced(names.alloc, x, replaced, place)
}

#[cycle(expressions)]
#[tactic(auto, unfolding(cs_rules::specs::Expressions::with_of))]
fn with_of(names: &Names<'_>, a: &Expr, parts: &[WithPart], place: Place) -> Judged<Checked>
    ensures { Agrees result (spec.with_of (uses (forbidden_of names.now) a.now).value (map (given_of (forbidden_of names.now)) parts.now) place (scope_of names.now)) }
{
    let x = value(names, a)?;
    match record_of(names.around.scope.records.as_slice(), &x.get().expr_type) {
        None => of_no_record(names, parts, x.get().place),
        Some(found) => with_record(names, parts, x, found, place),
    }
}

#[cycle(expressions)]
#[tactic(auto, unfolding(cs_rules::specs::Expressions::assign))]
fn assign(
    names: &Names<'_>,
    op: AssignOp,
    target: &Ident,
    a: &Expr,
    place: Place,
) -> Judged<Checked>
    ensures { Agrees result (spec.assign op target.now (uses (forbidden_of names.now) a.now).value place (scope_of names.now)) }
{
    let one = names.meant_at(target.place, &target.name)?;
    let x = value(names, a)?;
    let variable = variable_of(target.place, &one.kind, one.place)?;
    let code = assigned(names, operator_of(op), target.place, &one.cs_type, x)?;
    let code = Boxed::new(names.alloc, code)?;
    let code = Code::Assign(variable, op, code);
    checked(names.alloc, place, code, CsType::Nothing)
}
