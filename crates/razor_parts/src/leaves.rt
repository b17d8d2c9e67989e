// Whether the end of a body can be reached.
ghost use Rattle.std.specs.Prelude.{◌≡◌, false, map, option_map};
ghost use Rattle.cs_accepted.specs.Leaves as spec;
ghost use Rattle.razor_rules.specs.Bodies as bodies;

use cs_ast::{Body, Expr, ExprKind, Section, Stmt, StmtKind};
use cs_forms::labels::has_default;
use sqlite_items::Boxed;

/// What leaves a statement: a `break` in it, and its end.
#[derive(Clone, Copy, Debug)]
struct Leaves {
    breaks: bool,
    ends: bool,
}

/// A statement that comes to its end alone.
fn plain() -> Leaves
    ensures breaks { result.breaks ≡ spec.plain.breaks }
    ensures ends { result.ends ≡ spec.plain.ends }
{
    Leaves {
        breaks: false,
        ends: true,
    }
}

/// A jump out of what stands round it, a `break` or another.
fn jump(breaks: bool) -> Leaves
    ensures breaks { result.breaks ≡ breaks }
    ensures ends { result.ends ≡ false }
{
    Leaves {
        breaks,
        ends: false,
    }
}

/// Whether an expression is the word `true`.
#[tactic(auto, using(crate::proofs::LeavesLaws::true_int, crate::proofs::LeavesLaws::true_bool, crate::proofs::LeavesLaws::true_text, crate::proofs::LeavesLaws::true_null, crate::proofs::LeavesLaws::true_interpolated, crate::proofs::LeavesLaws::true_name, crate::proofs::LeavesLaws::true_unary, crate::proofs::LeavesLaws::true_cast, crate::proofs::LeavesLaws::true_binary, crate::proofs::LeavesLaws::true_conditional, crate::proofs::LeavesLaws::true_with, crate::proofs::LeavesLaws::true_member, crate::proofs::LeavesLaws::true_null_member, crate::proofs::LeavesLaws::true_call, crate::proofs::LeavesLaws::true_index, crate::proofs::LeavesLaws::true_new, crate::proofs::LeavesLaws::true_empty_list, crate::proofs::LeavesLaws::true_static, crate::proofs::LeavesLaws::true_assign, crate::proofs::LeavesLaws::true_step, crate::proofs::LeavesLaws::true_lambda))]
fn is_true(a: &Expr) -> bool
    ensures { result ≡ spec.is_true a.now }
{
    match &a.kind {
        ExprKind::Bool(truth) => *truth,
        ExprKind::Int(_) => false,
        ExprKind::Text(_) => false,
        ExprKind::Null => false,
        ExprKind::Interpolated(_) => false,
        ExprKind::Name(_) => false,
        ExprKind::Unary(_, _) => false,
        ExprKind::Cast(_, _) => false,
        ExprKind::Binary(_, _, _) => false,
        ExprKind::Conditional(_, _, _) => false,
        ExprKind::With(_, _) => false,
        ExprKind::Member(_, _) => false,
        ExprKind::NullMember(_, _) => false,
        ExprKind::Call(_, _) => false,
        ExprKind::Index(_, _) => false,
        ExprKind::New(_, _) => false,
        ExprKind::EmptyList(_) => false,
        ExprKind::Static(_, _) => false,
        ExprKind::Assign(_, _, _) => false,
        ExprKind::Step(_, _) => false,
        ExprKind::Lambda(_, _) => false,
    }
}

fn always(test: &Option<Expr>) -> bool
    ensures { result ≡ spec.always (option_map spec.is_true test.now) }
{
    match test {
        Some(test) => is_true(test),
        None => true,
    }
}

#[cycle(leaves)]
#[tactic(auto, using(crate::proofs::LeavesLaws::or_on, crate::proofs::LeavesLaws::or_false, crate::proofs::LeavesLaws::and_on, crate::proofs::LeavesLaws::and_true))]
fn in_order(body: &[Stmt]) -> Leaves
    ensures breaks { result.breaks ≡ (spec.in_order (map spec.leaves body.now)).breaks }
    ensures ends { result.ends ≡ (spec.in_order (map spec.leaves body.now)).ends }
{
    let mut breaks = false;
    let mut ends = true;
    for one in body {
        let it = leaves_of(one);
        breaks = breaks || it.breaks;
        ends = ends && it.ends;
    }
    Leaves { breaks, ends }
}

#[cycle(leaves)]
fn looped(body: &Stmt, always: bool) -> Leaves
    ensures breaks { result.breaks ≡ (spec.looped always (spec.leaves body.now)).breaks }
    ensures ends { result.ends ≡ (spec.looped always (spec.leaves body.now)).ends }
{
    let it = leaves_of(body);
    Leaves {
        breaks: false,
        ends: !always || it.breaks,
    }
}

#[cycle(leaves)]
fn for_loop(start: &Option<Boxed<Stmt>>, body: &Stmt, always: bool) -> Leaves
    ensures breaks { result.breaks ≡ (spec.started (option_map spec.leaves start.now) (spec.looped always (spec.leaves body.now))).breaks }
    ensures ends { result.ends ≡ (spec.started (option_map spec.leaves start.now) (spec.looped always (spec.leaves body.now))).ends }
{
    let inner = looped(body, always);
    match start {
        Some(start) => {
            let it = leaves_of(start.get());
            Leaves {
                breaks: it.breaks,
                ends: it.ends && inner.ends,
            }
        }
        None => inner,
    }
}

/// What leaves the sections of a `switch`, and whether one has `default`.
#[derive(Clone, Copy, Debug)]
struct SectionLeaves {
    breaks: bool,
    ends: bool,
    default: bool,
}

#[cycle(leaves)]
#[tactic(auto, using(crate::proofs::LeavesLaws::section_leaves_law))]
fn section_leaves(section: &Section) -> SectionLeaves
    ensures breaks { result.breaks ≡ (spec.section_leaves section.now).breaks }
    ensures ends { result.ends ≡ (spec.section_leaves section.now).ends }
    ensures default { result.default ≡ (spec.section_leaves section.now).default }
{
    let it = in_order(section.body.as_slice());
    SectionLeaves {
        breaks: it.breaks,
        ends: it.ends,
        default: has_default(section.labels.as_slice()),
    }
}

#[cycle(leaves)]
#[tactic(auto, using(crate::proofs::LeavesLaws::or_on, crate::proofs::LeavesLaws::or_false))]
fn any_section(all: &[Section]) -> SectionLeaves
    ensures breaks { result.breaks ≡ (spec.any_section (map spec.section_leaves all.now)).breaks }
    ensures ends { result.ends ≡ (spec.any_section (map spec.section_leaves all.now)).ends }
    ensures default { result.default ≡ (spec.any_section (map spec.section_leaves all.now)).default }
{
    let mut breaks = false;
    let mut ends = false;
    let mut default = false;
    for section in all {
        let it = section_leaves(section);
        breaks = breaks || it.breaks;
        ends = ends || it.ends;
        default = default || it.default;
    }
    SectionLeaves {
        breaks,
        ends,
        default,
    }
}

#[cycle(leaves)]
fn switched(all: &[Section]) -> Leaves
    ensures breaks { result.breaks ≡ (spec.switched (spec.any_section (map spec.section_leaves all.now))).breaks }
    ensures ends { result.ends ≡ (spec.switched (spec.any_section (map spec.section_leaves all.now))).ends }
{
    let it = any_section(all);
    Leaves {
        breaks: false,
        ends: !it.default || (it.ends || it.breaks),
    }
}

#[cycle(leaves)]
fn branches(no: &Option<Boxed<Stmt>>, yes: &Stmt) -> Leaves
    ensures breaks { result.breaks ≡ (spec.branches (spec.leaves yes.now) (option_map spec.leaves no.now)).breaks }
    ensures ends { result.ends ≡ (spec.branches (spec.leaves yes.now) (option_map spec.leaves no.now)).ends }
{
    let first = leaves_of(yes);
    let second = match no {
        Some(no) => leaves_of(no.get()),
        None => plain(),
    };
    Leaves {
        breaks: first.breaks || second.breaks,
        ends: first.ends || second.ends,
    }
}

#[cycle(leaves)]
#[tactic(auto, using(crate::proofs::LeavesLaws::leaves_local, crate::proofs::LeavesLaws::leaves_empty, crate::proofs::LeavesLaws::leaves_block, crate::proofs::LeavesLaws::leaves_if, crate::proofs::LeavesLaws::leaves_while, crate::proofs::LeavesLaws::leaves_for_each, crate::proofs::LeavesLaws::leaves_switch, crate::proofs::LeavesLaws::leaves_break, crate::proofs::LeavesLaws::leaves_continue, crate::proofs::LeavesLaws::leaves_return, crate::proofs::LeavesLaws::leaves_expr, crate::proofs::LeavesLaws::leaves_await))]
fn leaves_of(one: &Stmt) -> Leaves
    ensures breaks { result.breaks ≡ (spec.leaves one.now).breaks }
    ensures ends { result.ends ≡ (spec.leaves one.now).ends }
{
    match &one.kind {
        StmtKind::Block(body) => in_order(body.as_slice()),
        StmtKind::If { yes, no, .. } => branches(no, yes.get()),
        StmtKind::While { condition, body } => looped(body.get(), is_true(condition)),
        StmtKind::For {
            start,
            condition,
            body,
            ..
        } => for_loop(start, body.get(), always(condition)),
        StmtKind::ForEach { body, .. } => looped(body.get(), false),
        StmtKind::Switch { sections, .. } => switched(sections.as_slice()),
        StmtKind::Break => jump(true),
        StmtKind::Continue => jump(false),
        StmtKind::Return(_) => jump(false),
        StmtKind::Local { .. } => plain(),
        StmtKind::Empty => plain(),
        StmtKind::Expr(_) => plain(),
        StmtKind::Await(_) => plain(),
    }
}

/// Whether the end of a body can be reached, where it returns nothing.
#[tactic(auto, using(crate::proofs::LeavesLaws::value_ends, crate::proofs::LeavesLaws::block_ends))]
pub fn reaches_end(body: &Body) -> bool
    ensures { result ≡ bodies.reaches_end body.now }
{
    match body {
        Body::Value(_) => false,
        Body::Block(body) => in_order(body.as_slice()).ends,
    }
}
