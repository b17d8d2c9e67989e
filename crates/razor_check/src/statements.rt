// Statements in templates, and the locals that they declare.
ghost use Rattle.std.specs.Prelude.{◌≡◌, map, Some, IfOk, OnOk};
ghost use Rattle.std.specs.Option.{option_copied};
ghost use Rattle.cs_ast.specs.declared.expression.StmtKind.{out-StmtKind};
ghost use Rattle.cs_rules.specs.Statements.{done};
ghost use Rattle.cs_check.specs.Views.{behind as behind_scope};
ghost use Rattle.cs_forms.specs.Agrees.{AgreesBy};
ghost use Rattle.cs_forbidden.specs.Trees as forbidden_spec;
ghost use Rattle.razor_rules.specs.Findings.{also, found as found_in};
ghost use Rattle.razor_rules.specs.Grounds as grounds;
ghost use Rattle.razor_rules.specs.Parts.{next};
ghost use Rattle.razor_rules.specs.Templates as spec;
ghost use Rattle.razor_rules.specs.Templates.{part_of};
ghost use Rattle.razor_parts.specs.Views.{home_of};
ghost use Rattle.razor_check.specs.Going as going;

use crate::ground::mark_of;
use cs_ast::{Named, Stmt, StmtKind};
use cs_check::{Stated, check_statement_with};
use cs_forbidden::Mark;
use cs_forms::CheckFault;
use cs_rules::Rule;
use razor_ast::TNode;
use razor_parts::deeds::{any, changing, node};
use razor_parts::home::Home;
use razor_rules::Ground;
use rule_findings::Findings;
use sqlite_items::Items;
use std::alloc::Global;
use text_core::{Oom, Txt};

/// What a statement comes to.
pub fn stated(alloc: Global, g: &Ground, one: &Stmt) -> Result<Stated, CheckFault>
    ensures { AgreesBy (λ it. done (behind_scope g.now.scope it.locals) it.code) result (forbidden_spec.statement g.now.forbidden one.now g.now.scope) }
{
    check_statement_with(alloc, one, &g.scope, &g.forbidden)
}

#[tactic(auto, using(razor_rules::proofs::FirstLaws::also_nothing))]
fn note_statement(home: &Home<'_>, g: &Ground, one: &Stmt, found: &mut Findings) -> Result<(), Oom>
    ensures { OnOk result (found.new.first ≡ also found.old.first (found_in (forbidden_spec.statement g.now.forbidden one.now g.now.scope))) }
{
    match stated(home.alloc, g, one) {
        Ok(_) => Ok(()),
        Err(CheckFault::Broken { rule, place }) => {
            found.add(rule, place);
            Ok(())
        }
        Err(CheckFault::Oom) => Err(Oom),
    }
}

/// A statement without statements in it.
#[tactic(auto, using(crate::proofs::StatementLaws::local_statement, crate::proofs::StatementLaws::empty_statement, crate::proofs::StatementLaws::block_statement, crate::proofs::StatementLaws::if_statement, crate::proofs::StatementLaws::while_statement, crate::proofs::StatementLaws::for_statement, crate::proofs::StatementLaws::for_each_statement, crate::proofs::StatementLaws::switch_statement, crate::proofs::StatementLaws::break_statement, crate::proofs::StatementLaws::continue_statement, crate::proofs::StatementLaws::return_statement, crate::proofs::StatementLaws::expr_statement, crate::proofs::StatementLaws::await_statement))]
pub fn statement_rules(
    home: &Home<'_>,
    g: &Ground,
    one: &Stmt,
    found: &mut Findings,
) -> Result<(), Oom>
    ensures { OnOk result (found.new.first ≡ also found.old.first (spec.statement_level (out-StmtKind one.now.kind) one.now g.now)) }
{
    match &one.kind {
        StmtKind::Break => {
            found.add_unless(g.in_switch, Rule::LoopJump, one.place);
            Ok(())
        }
        StmtKind::Continue => {
            found.add(Rule::LoopJump, one.place);
            Ok(())
        }
        StmtKind::Return(_) => {
            found.add(Rule::LoopJump, one.place);
            Ok(())
        }
        StmtKind::Local { .. } => note_statement(home, g, one, found),
        StmtKind::Empty => note_statement(home, g, one, found),
        StmtKind::Block(_) => note_statement(home, g, one, found),
        StmtKind::If { .. } => note_statement(home, g, one, found),
        StmtKind::While { .. } => note_statement(home, g, one, found),
        StmtKind::For { .. } => note_statement(home, g, one, found),
        StmtKind::ForEach { .. } => note_statement(home, g, one, found),
        StmtKind::Switch { .. } => note_statement(home, g, one, found),
        StmtKind::Expr(_) => note_statement(home, g, one, found),
        StmtKind::Await(_) => note_statement(home, g, one, found),
    }
}

/// The name of the local that a statement declares.
#[tactic(auto, using(crate::proofs::StatementLaws::local_declared, crate::proofs::StatementLaws::empty_declared, crate::proofs::StatementLaws::block_declared, crate::proofs::StatementLaws::if_declared, crate::proofs::StatementLaws::while_declared, crate::proofs::StatementLaws::for_declared, crate::proofs::StatementLaws::for_each_declared, crate::proofs::StatementLaws::switch_declared, crate::proofs::StatementLaws::break_declared, crate::proofs::StatementLaws::continue_declared, crate::proofs::StatementLaws::return_declared, crate::proofs::StatementLaws::expr_declared, crate::proofs::StatementLaws::await_declared))]
pub fn declared_by(one: &Stmt) -> Option<&Txt>
    ensures { option_copied result ≡ spec.declared_by one.now }
{
    match &one.kind {
        StmtKind::Local { name, .. } => Some(&name.name),
        StmtKind::Break => None,
        StmtKind::Continue => None,
        StmtKind::Return(_) => None,
        StmtKind::Empty => None,
        StmtKind::Block(_) => None,
        StmtKind::If { .. } => None,
        StmtKind::While { .. } => None,
        StmtKind::For { .. } => None,
        StmtKind::ForEach { .. } => None,
        StmtKind::Switch { .. } => None,
        StmtKind::Expr(_) => None,
        StmtKind::Await(_) => None,
    }
}

/// Puts the locals of a statement in scope, with a mark.
pub fn push_locals(g: &mut Ground, locals: Items<Named>, mark: Mark) -> Result<(), Oom>
    ensures does { OnOk result (g.new ≡ grounds.behind_local g.old (behind_scope g.old.scope locals) mark) }
    ensures kept { OnOk result (going.Kept g.old g.new) }
{
    g.scope.names.append(locals)?;
    g.marks.push(mark)?;
    Ok(())
}

/// What is declared for these nodes behind a statement.
fn declare_for(
    home: &Home<'_>,
    g: &mut Ground,
    one: &Stmt,
    others: &[TNode],
    locals: Items<Named>,
) -> Result<(), Oom>
    ensures does { OnOk result (g.new ≡ next (spec.declared_by one.now) (map (part_of (home_of home.now)) others.now) g.old (behind_scope g.old.scope locals)) }
    ensures kept { OnOk result (going.Kept g.old g.new) }
{
    match declared_by(one) {
        None => Ok(()),
        Some(name) => {
            let deed = changing(home.alloc, name)?;
            let assigned = any(home, &deed, others)?;
            push_locals(g, locals, mark_of(assigned))
        }
    }
}

/// Goes behind a statement; whether what is there is to be looked at.
fn behind_statement(
    home: &Home<'_>,
    g: &mut Ground,
    one: &Stmt,
    others: &[TNode],
) -> Result<bool, Oom>
    ensures goes { IfOk result (λ go. go ≡ going.is_fine (going.behind_statement one.now (map (part_of (home_of home.now)) others.now) g.old)) }
    ensures does { OnOk result (g.new ≡ going.ground_or (going.behind_statement one.now (map (part_of (home_of home.now)) others.now) g.old) g.old) }
    ensures kept { OnOk result (going.Kept g.old g.new) }
{
    match stated(home.alloc, g, one) {
        Ok(it) => {
            declare_for(home, g, one, others, it.locals)?;
            Ok(true)
        }
        Err(CheckFault::Broken { .. }) => Ok(false),
        Err(CheckFault::Oom) => Err(Oom),
    }
}

/// Goes behind a node; whether what is there is to be looked at.
#[tactic(auto, using(crate::proofs::BehindLaws::element_behind, crate::proofs::BehindLaws::element_declares, crate::proofs::BehindLaws::child_behind, crate::proofs::BehindLaws::child_declares, crate::proofs::BehindLaws::text_behind, crate::proofs::BehindLaws::text_declares, crate::proofs::BehindLaws::raw_behind, crate::proofs::BehindLaws::raw_declares, crate::proofs::BehindLaws::content_behind, crate::proofs::BehindLaws::content_declares, crate::proofs::BehindLaws::group_behind, crate::proofs::BehindLaws::group_declares, crate::proofs::BehindLaws::statement_behind, crate::proofs::BehindLaws::statement_declares, crate::proofs::BehindLaws::block_behind, crate::proofs::BehindLaws::block_declares, crate::proofs::BehindLaws::if_behind, crate::proofs::BehindLaws::if_declares, crate::proofs::BehindLaws::switch_behind, crate::proofs::BehindLaws::switch_declares, crate::proofs::BehindLaws::for_behind, crate::proofs::BehindLaws::for_declares, crate::proofs::BehindLaws::for_each_behind, crate::proofs::BehindLaws::for_each_declares, crate::proofs::BehindLaws::while_behind, crate::proofs::BehindLaws::while_declares))]
pub fn behind(home: &Home<'_>, g: &mut Ground, one: &TNode, others: &[TNode]) -> Result<bool, Oom>
    ensures goes { IfOk result (λ go. go ≡ going.is_fine (going.behind_part (part_of (home_of home.now) one.now) (map (part_of (home_of home.now)) others.now) g.old)) }
    ensures does { OnOk result (g.new ≡ going.ground_or (going.behind_part (part_of (home_of home.now) one.now) (map (part_of (home_of home.now)) others.now) g.old) g.old) }
    ensures kept { OnOk result (going.Kept g.old g.new) }
{
    match one {
        TNode::Statement(one) => behind_statement(home, g, one, others),
        TNode::Element { .. } => Ok(true),
        TNode::Child { .. } => Ok(true),
        TNode::Text { .. } => Ok(true),
        TNode::Raw { .. } => Ok(true),
        TNode::Content { .. } => Ok(true),
        TNode::Group { .. } => Ok(true),
        TNode::Block { .. } => Ok(true),
        TNode::If { .. } => Ok(true),
        TNode::Switch { .. } => Ok(true),
        TNode::For { .. } => Ok(true),
        TNode::ForEach { .. } => Ok(true),
        TNode::While { .. } => Ok(true),
    }
}
