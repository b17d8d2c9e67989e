// The operations of nodes, by what their parts come to.
ghost use Rattle.std.specs.Prelude.{◌≡◌, [], ◌∷◌, ◌++◌, map, IfOk, OnOk};
ghost use Rattle.std.specs.List.{flat_map};
ghost use Rattle.cs_ast.specs.declared.cs_type.CsType.{out-CsType};
ghost use Rattle.cs_forms.specs.Agrees.{AgreesBy};
ghost use Rattle.drawing_meaning.specs.Nodes as act;
ghost use Rattle.drawing_meaning.specs.Tags as tags;
ghost use Rattle.drawing_meaning.specs.Turns as turns;
ghost use Rattle.frame_program.specs.Operations.{act_of, acts_of_section, appears_in, dressed_by, given_by};
ghost use Rattle.page_meaning.specs.Nodes as page;
ghost use Rattle.frame_parts.specs.Nodes as spec;

use crate::values::{Head, stated, value};
use cs_ast::{Code, CsType, Expr, Label, LabelKind, Scope, Stmt, StmtKind, Value};
use cs_check::Stated;
use cs_forms::CheckFault;
use cs_forms::labels::has_default;
use cs_rules::{Checked, ExprType};
use frame_core::Made;
use frame_program::{AttributePart, ContentForm, Operation, OperationSection, TagPart};
use sqlite_items::{Boxed, Items};
use std::alloc::Global;
use text_core::{Oom, Txt};

/// One operation alone.
fn alone(alloc: Global, operation: Operation) -> Result<Items<Operation>, Oom>
    ensures { IfOk result (λ all. all ≡ operation ∷ []) }
{
    let mut all = Items::new(alloc);
    all.push(operation)?;
    Ok(all)
}

#[tactic(auto, using(frame_program::proofs::OperationLaws::element_law))]
pub fn element(
    alloc: Global,
    number: u32,
    name: &Txt,
    attributes: Items<AttributePart>,
    children: Items<Operation>,
) -> Result<Items<Operation>, Oom>
    ensures { IfOk result (λ all. map act_of all ≡ act.element number name.now (map dressed_by attributes) (map act_of children) ∷ []) }
{
    let name = name.clone()?;
    alone(
        alloc,
        Operation::Element {
            number,
            name,
            attributes,
            children,
        },
    )
}

#[tactic(auto, using(frame_program::proofs::OperationLaws::child_law))]
pub fn child(
    alloc: Global,
    number: u32,
    made: Made,
    parts: Items<TagPart>,
) -> Result<Items<Operation>, Oom>
    ensures { IfOk result (λ all. map act_of all ≡ tags.component number made (map given_by parts) ∷ []) }
{
    alone(
        alloc,
        Operation::Child {
            number,
            made,
            parts,
        },
    )
}

#[tactic(auto, using(frame_program::proofs::OperationLaws::text_law))]
pub fn text(alloc: Global, number: u32, text: &Txt) -> Result<Items<Operation>, Oom>
    ensures { IfOk result (λ all. map act_of all ≡ act.text number text.now ∷ []) }
{
    let text = text.clone()?;
    alone(alloc, Operation::Text { number, text })
}

#[tactic(auto, using(frame_program::proofs::OperationLaws::raw_law))]
pub fn raw(alloc: Global, number: u32, text: &Txt) -> Result<Items<Operation>, Oom>
    ensures { IfOk result (λ all. map act_of all ≡ act.raw number text.now ∷ []) }
{
    let text = text.clone()?;
    alone(alloc, Operation::Raw { number, text })
}

#[tactic(auto, using(cs_rules::proofs::TypeLaws::out_int, cs_rules::proofs::TypeLaws::out_bool, cs_rules::proofs::TypeLaws::out_text, cs_rules::proofs::TypeLaws::out_rec, cs_rules::proofs::TypeLaws::out_list, cs_rules::proofs::TypeLaws::out_callback, cs_rules::proofs::TypeLaws::out_fragment, cs_rules::proofs::TypeLaws::out_change, cs_rules::proofs::TypeLaws::out_args, cs_rules::proofs::TypeLaws::out_nothing))]
fn form_of_type(cs_type: &CsType) -> ContentForm
    ensures { appears_in result ≡ page.appears_level (out-CsType cs_type.now) }
{
    match cs_type {
        CsType::Fragment(_) => ContentForm::Fragment,
        CsType::Int => ContentForm::Text,
        CsType::Bool => ContentForm::Text,
        CsType::Text => ContentForm::Text,
        CsType::Rec(_) => ContentForm::Text,
        CsType::List(_) => ContentForm::Text,
        CsType::Callback(_) => ContentForm::Text,
        CsType::Change => ContentForm::Text,
        CsType::Args => ContentForm::Text,
        CsType::Nothing => ContentForm::Text,
    }
}

/// How a value of a type is shown as content.
fn form_of(given: &ExprType) -> ContentForm
    ensures { appears_in result ≡ page.appears given.now }
{
    match given {
        ExprType::Of(cs_type) => form_of_type(cs_type),
        ExprType::Markup => ContentForm::Markup,
        ExprType::Null => ContentForm::Text,
    }
}

#[tactic(auto, using(frame_program::proofs::OperationLaws::content_law))]
fn shown(alloc: Global, number: u32, form: ContentForm, code: Code) -> Result<Items<Operation>, Oom>
    ensures { IfOk result (λ all. map act_of all ≡ act.content number (appears_in form) code ∷ []) }
{
    alone(alloc, Operation::Content { number, form, code })
}

/// An expression as content.
pub fn content(
    alloc: Global,
    scope: &Scope,
    number: u32,
    a: &Expr,
) -> Result<Items<Operation>, CheckFault>
    ensures { AgreesBy (λ all. map act_of all) result (spec.content scope.now number a.now) }
{
    let Checked {
        code,
        expr_type,
        ..
    } = value(alloc, scope, a)?.into_inner();
    let form = form_of(&expr_type);
    Ok(shown(alloc, number, form, code)?)
}

#[tactic(auto, using(frame_program::proofs::OperationLaws::statement_law))]
fn stated_code(alloc: Global, code: Code) -> Result<Items<Operation>, Oom>
    ensures { IfOk result (λ all. map act_of all ≡ act.statement code ∷ []) }
{
    alone(alloc, Operation::Statement(code))
}

#[tactic(auto, using(frame_program::proofs::OperationLaws::break_law))]
fn break_out(alloc: Global) -> Result<Items<Operation>, Oom>
    ensures { IfOk result (λ all. map act_of all ≡ act.break_out ∷ []) }
{
    alone(alloc, Operation::Break)
}

fn plain(alloc: Global, scope: &Scope, one: &Stmt) -> Result<Items<Operation>, CheckFault>
    ensures { AgreesBy (λ all. map act_of all) result (spec.plain_statement scope.now one.now) }
{
    let Stated { code, .. } = stated(alloc, scope, one)?.into_inner();
    Ok(stated_code(alloc, code)?)
}

/// A statement without statements in it.
#[tactic(auto, using(crate::proofs::StatementLaws::local_statement, crate::proofs::StatementLaws::empty_statement, crate::proofs::StatementLaws::block_statement, crate::proofs::StatementLaws::if_statement, crate::proofs::StatementLaws::while_statement, crate::proofs::StatementLaws::for_statement, crate::proofs::StatementLaws::for_each_statement, crate::proofs::StatementLaws::switch_statement, crate::proofs::StatementLaws::break_statement, crate::proofs::StatementLaws::continue_statement, crate::proofs::StatementLaws::return_statement, crate::proofs::StatementLaws::expr_statement, crate::proofs::StatementLaws::await_statement))]
pub fn statement(alloc: Global, scope: &Scope, one: &Stmt) -> Result<Items<Operation>, CheckFault>
    ensures { AgreesBy (λ all. map act_of all) result (spec.statement_form scope.now one.now) }
{
    match &one.kind {
        StmtKind::Break => Ok(break_out(alloc)?),
        StmtKind::Local { .. } => plain(alloc, scope, one),
        StmtKind::Empty => plain(alloc, scope, one),
        StmtKind::Block(_) => plain(alloc, scope, one),
        StmtKind::If { .. } => plain(alloc, scope, one),
        StmtKind::While { .. } => plain(alloc, scope, one),
        StmtKind::For { .. } => plain(alloc, scope, one),
        StmtKind::ForEach { .. } => plain(alloc, scope, one),
        StmtKind::Switch { .. } => plain(alloc, scope, one),
        StmtKind::Continue => plain(alloc, scope, one),
        StmtKind::Return(_) => plain(alloc, scope, one),
        StmtKind::Expr(_) => plain(alloc, scope, one),
        StmtKind::Await(_) => plain(alloc, scope, one),
    }
}

#[tactic(auto, using(frame_program::proofs::OperationLaws::block_law))]
pub fn block(alloc: Global, operations: Items<Operation>) -> Result<Items<Operation>, Oom>
    ensures { IfOk result (λ all. map act_of all ≡ act.block (map act_of operations) ∷ []) }
{
    alone(alloc, Operation::Block(operations))
}

#[tactic(auto, using(frame_program::proofs::OperationLaws::if_law))]
pub fn branch(
    alloc: Global,
    test: Code,
    holds: Items<Operation>,
    fails: Items<Operation>,
) -> Result<Items<Operation>, Oom>
    ensures { IfOk result (λ all. map act_of all ≡ act.branch test (map act_of holds) (map act_of fails) ∷ []) }
{
    alone(alloc, Operation::If { test, holds, fails })
}

#[tactic(auto, using(frame_program::proofs::OperationLaws::switch_law))]
pub fn switch(
    alloc: Global,
    value: Code,
    sections: Items<OperationSection>,
) -> Result<Items<Operation>, Oom>
    ensures { IfOk result (λ all. map act_of all ≡ act.switch value (map acts_of_section sections) ∷ []) }
{
    alone(alloc, Operation::Switch { value, sections })
}

/// The constant of a label, if it has one, behind others.
fn push_constant(kind: &LabelKind, constants: &mut Items<Value>) -> Result<(), Oom>
    ensures { OnOk result (constants.new ≡ constants.old ++ page.constant_of kind.now) }
{
    match kind {
        LabelKind::Int(number) => Ok(constants.push(Value::Int(*number))?),
        LabelKind::Bool(holds) => Ok(constants.push(Value::Bool(*holds))?),
        LabelKind::Text(text) => Ok(constants.push(Value::Text(text.clone()?))?),
        LabelKind::Null => Ok(constants.push(Value::Null)?),
        LabelKind::Default => Ok(()),
    }
}

/// The constants of labels.
fn constants(alloc: Global, labels: &[Label]) -> Result<Items<Value>, Oom>
    ensures { IfOk result (λ all. all ≡ flat_map (λ one. page.constant_of one.kind) labels.now) }
{
    let mut all = Items::new(alloc);
    for one in labels {
        push_constant(&one.kind, &mut all)?;
    }
    Ok(all)
}

/// A section of a `switch`.
#[tactic(auto, using(frame_program::proofs::OperationLaws::section_law))]
pub fn section(
    alloc: Global,
    labels: &[Label],
    operations: Items<Operation>,
) -> Result<OperationSection, Oom>
    ensures { IfOk result (λ one. acts_of_section one ≡ spec.section_of labels.now (map act_of operations)) }
{
    Ok(OperationSection {
        constants: constants(alloc, labels)?,
        otherwise: has_default(labels),
        operations,
    })
}

#[tactic(auto, using(frame_program::proofs::OperationLaws::while_law))]
pub fn while_loop(
    alloc: Global,
    number: u32,
    test: Code,
    keyed: Option<u32>,
    body: Items<Operation>,
) -> Result<Items<Operation>, Oom>
    ensures { IfOk result (λ all. map act_of all ≡ turns.while_loop number test keyed (map act_of body) ∷ []) }
{
    alone(
        alloc,
        Operation::While {
            number,
            test,
            keyed,
            body,
        },
    )
}

#[tactic(auto, using(frame_program::proofs::OperationLaws::for_law))]
pub fn for_loop(
    alloc: Global,
    number: u32,
    head: Boxed<Head>,
    keyed: Option<u32>,
    body: Items<Operation>,
) -> Result<Items<Operation>, Oom>
    ensures { IfOk result (λ all. map act_of all ≡ turns.for_loop number head.start head.test head.step keyed (map act_of body) ∷ []) }
{
    let Head { start, test, step } = head.into_inner();
    alone(
        alloc,
        Operation::For {
            number,
            start,
            test,
            step,
            keyed,
            body,
        },
    )
}

#[tactic(auto, using(frame_program::proofs::OperationLaws::for_each_law))]
pub fn for_each(
    alloc: Global,
    number: u32,
    list: Code,
    keyed: Option<u32>,
    body: Items<Operation>,
) -> Result<Items<Operation>, Oom>
    ensures { IfOk result (λ all. map act_of all ≡ turns.for_each number list keyed (map act_of body) ∷ []) }
{
    alone(
        alloc,
        Operation::ForEach {
            number,
            list,
            keyed,
            body,
        },
    )
}
