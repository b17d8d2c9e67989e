// What each form of operation makes.
ghost use Rattle.std.specs.Prelude.{◌≡◌, ◌≤◌, map};
ghost use Rattle.std.specs.Option.{option_copied};
ghost use Rattle.cs_meaning.specs.State.{Fields};
ghost use Rattle.drawing_meaning.specs.Nodes as spec;
ghost use Rattle.drawing_meaning.specs.Stages.{Stage};
ghost use Rattle.frame_program.specs.Operations.{act_of, acts_of_section};
ghost use Rattle.frame_run.specs.Agrees.{Agrees, reached, stage_in};

use crate::charging::pay;
use crate::children::scoped;
use crate::contents::{content, literal, raw};
use crate::elements::element;
use crate::evaluating::{truth_of, value_of};
use crate::exit::Exit;
use crate::progress::{Around, Progress};
use crate::sections::operations_for;
use crate::tags::component;
use crate::turns::{for_each, for_loop, while_loop};
use cs_ast::Code;
use cs_eval::Owners;
use drawing_meaning::Output;
use frame_program::{Operation, OperationSection};
use sqlite_items::Items;

/// Code that may be absent.
fn as_code(code: &Option<Code>) -> Option<&Code>
    ensures { option_copied result ≡ code.now }
{
    match code {
        Some(code) => Some(code),
        None => None,
    }
}

/// A statement, which makes nothing.
#[tactic(auto, unfolding(drawing_meaning::specs::Nodes::statement))]
fn statement<O: Owners>(
    around: &Around<'_>,
    code: &Code,
    progress: &mut Progress,
    owners: &O,
) -> Result<Output, Exit>
    ensures means { Agrees result (reached progress.new (O.fields owners.now))
        (spec.statement code.now (stage_in around.now (O.parameters owners.now)) (reached progress.old (O.fields owners.now))) }
    ensures spent { progress.new.left ≤ progress.old.left }
{
    value_of(around, code, progress, owners)?;
    Ok(Output {
        items: Items::new(around.alloc),
        broke: false,
    })
}

/// A `break` of a `switch`.
#[tactic(auto, unfolding(drawing_meaning::specs::Nodes::break_out))]
fn break_out(around: &Around<'_>, progress: &mut Progress) -> Result<Output, Exit>
    ensures means { (fields : Fields) (stage : Stage) → Agrees result (reached progress.new fields) (spec.break_out stage (reached progress.old fields)) }
    ensures spent { progress.new.left ≤ progress.old.left }
{
    pay(progress)?;
    Ok(Output {
        items: Items::new(around.alloc),
        broke: true,
    })
}

/// Operations in a scope of their own.
#[cycle(drawing)]
#[tactic(auto, unfolding(drawing_meaning::specs::Nodes::block))]
fn block<O: Owners>(
    around: &Around<'_>,
    operations: &[Operation],
    progress: &mut Progress,
    owners: &O,
) -> Result<Output, Exit>
    ensures means { Agrees result (reached progress.new (O.fields owners.now))
        (spec.block (map act_of operations.now) (stage_in around.now (O.parameters owners.now)) (reached progress.old (O.fields owners.now))) }
    ensures spent { progress.new.left ≤ progress.old.left }
{
    pay(progress)?;
    scoped(around, operations, progress, owners)
}

/// One of two by a test.
#[cycle(drawing)]
#[tactic(auto, unfolding(drawing_meaning::specs::Nodes::branch))]
fn branch<O: Owners>(
    around: &Around<'_>,
    test: &Code,
    holds: &[Operation],
    fails: &[Operation],
    progress: &mut Progress,
    owners: &O,
) -> Result<Output, Exit>
    ensures means { Agrees result (reached progress.new (O.fields owners.now))
        (spec.branch test.now (map act_of holds.now) (map act_of fails.now) (stage_in around.now (O.parameters owners.now)) (reached progress.old (O.fields owners.now))) }
    ensures spent { progress.new.left ≤ progress.old.left }
{
    pay(progress)?;
    if truth_of(around, test, progress, owners)? {
        scoped(around, holds, progress, owners)
    } else {
        scoped(around, fails, progress, owners)
    }
}

/// The section that a value selects, whose `break` ends it.
#[cycle(drawing)]
#[tactic(auto, unfolding(drawing_meaning::specs::Nodes::switch))]
fn switch<O: Owners>(
    around: &Around<'_>,
    value: &Code,
    sections: &[OperationSection],
    progress: &mut Progress,
    owners: &O,
) -> Result<Output, Exit>
    ensures means { Agrees result (reached progress.new (O.fields owners.now))
        (spec.switch value.now (map acts_of_section sections.now) (stage_in around.now (O.parameters owners.now)) (reached progress.old (O.fields owners.now))) }
    ensures spent { progress.new.left ≤ progress.old.left }
{
    pay(progress)?;
    let value = value_of(around, value, progress, owners)?;
    let operations = operations_for(&value, sections);
    let out = scoped(around, operations, progress, owners)?;
    Ok(Output {
        items: out.items,
        broke: false,
    })
}

/// What an operation makes.
#[cycle(drawing)]
pub(crate) fn draw<O: Owners>(
    around: &Around<'_>,
    operation: &Operation,
    progress: &mut Progress,
    owners: &O,
) -> Result<Output, Exit>
    ensures means { Agrees result (reached progress.new (O.fields owners.now))
        (act_of operation.now (stage_in around.now (O.parameters owners.now)) (reached progress.old (O.fields owners.now))) }
    ensures spent { progress.new.left ≤ progress.old.left }
{
    match operation {
        Operation::Element {
            number,
            name,
            attributes,
            children,
        } => {
            let (attributes, children) = (attributes.as_slice(), children.as_slice());
            element(
                around, *number, name, attributes, children, progress, owners,
            )
        }
        Operation::Child {
            number,
            made,
            parts,
        } => component(around, *number, made, parts.as_slice(), progress, owners),
        Operation::Text { number, text } => literal(around, *number, text, progress),
        Operation::Raw { number, text } => raw(around, *number, text, progress),
        Operation::Content { number, form, code } => {
            content(around, *number, *form, code, progress, owners)
        }
        Operation::Statement(code) => statement(around, code, progress, owners),
        Operation::Break => break_out(around, progress),
        Operation::Block(operations) => block(around, operations.as_slice(), progress, owners),
        Operation::If { test, holds, fails } => {
            branch(
                around,
                test,
                holds.as_slice(),
                fails.as_slice(),
                progress,
                owners,
            )
        }
        Operation::Switch { value, sections } => {
            switch(around, value, sections.as_slice(), progress, owners)
        }
        Operation::For {
            number,
            start,
            test,
            step,
            keyed,
            body,
        } => {
            let (start, test, step) = (as_code(start), as_code(test), as_code(step));
            let body = body.as_slice();
            for_loop(
                around, *number, start, test, step, *keyed, body, progress, owners,
            )
        }
        Operation::ForEach {
            number,
            list,
            keyed,
            body,
        } => for_each(
            around,
            *number,
            list,
            *keyed,
            body.as_slice(),
            progress,
            owners,
        ),
        Operation::While {
            number,
            test,
            keyed,
            body,
        } => while_loop(
            around,
            *number,
            test,
            *keyed,
            body.as_slice(),
            progress,
            owners,
        ),
    }
}
