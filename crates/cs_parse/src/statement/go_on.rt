// Goes on with statements that have begun.
ghost use Rattle.std.specs.Prelude.{◌≡◌};
ghost use Rattle.cs_parse.specs.Reading.{Gives};
ghost use Rattle.cs_parse.specs.StatementReading as spec;

use crate::statement::begin::begins;
use crate::statement::frame::{Frame, Jumps, Next, OpenBlock, OpenSection, OpenSwitch};
use crate::statement::labels::{defaults, has_label, labels_first};
use crate::statement::making::done;
use crate::statement::views::leaves;
use crate::statement::words::behind_word;
use crate::tokens::{Front, after};
use crate::unread::Unread;
use cs_ast::{Expr, Section, Stmt, StmtKind};
use cs_token::{Sign, Token, Word};
use sqlite_items::{Boxed, Items};
use std::alloc::Global;
use text_core::Place;

/// In a block: a statement, or its end.
pub fn block<'a>(alloc: Global, begun: OpenBlock, tokens: &'a [Token]) -> Front<'a, Next>
    ensures { Gives (λ x. (x.0, x.1.now)) result (spec.block begun tokens.now) }
{
    if begins(tokens) {
        let jumps = begun.jumps;
        return Ok((Next::Inside(Frame::Block(begun), jumps), tokens));
    }
    let rest = after(tokens, Sign::CloseBrace)?;
    let OpenBlock { place, found, .. } = begun;
    done(alloc, place, StmtKind::Block(found), rest)
}

/// In a section: a statement, or its end.
pub fn section<'a>(begun: OpenSection, tokens: &'a [Token]) -> Front<'a, Next>
    ensures { Gives (λ x. (x.0, x.1.now)) result (spec.section_on begun tokens.now) }
{
    if begins(tokens) {
        let jumps = begun.before.jumps;
        return Ok((Next::Inside(Frame::Section(begun), jumps), tokens));
    }
    if !leaves(begun.found.as_slice()) {
        return Err(Unread::Syntax(tokens.len()));
    }
    Ok((Next::Switch(switch_with(begun)?), tokens))
}

/// The `switch` with the section that ends.
fn switch_with(begun: OpenSection) -> Result<OpenSwitch, Unread>
    ensures { Gives (λ x. x) result (Some (spec.switch_with begun)) }
{
    let OpenSection {
        mut before,
        labels,
        found,
    } = begun;
    before.sections.push(Section {
        labels,
        body: found,
    })?;
    Ok(before)
}

/// In a `switch`: a section, or its end.
pub fn switch<'a>(alloc: Global, begun: OpenSwitch, tokens: &'a [Token]) -> Front<'a, Next>
    ensures { Gives (λ x. (x.0, x.1.now)) result (spec.switch begun tokens.now) }
{
    if has_label(tokens) {
        return labelled_section(alloc, begun, tokens);
    }
    let rest = after(tokens, Sign::CloseBrace)?;
    let OpenSwitch {
        place,
        value,
        sections,
        ..
    } = begun;
    let kind = StmtKind::Switch {
        value: value.into_inner(),
        sections,
    };
    done(alloc, place, kind, rest)
}

/// The labels of a section, in a `switch` with room for the labels `default` among them.
fn labelled_section<'a>(alloc: Global, begun: OpenSwitch, tokens: &'a [Token]) -> Front<'a, Next>
    ensures { Gives (λ x. (x.0, x.1.now)) result (spec.labels_on begun tokens.now) }
{
    let (labels, rest) = labels_first(alloc, tokens)?;
    let count = defaults(labels.as_slice());
    if count > begun.room {
        return Err(Unread::Syntax(tokens.len()));
    }
    let mut before = begun;
    before.room -= count;
    let section = OpenSection {
        before,
        labels,
        found: Items::new(alloc),
    };
    Ok((Next::Section(section), rest))
}

/// Behind the first branch of an `if`: its second branch, or its end.
fn otherwise<'a>(
    alloc: Global,
    place: Place,
    jumps: Jumps,
    condition: Boxed<Expr>,
    yes: Boxed<Stmt>,
    tokens: &'a [Token],
) -> Front<'a, Next>
    ensures { Gives (λ x. (x.0, x.1.now)) result (spec.otherwise place jumps condition yes tokens.now) }
{
    match behind_word(tokens, Word::Else) {
        Some(rest) => {
            let frame = Frame::No {
                place,
                condition,
                yes,
            };
            Ok((Next::Inside(frame, jumps), rest))
        }
        None => {
            let kind = StmtKind::If {
                condition: condition.into_inner(),
                yes,
                no: None,
            };
            done(alloc, place, kind, tokens)
        }
    }
}

/// Behind a statement inside another one.
pub fn resume<'a>(
    alloc: Global,
    frame: Frame,
    inner: Boxed<Stmt>,
    tokens: &'a [Token],
) -> Front<'a, Next>
    ensures { Gives (λ x. (x.0, x.1.now)) result (spec.resume frame inner tokens.now) }
{
    match frame {
        Frame::Yes {
            place,
            jumps,
            condition,
        } => otherwise(alloc, place, jumps, condition, inner, tokens),
        Frame::No {
            place,
            condition,
            yes,
        } => {
            let condition = condition.into_inner();
            let no = Some(inner);
            done(alloc, place, StmtKind::If { condition, yes, no }, tokens)
        }
        Frame::While { place, condition } => {
            let condition = condition.into_inner();
            let body = inner;
            done(alloc, place, StmtKind::While { condition, body }, tokens)
        }
        Frame::For {
            place,
            start,
            condition,
            step,
        } => {
            let kind = StmtKind::For {
                start,
                condition,
                step,
                body: inner,
            };
            done(alloc, place, kind, tokens)
        }
        Frame::ForEach { place, name, list } => {
            let list = list.into_inner();
            let body = inner;
            done(alloc, place, StmtKind::ForEach { name, list, body }, tokens)
        }
        Frame::Block(begun) => {
            let mut begun = begun;
            begun.found.push(inner.into_inner())?;
            Ok((Next::Block(begun), tokens))
        }
        Frame::Section(begun) => {
            let mut begun = begun;
            begun.found.push(inner.into_inner())?;
            Ok((Next::Section(begun), tokens))
        }
    }
}
