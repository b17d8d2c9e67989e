// Goes on with code that has begun.
ghost use Rattle.std.specs.Prelude.{◌≡◌, Some};
ghost use Rattle.razor_reader.specs.GoingReading as spec;
ghost use Rattle.razor_reader.specs.Reading.{Gives};

use crate::frame::{Frame, Jumps, Next, OpenBlock, OpenContent, OpenSection, OpenSwitch, Wanted};
use crate::fronts::{Numbered, after, behind, has};
use crate::labels::{defaults, has_label, labels_first};
use crate::mark::Mark;
use crate::unread::Unread;
use cs_ast::{Expr, Stmt, StmtKind};
use razor_ast::{TNode, TSection};
use razor_token::Piece;
use sqlite_items::{Boxed, Items};
use std::alloc::Global;
use text_core::Place;

/// Whether a list of statements ends here.
fn ends(pieces: &[Piece]) -> bool
    ensures { result ≡ spec.ends pieces.now }
{
    has(pieces, Mark::CloseBrace) || has_label(pieces)
}

/// In a block: a statement, or its end.
pub fn block<'a>(begun: OpenBlock, number: u32, pieces: &'a [Piece]) -> Numbered<'a, Next>
    ensures { Gives (λ x. (x.0, x.1, x.2.now)) result (spec.block begun number pieces.now) }
{
    if !ends(pieces) {
        let jumps = begun.jumps;
        let next = Next::Inside(Frame::Block(begun), Wanted::Line(jumps));
        return Ok((next, number, pieces));
    }
    let rest = after(pieces, Mark::CloseBrace)?;
    let OpenBlock { place, found, .. } = begun;
    let node = TNode::Block {
        place,
        items: found,
    };
    Ok((Next::Done(node), number, rest))
}

fn leaves_by(a: &Stmt) -> bool
    ensures { result ≡ spec.leaves_by a.now }
{
    match &a.kind {
        StmtKind::Break | StmtKind::Return(_) => true,
        _ => false,
    }
}

fn node_leaves(node: &TNode) -> bool
    ensures { result ≡ spec.node_leaves node.now }
{
    match node {
        TNode::Statement(a) => leaves_by(a),
        _ => false,
    }
}

/// Whether the last of the nodes is a `break` or a `return`.
#[tactic(auto, using(crate::proofs::LeavingLemmas::leaves_last, crate::proofs::LeavingLemmas::leaves_none))]
fn leaves(found: &[TNode]) -> bool
    ensures { result ≡ spec.leaves found.now }
{
    match found.last() {
        Some(node) => node_leaves(node),
        None => false,
    }
}

/// The `switch` with the section that ends.
fn switch_with(begun: OpenSection) -> Result<OpenSwitch, Unread>
    ensures { Gives (λ x. x) result (Some (spec.switch_with begun)) }
{
    let OpenSection {
        mut before,
        labels,
        found,
    } = begun;
    before.sections.push(TSection {
        labels,
        items: found,
    })?;
    Ok(before)
}

/// In a section: a statement, or its end.
pub fn section<'a>(begun: OpenSection, number: u32, pieces: &'a [Piece]) -> Numbered<'a, Next>
    ensures { Gives (λ x. (x.0, x.1, x.2.now)) result (spec.section_on begun number pieces.now) }
{
    if !ends(pieces) {
        let jumps = begun.before.jumps;
        let next = Next::Inside(Frame::Section(begun), Wanted::Line(jumps));
        return Ok((next, number, pieces));
    }
    if !leaves(begun.found.as_slice()) {
        return Err(Unread::Syntax(pieces.len()));
    }
    Ok((Next::Switch(switch_with(begun)?), number, pieces))
}

/// The labels of a section, in a `switch` with room for the labels `default` among them.
fn labelled<'a>(
    alloc: Global,
    begun: OpenSwitch,
    number: u32,
    pieces: &'a [Piece],
) -> Numbered<'a, Next>
    ensures { Gives (λ x. (x.0, x.1, x.2.now)) result (spec.labelled begun number pieces.now) }
{
    let (labels, rest) = labels_first(alloc, pieces)?;
    let count = defaults(labels.as_slice());
    if count > begun.room {
        return Err(Unread::Syntax(pieces.len()));
    }
    let mut before = begun;
    before.room -= count;
    let section = OpenSection {
        before,
        labels,
        found: Items::new(alloc),
    };
    Ok((Next::Section(section), number, rest))
}

/// In a `switch`: a section, or its end.
pub fn switch<'a>(
    alloc: Global,
    begun: OpenSwitch,
    number: u32,
    pieces: &'a [Piece],
) -> Numbered<'a, Next>
    ensures { Gives (λ x. (x.0, x.1, x.2.now)) result (spec.switch begun number pieces.now) }
{
    if has_label(pieces) {
        return labelled(alloc, begun, number, pieces);
    }
    let rest = after(pieces, Mark::CloseBrace)?;
    let OpenSwitch {
        place,
        value,
        sections,
        ..
    } = begun;
    let node = TNode::Switch {
        place,
        value,
        sections,
    };
    Ok((Next::Done(node), number, rest))
}

/// The first branch of an `if`, and what is known of the whole.
struct Branch {
    braced: bool,
    place: Place,
    jumps: Jumps,
    condition: Expr,
    first: Boxed<TNode>,
}

/// Behind the first branch of an `if`: its second branch, or its end.
fn branched<'a>(branch: Branch, number: u32, pieces: &'a [Piece]) -> Numbered<'a, Next>
    ensures { Gives (λ x. (x.0, x.1, x.2.now)) result (spec.branched branch number pieces.now) }
{
    let Branch {
        braced,
        place,
        jumps,
        condition,
        first: yes,
    } = branch;
    match behind(pieces, Mark::Else) {
        Some(rest) => {
            let frame = Frame::No {
                place,
                condition,
                yes,
            };
            let next = Next::Inside(frame, Wanted::Otherwise { braced, jumps });
            Ok((next, number, rest))
        }
        None => {
            let node = TNode::If {
                place,
                condition,
                yes,
                no: None,
            };
            Ok((Next::Done(node), number, pieces))
        }
    }
}

/// Behind a part of content.
fn content_with(begun: OpenContent, node: TNode) -> Result<Next, Unread>
    ensures { Gives (λ x. x) result (Some (spec.content_with begun node)) }
{
    let mut begun = begun;
    begun.found.push(node)?;
    Ok(Next::Content(begun))
}

fn block_with(begun: OpenBlock, node: TNode) -> Result<Next, Unread>
    ensures { Gives (λ x. x) result (Some (spec.block_with begun node)) }
{
    let mut begun = begun;
    begun.found.push(node)?;
    Ok(Next::Block(begun))
}

fn section_with(begun: OpenSection, node: TNode) -> Result<Next, Unread>
    ensures { Gives (λ x. x) result (Some (spec.section_with begun node)) }
{
    let mut begun = begun;
    begun.found.push(node)?;
    Ok(Next::Section(begun))
}

/// Behind a part inside another one.
pub fn resume<'a>(
    alloc: Global,
    frame: Frame,
    node: TNode,
    number: u32,
    pieces: &'a [Piece],
) -> Numbered<'a, Next>
    ensures { Gives (λ x. (x.0, x.1, x.2.now)) result (spec.resume frame node number pieces.now) }
{
    let whole = match frame {
        Frame::Content(begun) => return Ok((content_with(begun, node)?, number, pieces)),
        Frame::Block(begun) => return Ok((block_with(begun, node)?, number, pieces)),
        Frame::Section(begun) => return Ok((section_with(begun, node)?, number, pieces)),
        Frame::Yes {
            braced,
            place,
            jumps,
            condition,
        } => {
            let branch = Branch {
                braced,
                place,
                jumps,
                condition,
                first: Boxed::new(alloc, node)?,
            };
            return branched(branch, number, pieces);
        }
        Frame::No {
            place,
            condition,
            yes,
        } => TNode::If {
            place,
            condition,
            yes,
            no: Some(Boxed::new(alloc, node)?),
        },
        Frame::While {
            number,
            place,
            condition,
        } => TNode::While {
            number,
            place,
            condition,
            body: Boxed::new(alloc, node)?,
        },
        Frame::For {
            number,
            place,
            start,
            condition,
            step,
        } => TNode::For {
            number,
            place,
            start,
            condition,
            step,
            body: Boxed::new(alloc, node)?,
        },
        Frame::ForEach {
            number,
            place,
            name,
            list,
        } => TNode::ForEach {
            number,
            place,
            name,
            list,
            body: Boxed::new(alloc, node)?,
        },
    };
    Ok((Next::Done(whole), number, pieces))
}
