// Reads whole items of content, over the frames that wait for their parts.
ghost use Rattle.std.specs.Prelude.{◌≡◌, reverse};
ghost use Rattle.razor_reader.specs.ItemReading as spec;
ghost use Rattle.razor_reader.specs.Reading.{Gives};

use crate::begin::begin;
use crate::content::content;
use crate::frame::{Frame, Next, Wanted};
use crate::fronts::Numbered;
use crate::go_on::{block, resume, section, switch};
use crate::unread::Unread;
use razor_ast::TNode;
use razor_token::Piece;
use std::alloc::Global;

/// What a turn comes to.
#[derive(Drop)]
pub enum Turn {
    /// A part that stands inside nothing is whole.
    Whole(TNode),
    Goes(Next),
}

/// What goes on.
fn going<'a>(next: Numbered<'a, Next>) -> Numbered<'a, Turn>
    ensures { spec.Goes next.entry result }
{
    let (next, number, rest) = next?;
    Ok((Turn::Goes(next), number, rest))
}

/// One turn, over the frames that wait, of which the last is innermost.
fn take_turn<'a>(
    alloc: Global,
    all: &[Piece],
    stack: &mut Vec<Frame>,
    next: Next,
    number: u32,
    pieces: &'a [Piece],
) -> Numbered<'a, Turn>
    ensures { Gives (λ x. (reverse stack.new.items, x.0, x.1, x.2.now)) result (spec.turn all.now (reverse stack.old.items) next number pieces.now) }
{
    match next {
        Next::Done(node) => match stack.pop() {
            Some(frame) => going(resume(alloc, frame, node, number, pieces)),
            None => Ok((Turn::Whole(node), number, pieces)),
        },
        Next::Inside(frame, wanted) => {
            stack.push(frame)?;
            going(begin(alloc, all, wanted, number, pieces))
        }
        Next::Content(begun) => going(content(alloc, begun, number, pieces)),
        Next::Block(begun) => going(block(begun, number, pieces)),
        Next::Switch(begun) => going(switch(alloc, begun, number, pieces)),
        Next::Section(begun) => going(section(begun, number, pieces)),
    }
}

/// More turns than reading these pieces takes.
fn turns(pieces: &[Piece]) -> usize
    ensures { result ≡ spec.turns_for pieces.now }
{
    4 * pieces.len() + 4
}

/// The part of content that stands first and isn't literal text. The pieces of the whole file say what is open round it.
#[tactic(auto, unfolding(crate::specs::ItemReading::item_first), using(crate::proofs::TurnLoops::turns_none, crate::proofs::TurnLoops::turns_fail, crate::proofs::TurnLoops::turns_whole, crate::proofs::TurnLoops::turns_turn))]
pub fn item_first<'a>(
    alloc: Global,
    all: &[Piece],
    number: u32,
    pieces: &'a [Piece],
) -> Numbered<'a, TNode>
    ensures { Gives (λ x. (x.0, x.1, x.2.now)) result (spec.item_first all.now number pieces.now) }
{
    let mut stack: Vec<Frame> = Vec::new(alloc);
    let (mut next, mut number, mut rest) = begin(alloc, all, Wanted::Item, number, pieces)?;
    let mut left = turns(pieces);
    while left > 0 {
        let (following, higher, behind) = take_turn(alloc, all, &mut stack, next, number, rest)?;
        match following {
            Turn::Whole(node) => return Ok((node, higher, behind)),
            Turn::Goes(following) => next = following,
        }
        number = higher;
        rest = behind;
        left -= 1;
    }
    Err(Unread::Syntax(rest.len()))
}
