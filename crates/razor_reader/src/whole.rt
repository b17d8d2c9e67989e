// Reads the content of a whole file.
ghost use Rattle.std.specs.Prelude.{◌≡◌, Some};
ghost use Rattle.razor_reader.specs.WholeReading as spec;
ghost use Rattle.razor_reader.specs.Reading.{Gives};

use crate::content::{item_edge, with_text};
use crate::csharp::members;
use crate::fronts::{Front, after, literal_first, place_first};
use crate::item::item_first;
use crate::mark::{Mark, mark_of};
use crate::tokens::code_first;
use crate::unread::Unread;
use cs_ast::Member;
use razor_ast::TNode;
use razor_token::Piece;
use sqlite_items::Items;
use std::alloc::Global;
use text_core::{Place, Txt};

/// What a file has so far, and whether an edge stands right before what follows.
#[derive(Drop)]
pub struct Parts {
    pub disposes: bool,
    pub members: Items<Member>,
    pub nodes: Items<TNode>,
    pub number: u32,
    pub edge: bool,
}

/// The parts with an item more.
fn item<'a>(alloc: Global, all: &[Piece], parts: Parts, pieces: &'a [Piece]) -> Front<'a, Parts>
    ensures { Gives (λ x. (x.0, x.1.now)) result (spec.item all.now parts pieces.now) }
{
    let mut parts = parts;
    let (node, number, rest) = item_first(alloc, all, parts.number, pieces)?;
    parts.nodes.push(node)?;
    parts.number = number;
    Ok((parts, rest))
}

/// The parts with the members of `@code` behind its at sign.
fn code<'a>(alloc: Global, parts: Parts, pieces: &'a [Piece]) -> Front<'a, Parts>
    ensures { Gives (λ x. (x.0, x.1.now)) result (spec.code parts pieces.now) }
{
    let mut parts = parts;
    let (tokens, end) = code_first(alloc, pieces)?;
    let rest = after(end, Mark::ExpressionEnd)?;
    parts.members.append(members(alloc, &tokens, pieces)?)?;
    Ok((parts, rest))
}

/// The pieces behind a directive, of which the at sign is left out.
fn past_directive<'a>(alloc: Global, pieces: &'a [Piece]) -> Result<&'a [Piece], Unread>
    ensures { Gives (λ rest. rest.now) result (spec.past_directive pieces.now) }
{
    let (_, end) = code_first(alloc, pieces)?;
    after(end, Mark::DirectiveEnd)
}

/// The parts with `@code` or a directive.
fn edge<'a>(alloc: Global, parts: Parts, pieces: &'a [Piece]) -> Front<'a, Parts>
    ensures { Gives (λ x. (x.0, x.1.now)) result (spec.edge parts pieces.now) }
{
    let Some((p, rest)) = pieces.split_first() else {
        return Err(Unread::Syntax(0));
    };
    match mark_of(p) {
        Mark::MembersAt => code(alloc, parts, rest),
        Mark::Directive => Ok((parts, past_directive(alloc, rest)?)),
        Mark::Implements => {
            let mut parts = parts;
            parts.disposes = true;
            Ok((parts, rest))
        }
        _ => Err(Unread::Syntax(pieces.len())),
    }
}

/// The parts with a literal text before what stands behind it.
fn text(alloc: Global, parts: Parts, behind: bool, place: Place, said: Txt) -> Result<Parts, Unread>
    ensures { Gives (λ x. x) result (Some (spec.text parts behind place said)) }
{
    let Parts {
        disposes,
        members,
        nodes,
        number,
        edge,
    } = parts;
    let (nodes, number) = with_text(alloc, nodes, (edge, behind), number, place, said)?;
    Ok(Parts {
        disposes,
        members,
        nodes,
        number,
        edge: behind,
    })
}

/// The parts with a literal text and what stands behind it.
fn turn<'a>(alloc: Global, all: &[Piece], parts: Parts, pieces: &'a [Piece]) -> Front<'a, Parts>
    ensures { Gives (λ x. (x.0, x.1.now)) result (spec.turn all.now parts pieces.now) }
{
    let (said, rest) = literal_first(alloc, pieces)?;
    let place = place_first(pieces);
    match item_edge(rest) {
        Some(behind) => item(alloc, all, text(alloc, parts, behind, place, said)?, rest),
        None if rest.is_empty() => Ok((text(alloc, parts, true, place, said)?, rest)),
        None => edge(alloc, text(alloc, parts, true, place, said)?, rest),
    }
}

/// The parts of a file.
#[tactic(auto, unfolding(crate::specs::WholeReading::parts), using(crate::proofs::TurnLoops::whole_done, crate::proofs::TurnLoops::whole_left, crate::proofs::TurnLoops::whole_step, crate::proofs::TurnLoops::whole_stop))]
pub fn whole_parts(alloc: Global, all: &[Piece]) -> Result<Parts, Unread>
    ensures { Gives (λ x. x) result (spec.parts all.now) }
{
    let mut parts = Parts {
        disposes: false,
        members: Items::new(alloc),
        nodes: Items::new(alloc),
        number: 0,
        edge: true,
    };
    let mut rest = all;
    let mut left = all.len();
    while left > 0 {
        let (more, behind) = turn(alloc, all, parts, rest)?;
        parts = more;
        rest = behind;
        if rest.is_empty() {
            return Ok(parts);
        }
        left -= 1;
    }
    if rest.is_empty() {
        Ok(parts)
    } else {
        Err(Unread::Syntax(rest.len()))
    }
}
