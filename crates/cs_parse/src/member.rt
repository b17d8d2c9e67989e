// Reads members.
ghost use Rattle.cs_parse.specs.MemberReading as spec;
ghost use Rattle.cs_parse.specs.Reading.{Gives};

mod arguments;
mod attributes;
pub mod bodies;
pub mod kinds;
mod properties;

use crate::member::attributes::{attribute_first, unmodified};
use crate::member::kinds::declared;
use crate::member::properties::supplied;
use crate::tokens::{Front, behind};
use crate::unread::Unread;
use cs_ast::{Member, MemberKind};
use cs_token::{Sign, Token};
use sqlite_items::Items;
use std::alloc::Global;

/// The tokens as members.
pub fn whole_members(alloc: Global, tokens: &[Token]) -> Result<Items<Member>, Unread>
    ensures { Gives (λ a. a) result (spec.whole_members tokens.now) }
{
    let mut found = Items::new(alloc);
    let mut left = tokens;
    while !left.is_empty() {
        let (a, rest) = member(alloc, left)?;
        found.push(a)?;
        left = rest;
    }
    Ok(found)
}

/// The member that stands first.
fn member<'a>(alloc: Global, tokens: &'a [Token]) -> Front<'a, Member>
    ensures { Gives (λ x. (x.0, x.1.now)) result (spec.member tokens.now) }
{
    let Some(t) = tokens.first() else {
        return Err(Unread::Syntax(0));
    };
    let (kind, rest) = kind_first(alloc, tokens)?;
    let place = t.place;
    Ok((Member { place, kind }, rest))
}

fn kind_first<'a>(alloc: Global, tokens: &'a [Token]) -> Front<'a, MemberKind>
    ensures { Gives (λ x. (x.0, x.1.now)) result (spec.kind_first tokens.now) }
{
    match behind(tokens, Sign::OpenSquare) {
        Some(rest) => parameter(alloc, rest),
        None => declared(alloc, unmodified(tokens)),
    }
}

fn parameter<'a>(alloc: Global, tokens: &'a [Token]) -> Front<'a, MemberKind>
    ensures { Gives (λ x. (x.0, x.1.now)) result (spec.parameter tokens.now) }
{
    let (attribute, rest) = attribute_first(tokens)?;
    supplied(alloc, attribute, unmodified(rest))
}
