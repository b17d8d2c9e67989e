// Reads the arguments of methods and the parts of records.
ghost use Rattle.cs_parse.specs.MemberReading as spec;
ghost use Rattle.cs_parse.specs.MemberReading.{arguments_first};
ghost use Rattle.cs_parse.specs.Reading.{Gives};

use crate::tokens::{Front, after, behind, name_first};
use crate::types::type_first;
use cs_ast::Argument;
use cs_token::{Sign, Token};
use sqlite_items::Items;
use std::alloc::Global;

/// Arguments or none, and the bracket that closes them.
pub fn argument_list<'a>(alloc: Global, tokens: &'a [Token]) -> Front<'a, Items<Argument>>
    ensures { Gives (λ x. (x.0, x.1.now)) result (spec.argument_list tokens.now) }
{
    match behind(tokens, Sign::CloseRound) {
        Some(rest) => Ok((Items::new(alloc), rest)),
        None => some_arguments(alloc, tokens),
    }
}

fn some_arguments<'a>(alloc: Global, tokens: &'a [Token]) -> Front<'a, Items<Argument>>
    ensures { Gives (λ x. (x.0, x.1.now)) result (spec.some_arguments tokens.now) }
{
    let (found, rest) = arguments_first(alloc, tokens)?;
    Ok((found, after(rest, Sign::CloseRound)?))
}

/// Arguments with commas between them.
fn arguments_first<'a>(alloc: Global, tokens: &'a [Token]) -> Front<'a, Items<Argument>>
    ensures { Gives (λ x. (x.0, x.1.now)) result (arguments_first tokens.now) }
{
    let mut found = Items::new(alloc);
    let mut left = tokens;
    loop {
        let (a, rest) = argument(alloc, left)?;
        found.push(a)?;
        match behind(rest, Sign::Comma) {
            Some(rest) => left = rest,
            None => return Ok((found, rest)),
        }
    }
}

fn argument<'a>(alloc: Global, tokens: &'a [Token]) -> Front<'a, Argument>
    ensures { Gives (λ x. (x.0, x.1.now)) result (spec.argument tokens.now) }
{
    let (cs_type, rest) = type_first(alloc, tokens)?;
    let (name, rest) = name_first(rest)?;
    Ok((Argument { cs_type, name }, rest))
}
