// How a token goes on with the expression before it.
ghost use Rattle.std.specs.Prelude.{◌≡◌, ◌+◌, ◌*◌, length};
ghost use Rattle.cs_parse.specs.ExpressionReading as spec;
ghost use Rattle.cs_parse.specs.ExpressionReading.{reads};
ghost use Rattle.cs_parse.specs.Frames.{Leads, CostsUpTo};

use crate::expressions::forms::{member, null_member};
use crate::expressions::frame::{Callee, Form, Turn};
use crate::expressions::parts::{arguments, with_part};
use crate::tables::{Going, right_level};
use crate::tokens::{Front, after};
use crate::unread::Unread;
use cs_ast::Expr;
use cs_token::{Sign, Token};
use sqlite_items::{Boxed, Items};
use std::alloc::Global;
use text_core::Place;

/// The expression that goes on with the one before by what stands next, up to the next expression.
#[tactic(auto, using(crate::proofs::FrameLaws::call_law))]
pub fn further<'a>(
    alloc: Global,
    place: Place,
    a: Boxed<Expr>,
    going: Going,
    rest: &'a [Token],
) -> Front<'a, Turn>
    ensures read { Leads (spec.further reads place a going rest.now) result }
    ensures small { CostsUpTo (3 * length rest.now + 1) result }
{
    match going {
        Going::Conditional => {
            let form = Form::Second {
                place,
                condition: a,
            };
            Ok((Turn::Wanted(form, 0), rest))
        }
        Going::Operator(op) => {
            let form = Form::Binary { place, op, left: a };
            Ok((Turn::Wanted(form, right_level(op)), rest))
        }
        Going::With => with_some(alloc, place, a, rest),
        Going::NullMember => {
            let (a, rest) = null_member(alloc, place, a, rest)?;
            Ok((Turn::Found(a), rest))
        }
        Going::Member => {
            let (a, rest) = member(alloc, place, a, rest)?;
            Ok((Turn::Found(a), rest))
        }
        Going::Call => arguments(alloc, place, Callee::Function(a), rest),
        Going::Index => {
            let form = Form::Index { place, list: a };
            Ok((Turn::Wanted(form, 0), rest))
        }
        Going::Nothing => Err(Unread::Syntax(rest.len())),
    }
}

/// `{ N =`, behind `with`.
fn with_some<'a>(
    alloc: Global,
    place: Place,
    a: Boxed<Expr>,
    tokens: &'a [Token],
) -> Front<'a, Turn>
    ensures read { Leads (spec.with_some reads place a tokens.now) result }
    ensures small { CostsUpTo (3 * length tokens.now + 1) result }
{
    let rest = after(tokens, Sign::OpenBrace)?;
    with_part(place, a, Items::new(alloc), rest)
}
