// Reads properties, and the parameters among them.
ghost use Rattle.std.specs.Prelude.{IsTrue};
ghost use Rattle.text_core.specs.Ascii.{is_ascii};
ghost use Rattle.cs_parse.specs.MemberReading as spec;
ghost use Rattle.cs_parse.specs.Reading.{Gives};

use crate::member::attributes::{Attribute, after_name};
use crate::member::bodies::value_first;
use crate::tokens::{Front, after, behind, name_first};
use crate::types::type_first;
use crate::unread::Unread;
use cs_ast::{Expr, Ident, MemberKind, TypeExpr};
use cs_token::{Sign, Token};
use std::alloc::Global;

/// The tokens behind a name and a semicolon.
fn accessor<'a>(tokens: &'a [Token], name: &str) -> Result<&'a [Token], Unread>
    requires { IsTrue (is_ascii name.now) }
    ensures { Gives (λ rest. rest.now) result (spec.accessor name.now tokens.now) }
{
    after(after_name(tokens, name)?, Sign::Semicolon)
}

/// The tokens behind `{ get; set; }`.
fn accessors<'a>(tokens: &'a [Token]) -> Result<&'a [Token], Unread>
    ensures { Gives (λ rest. rest.now) result (spec.accessors tokens.now) }
{
    let rest = after(tokens, Sign::OpenBrace)?;
    let rest = accessor(rest, "get")?;
    let rest = accessor(rest, "set")?;
    after(rest, Sign::CloseBrace)
}

/// An initial value and a semicolon, or nothing.
fn property_end<'a>(alloc: Global, tokens: &'a [Token]) -> Front<'a, Option<Expr>>
    ensures { Gives (λ x. (x.0, x.1.now)) result (spec.property_end tokens.now) }
{
    match behind(tokens, Sign::Assign) {
        Some(rest) => {
            let (a, rest) = value_first(alloc, rest)?;
            Ok((Some(a.into_inner()), rest))
        }
        None => Ok((None, tokens)),
    }
}

/// A property behind its name.
fn property<'a>(alloc: Global, tokens: &'a [Token]) -> Front<'a, Option<Expr>>
    ensures { Gives (λ x. (x.0, x.1.now)) result (spec.property tokens.now) }
{
    property_end(alloc, accessors(tokens)?)
}

/// A field that is a property, behind its name.
pub fn property_of<'a>(
    alloc: Global,
    cs_type: TypeExpr,
    name: Ident,
    tokens: &'a [Token],
) -> Front<'a, MemberKind>
    ensures { Gives (λ x. (x.0, x.1.now)) result (spec.property_of cs_type name tokens.now) }
{
    let (initial, rest) = property(alloc, tokens)?;
    let kind = MemberKind::Field {
        cs_type,
        name,
        initial,
    };
    Ok((kind, rest))
}

/// A parameter behind its attribute and its modifiers.
pub fn supplied<'a>(
    alloc: Global,
    attribute: Attribute,
    tokens: &'a [Token],
) -> Front<'a, MemberKind>
    ensures { Gives (λ x. (x.0, x.1.now)) result (spec.supplied attribute tokens.now) }
{
    let (cs_type, rest) = type_first(alloc, tokens)?;
    let (name, rest) = name_first(rest)?;
    let (initial, rest) = property(alloc, rest)?;
    let kind = MemberKind::Parameter {
        cascading: attribute.cascading,
        source: attribute.source,
        cs_type,
        name,
        initial,
    };
    Ok((kind, rest))
}
