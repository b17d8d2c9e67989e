// The code behind the content: `@code { .. }` with fields and methods.
ghost use Rattle.std.specs.Prelude.{◌≡◌, ◌≤◌, length, IfOk, IfSome, MatchOption};
ghost use Rattle.first_click.specs.Code.{IsBlock, Declares, Closes};
ghost use Rattle.first_click.specs.Reading.Code.{are_braces};

use super::component::{Field, Method};
use super::members::{are_named_well, fields_of, members_of};
use super::nesting::is_shallow;
use super::pieces::{Reached, after};
use super::statements::methods_of;
use super::tokens::tokens_of;
use sqlite_items::Items;
use std::alloc::Global;
use text_core::{Oom, Txt};

/// What a block of code declares.
#[derive(Debug, Drop)]
pub struct CodeBlock {
    pub fields: Items<Field>,
    pub methods: Items<Method>,
}

/// Whether these are the tokens round a block.
fn are_braces(first: &Txt, last: &Txt) -> bool
    ensures { result ≡ are_braces first.now last.now }
{
    first.is("{") && last.is("}")
}

/// The tokens between the braces of a block, where all tokens are one.
fn body_of(tokens: &[Txt]) -> Option<&[Txt]>
    ensures { MatchOption result ((body : _) → IsBlock tokens.now body → ⊥) (λ body. IsBlock tokens.now body.now) }
{
    match tokens {
        [first, body @ .., last] => {
            if are_braces(first, last) {
                Some(body)
            } else {
                None
            }
        }
        _ => None,
    }
}

/// What the tokens between the braces declare, if they are members.
fn declared_by(alloc: Global, tokens: &[Txt]) -> Result<Option<CodeBlock>, Oom>
    requires { length tokens.now ≤ 65536 }
    ensures spelled { IfOk result (λ found. MatchOption found
        ((fields : _) (methods : _) → Declares tokens.now fields methods → ⊥)
        (λ made. Declares tokens.now made.fields made.methods)) }
    ensures few { IfOk result (λ found. IfSome found (λ made. (length made.fields ≤ 65536) × (length made.methods ≤ 65536))) }
{
    let Some(members) = members_of(alloc, tokens)? else {
        return Ok(None);
    };
    if !are_named_well(&members) {
        return Ok(None);
    }
    let Some(fields) = fields_of(alloc, &members)? else {
        return Ok(None);
    };
    let Some(methods) = methods_of(alloc, fields.as_slice(), &members)? else {
        return Ok(None);
    };
    Ok(Some(CodeBlock { fields, methods }))
}

/// What the code declares that stands behind content, to the end of the file, where nothing else stands there.
pub fn declared(alloc: Global, end: Reached<'_>) -> Result<Option<CodeBlock>, Oom>
    requires { length end.rest.now ≤ 65536 }
    ensures spelled { IfOk result (λ found. MatchOption found
        ((fields : _) (methods : _) → Closes (end.entry.after_word, end.entry.rest.now) fields methods → ⊥)
        (λ made. Closes (end.entry.after_word, end.entry.rest.now) made.fields made.methods)) }
    ensures few { IfOk result (λ found. IfSome found (λ made. length made.methods ≤ 65536)) }
{
    if end.rest.is_empty() {
        return Ok(Some(CodeBlock {
            fields: Items::new(alloc),
            methods: Items::new(alloc),
        }));
    }
    if end.after_word {
        return Ok(None);
    }
    let Some(code) = after(b"@code", end.rest) else {
        return Ok(None);
    };
    let tokens = tokens_of(alloc, code)?;
    if !is_shallow(alloc, &tokens)? {
        return Ok(None);
    }
    match body_of(&tokens) {
        Some(body) => declared_by(alloc, body),
        None => Ok(None),
    }
}
