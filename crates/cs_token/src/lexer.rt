// From a text to its tokens.
ghost use Rattle.std.specs.Prelude.{◌≡◌, ◌+◌, ◌≤◌, ◌++◌, length, reverse, encode_utf8_all, OnOk, IfOk, MatchResult};
ghost use Rattle.cs_token.specs.Cover.{Cover};
ghost use Rattle.cs_token.specs.Faults.{fault_at};
ghost use Rattle.cs_token.specs.Spelling.{fault_place, token_there, Spells, Explains};

use crate::around::{Opened, innermost, move_past, outermost};
use crate::fault::Cause;
use crate::front::{Front, front_of};
use crate::places::{behind, first_place};
use crate::{LexFault, Token, TokenKind};
use std::alloc::Global;
use text_core::{Oom, Place, Txt};

/// The fault of this cause at a place.
fn fault(cause: Cause, opened: &[Opened], place: Place) -> LexFault
    ensures { result ≡ fault_at cause (fault_place cause (reverse opened.now) place) }
{
    match cause {
        Cause::UnendedText => cause.at(outermost(place, opened)),
        _ => cause.at(place),
    }
}

/// Keeps a token, if there is one.
fn keep(
    tokens: &mut Vec<Token>,
    kind: Option<TokenKind>,
    start: u32,
    end: u32,
    place: Place,
) -> Result<(), Oom>
    ensures { OnOk result (tokens.new.items ≡ tokens.old.items ++ token_there kind start end place) }
{
    if let Some(kind) = kind {
        tokens.push(Token {
            kind,
            start,
            end,
            place,
        })?;
    }
    Ok(())
}

/// The tokens of these characters.
fn lex(alloc: Global, text: &[char]) -> Result<Vec<Token>, LexFault>
    requires { length text.now ≤ 1048576 }
    ensures { MatchResult result (λ tokens. Spells text.now tokens.items) (Explains text.now) }
{
    let mut tokens = Vec::new(alloc);
    let mut opened = Vec::new(alloc);
    let mut place = first_place();
    let mut rest = text;
    while !rest.is_empty() {
        match front_of(alloc, innermost(&opened), rest)? {
            Front::Wrong(cause, from) => {
                let (good, _) = rest.split_at(rest.len() - from.len());
                return Err(fault(cause, &opened, behind(place, good)));
            }
            Front::Piece(kind, after) => {
                let start = text.len() - rest.len();
                let end = text.len() - after.len();
                let (here, _) = rest.split_at(end - start);
                move_past(&mut opened, &kind, place)?;
                keep(&mut tokens, kind, start as u32, end as u32, place)?;
                place = behind(place, here);
                rest = after;
            }
        }
    }
    if opened.is_empty() {
        Ok(tokens)
    } else {
        Err(fault(Cause::UnendedText, &opened, place))
    }
}

/// The tokens of C# text, in order, or the first fault in it.
pub fn tokens(alloc: Global, text: &Txt) -> Result<Vec<Token>, LexFault>
    requires { length (encode_utf8_all text.now) ≤ 1048576 }
    ensures answer { MatchResult result (λ tokens. Spells text.now tokens.items) (Explains text.now) }
    ensures cover { IfOk result (λ tokens. Cover 0 text.now tokens.items) }
{
    let characters = text.to_chars(alloc)?;
    lex(alloc, &characters)
}
