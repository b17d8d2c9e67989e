// Goes through the text of a parameter to see where its value ends.
ghost use Rattle.std.specs.Prelude.{◌≡◌, ◌<◌, ◌≤◌, List, None, Some, [], ◌∷◌, length, reverse, IfOk, IfSome, IsTrue};
ghost use Rattle.std.specs.Option.{option_map};
ghost use Rattle.cs_token.specs.declared.around.Opened.{Opened as Tree};
ghost use Rattle.cs_token.specs.Reading.Fronts.{front_at};
ghost use Rattle.cs_token.specs.Spelling as spelling;
ghost use Rattle.razor_token.specs.CodeFronts as code;
ghost use Rattle.razor_token.specs.Runs as runs;
ghost use Rattle.razor_print.specs.ValueTexts as spec;

use crate::quotes::mark;
use cs_token::{
    Around, Front, Opened, Sign, TokenKind, after, first_place, front_of, innermost, move_past,
};
use razor_token::Quote;
use std::alloc::Global;
use text_core::{Oom, Txt};

/// So many characters, with so many brackets open behind them.
#[derive(Clone, Copy, Debug, PartialEq, Eq)]
struct Stride {
    count: usize,
    depth: u32,
}

#[tactic(auto, unfolding(razor_token::specs::CodeFronts::opens))]
fn opens(sign: Sign) -> bool
    ensures { result ≡ code.opens sign }
{
    match sign {
        Sign::OpenRound | Sign::OpenSquare | Sign::OpenBrace => true,
        _ => false,
    }
}

#[tactic(auto, unfolding(razor_token::specs::CodeFronts::closes))]
fn closes(sign: Sign) -> bool
    ensures { result ≡ code.closes sign }
{
    match sign {
        Sign::CloseRound | Sign::CloseSquare | Sign::CloseBrace => true,
        _ => false,
    }
}

/// The sign of a token.
fn sign_of(token: &Option<TokenKind>) -> Option<Sign>
    ensures { result ≡ code.sign_of token.now }
{
    match token {
        Some(TokenKind::Sign(sign)) => Some(*sign),
        _ => None,
    }
}

/// How many brackets are open behind a sign.
fn depth_behind(around: Option<Around>, sign: Option<Sign>, depth: u32) -> Result<u32, Oom>
    ensures { IfOk result (λ behind. behind ≡ spec.depth_behind around sign depth) }
{
    match (around, sign) {
        (None, Some(sign)) => depth_behind_sign(sign, depth),
        _ => Ok(depth),
    }
}

fn depth_behind_sign(sign: Sign, depth: u32) -> Result<u32, Oom>
    ensures { IfOk result (λ behind. behind ≡ spec.depth_behind None (Some sign) depth) }
{
    if opens(sign) {
        return depth.checked_add(1).ok_or(Oom);
    }
    if closes(sign) {
        return Ok(depth.saturating_sub(1));
    }
    Ok(depth)
}

/// Whether these characters stand at the front.
#[tactic(auto, using(razor_token::proofs::RunLemmas::begins_within))]
fn begins(front: &[char], text: &[char]) -> bool
    ensures same { result ≡ runs.begins front.now text.now }
    ensures within { IsTrue result → length front.now ≤ length text.now }
{
    after(front, text).is_some()
}

/// Outside brackets.
fn outside(quote: Quote, text: &[char]) -> Option<Stride>
    requires { 0 < length text.now }
    ensures same { (opened : List Tree) → option_map (spec.step_of opened) result ≡ spec.outside quote opened text.now }
    ensures within { IfSome result (λ stride. stride.count ≤ length text.now) }
{
    if begins(&[mark(quote)], text) {
        None
    } else if begins(&['@', '('], text) {
        Some(Stride { count: 2, depth: 1 })
    } else if begins(&['@', '@'], text) {
        Some(Stride { count: 2, depth: 0 })
    } else {
        Some(Stride { count: 1, depth: 0 })
    }
}

/// In brackets.
#[tactic(auto, using(razor_token::proofs::FrontLemmas::front_shorter))]
fn inside(
    alloc: Global,
    depth: u32,
    opened: &mut Vec<Opened>,
    text: &[char],
) -> Result<Option<Stride>, Oom>
    ensures same { IfOk result (λ found. option_map (spec.step_of (reverse opened.new.items)) found
        ≡ spec.inside depth (reverse opened.old.items) text.now (front_at (spelling.innermost (reverse opened.old.items)) text.now)) }
    ensures within { IfOk result (λ found. IfSome found (λ stride. stride.count ≤ length text.now)) }
{
    let around = innermost(opened);
    match front_of(alloc, around, text)? {
        Front::Wrong(..) => Ok(None),
        Front::Piece(token, rest) => {
            let depth = depth_behind(around, sign_of(&token), depth)?;
            move_past(opened, &token, first_place())?;
            Ok(Some(Stride {
                count: text.len() - rest.len(),
                depth,
            }))
        }
    }
}

/// A step.
fn next_stride(
    alloc: Global,
    quote: Quote,
    depth: u32,
    opened: &mut Vec<Opened>,
    text: &[char],
) -> Result<Option<Stride>, Oom>
    requires { 0 < length text.now }
    ensures same { IfOk result (λ found. option_map (spec.step_of (reverse opened.new.items)) found
        ≡ spec.step_at quote depth (reverse opened.old.items) text.now) }
    ensures within { IfOk result (λ found. IfSome found (λ stride. stride.count ≤ length text.now)) }
{
    if depth == 0 {
        Ok(outside(quote, text))
    } else {
        inside(alloc, depth, opened, text)
    }
}

fn ends(alloc: Global, quote: Quote, text: &[char]) -> Result<bool, Oom>
    ensures { IfOk result (λ answer. answer ≡ spec.stands_in quote text.now) }
{
    let mut opened = Vec::new(alloc);
    let mut depth = 0;
    let mut rest = text;
    for _step in 0..text.len() {
        if rest.is_empty() {
            return Ok(depth == 0);
        }
        let Some(stride) = next_stride(alloc, quote, depth, &mut opened, rest)? else {
            return Ok(false);
        };
        let (_, behind) = rest.split_at(stride.count);
        depth = stride.depth;
        rest = behind;
    }
    if !rest.is_empty() {
        return Ok(false);
    }
    Ok(depth == 0)
}

/// Whether the text is a value in these quotes.
pub fn stands_in(alloc: Global, quote: Quote, text: &Txt) -> Result<bool, Oom>
    ensures { IfOk result (λ answer. answer ≡ spec.stands_in quote text.now) }
{
    let characters = text.to_chars(alloc)?;
    ends(alloc, quote, &characters)
}
