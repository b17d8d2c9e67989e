// Reads the labels of a section.
ghost use Rattle.std.specs.Prelude.{◌≡◌};
ghost use Rattle.cs_grammar.specs.Statements as grammar;
ghost use Rattle.cs_parse.specs.Reading.{Gives};
ghost use Rattle.cs_parse.specs.StatementReading as spec;
ghost use Rattle.cs_parse.specs.StatementReading.{labels_in, labels_first};

use crate::tokens::{Front, after, is_sign, is_word};
use crate::unread::Unread;
use cs_ast::{Label, LabelKind};
use cs_token::{Sign, Token, TokenKind, Word};
use sqlite_items::Items;
use std::alloc::Global;
use text_core::Place;

/// Whether a label stands first.
pub fn has_label(tokens: &[Token]) -> bool
    ensures { result ≡ spec.has_label tokens.now }
{
    match tokens.split_first() {
        Some((t, _)) => is_word(t, Word::Case) || is_word(t, Word::Default),
        None => false,
    }
}

#[tactic(auto, unfolding(crate::specs::StatementReading::constant_word))]
fn constant_word(word: Word) -> Option<LabelKind>
    ensures { result ≡ spec.constant_word word }
{
    match word {
        Word::True => Some(LabelKind::Bool(true)),
        Word::False => Some(LabelKind::Bool(false)),
        Word::Null => Some(LabelKind::Null),
        _ => None,
    }
}

/// A number behind `-`.
fn negative<'a>(place: Place, tokens: &'a [Token]) -> Front<'a, Label>
    ensures { Gives (λ x. (x.0, x.1.now)) result (spec.negative place tokens.now) }
{
    let Some((t, rest)) = tokens.split_first() else {
        return Err(Unread::Syntax(0));
    };
    match &t.kind {
        TokenKind::Number(number) if *number >= 0 => {
            let kind = LabelKind::Int(-*number);
            Ok((Label { place, kind }, rest))
        }
        _ => Err(Unread::Syntax(tokens.len())),
    }
}

/// The constant that stands first.
fn constant<'a>(tokens: &'a [Token]) -> Front<'a, Label>
    ensures { Gives (λ x. (x.0, x.1.now)) result (spec.constant tokens.now) }
{
    let Some((t, rest)) = tokens.split_first() else {
        return Err(Unread::Syntax(0));
    };
    let place = t.place;
    match &t.kind {
        TokenKind::Number(number) => {
            let kind = LabelKind::Int(*number);
            Ok((Label { place, kind }, rest))
        }
        TokenKind::Text(text) => {
            let kind = LabelKind::Text(text.clone()?);
            Ok((Label { place, kind }, rest))
        }
        TokenKind::Word(word) => match constant_word(*word) {
            Some(kind) => Ok((Label { place, kind }, rest)),
            None => Err(Unread::Syntax(tokens.len())),
        },
        TokenKind::Sign(_) => {
            if is_sign(t, Sign::Minus) {
                negative(place, rest)
            } else {
                Err(Unread::Syntax(tokens.len()))
            }
        }
        TokenKind::Name(_) | TokenKind::Part(_) => Err(Unread::Syntax(tokens.len())),
    }
}

fn case_label<'a>(tokens: &'a [Token]) -> Front<'a, Label>
    ensures { Gives (λ x. (x.0, x.1.now)) result (spec.case_label tokens.now) }
{
    let (label, rest) = constant(tokens)?;
    Ok((label, after(rest, Sign::Colon)?))
}

fn default_label<'a>(place: Place, tokens: &'a [Token]) -> Front<'a, Label>
    ensures { Gives (λ x. (x.0, x.1.now)) result (spec.default_label place tokens.now) }
{
    let rest = after(tokens, Sign::Colon)?;
    let kind = LabelKind::Default;
    Ok((Label { place, kind }, rest))
}

/// One label with its colon.
fn labelled<'a>(tokens: &'a [Token]) -> Front<'a, Label>
    ensures { Gives (λ x. (x.0, x.1.now)) result (spec.labelled tokens.now) }
{
    let Some((t, rest)) = tokens.split_first() else {
        return Err(Unread::Syntax(0));
    };
    if is_word(t, Word::Case) {
        case_label(rest)
    } else if is_word(t, Word::Default) {
        default_label(t.place, rest)
    } else {
        Err(Unread::Syntax(tokens.len()))
    }
}

/// The labels that stand first.
#[tactic(auto, unfolding(crate::specs::StatementReading::labels_first))]
pub fn labels_first<'a>(alloc: Global, tokens: &'a [Token]) -> Front<'a, Items<Label>>
    ensures { Gives (λ x. (x.0, x.1.now)) result (labels_first tokens.now) }
{
    labels(alloc, tokens.len() + 1, tokens)
}

#[tactic(auto, using(crate::proofs::StatementTurns::labels_start, crate::proofs::StatementTurns::labels_none, crate::proofs::StatementTurns::labels_turn, crate::proofs::StatementTurns::labels_end, crate::proofs::StatementTurns::labels_fail))]
fn labels<'a>(alloc: Global, fuel: usize, tokens: &'a [Token]) -> Front<'a, Items<Label>>
    ensures { Gives (λ x. (x.0, x.1.now)) result (labels_in fuel tokens.now) }
{
    let mut found = Items::new(alloc);
    let mut left = fuel;
    let mut tokens = tokens;
    while left > 0 {
        let (label, rest) = labelled(tokens)?;
        found.push(label)?;
        if !has_label(rest) {
            return Ok((found, rest));
        }
        tokens = rest;
        left -= 1;
    }
    Err(Unread::Syntax(tokens.len()))
}

/// How many of the labels are `default`.
pub fn defaults(labels: &[Label]) -> usize
    ensures { result ≡ grammar.defaults labels.now }
{
    let mut count = 0;
    for label in labels {
        match &label.kind {
            LabelKind::Default => count += 1,
            _ => {}
        }
    }
    count
}
