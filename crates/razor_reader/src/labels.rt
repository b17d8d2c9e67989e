// Reads the labels of a section of a `switch`.
ghost use Rattle.std.specs.Prelude.{◌≡◌};
ghost use Rattle.cs_grammar.specs.Statements as grammar;
ghost use Rattle.razor_reader.specs.HeadReading as spec;
ghost use Rattle.razor_reader.specs.Reading.{Gives};

use crate::fronts::{Front, has};
use crate::mark::{Mark, is_token};
use crate::tokens::code_to;
use crate::unread::Unread;
use cs_ast::{Label, LabelKind};
use cs_token::{Token, TokenKind, Word};
use razor_token::Piece;
use sqlite_items::Items;
use std::alloc::Global;

/// Whether a label stands first.
pub fn has_label(pieces: &[Piece]) -> bool
    ensures { result ≡ spec.has_label pieces.now }
{
    has(pieces, Mark::Case) || has(pieces, Mark::Default)
}

#[tactic(auto, unfolding(crate::specs::HeadReading::constant_word))]
fn constant_word(word: Word) -> Option<LabelKind>
    ensures { result ≡ spec.constant_word word }
{
    match word {
        Word::True => Some(LabelKind::Bool(true)),
        Word::False => Some(LabelKind::Bool(false)),
        Word::Null => Some(LabelKind::Null),
        _ => None,
    }
}

/// A constant of one token.
fn constant(t: &Token) -> Result<LabelKind, Unread>
    ensures { Gives (λ kind. kind) result (spec.constant t.now.kind) }
{
    match &t.kind {
        TokenKind::Number(number) => Ok(LabelKind::Int(*number)),
        TokenKind::Text(text) => Ok(LabelKind::Text(text.clone()?)),
        TokenKind::Word(word) => match constant_word(*word) {
            Some(kind) => Ok(kind),
            None => Err(Unread::Syntax(0)),
        },
        TokenKind::Sign(_) | TokenKind::Name(_) | TokenKind::Part(_) => Err(Unread::Syntax(0)),
    }
}

/// A number behind `-`, not below 0.
fn negative(t: &Token) -> Result<LabelKind, Unread>
    ensures { Gives (λ kind. kind) result (spec.negative t.now.kind) }
{
    match &t.kind {
        TokenKind::Number(number) if *number >= 0 => Ok(LabelKind::Int(-*number)),
        _ => Err(Unread::Syntax(0)),
    }
}

/// A label of these tokens, of which the last is a colon.
fn label_of(tokens: &[Token]) -> Result<Label, Unread>
    ensures { Gives (λ a. a) result (spec.label_of tokens.now) }
{
    match tokens {
        [t, _] => {
            if !is_token(t, Mark::Default) {
                return Err(Unread::Syntax(0));
            }
            let kind = LabelKind::Default;
            Ok(Label {
                place: t.place,
                kind,
            })
        }
        [t, a, _] => {
            if !is_token(t, Mark::Case) {
                return Err(Unread::Syntax(0));
            }
            let kind = constant(a)?;
            Ok(Label {
                place: a.place,
                kind,
            })
        }
        [t, minus, a, _] => {
            if !is_token(t, Mark::Case) || !is_token(minus, Mark::Minus) {
                return Err(Unread::Syntax(0));
            }
            let kind = negative(a)?;
            Ok(Label {
                place: minus.place,
                kind,
            })
        }
        _ => Err(Unread::Syntax(0)),
    }
}

/// The label that stands first.
fn label_first<'a>(alloc: Global, pieces: &'a [Piece]) -> Front<'a, Label>
    ensures { Gives (λ x. (x.0, x.1.now)) result (spec.label_first pieces.now) }
{
    let (tokens, rest) = code_to(alloc, pieces, Mark::Colon)?;
    match label_of(&tokens) {
        Ok(label) => Ok((label, rest)),
        Err(Unread::Syntax(_)) => Err(Unread::Syntax(pieces.len())),
        Err(Unread::Oom) => Err(Unread::Oom),
    }
}

/// The labels that stand first, of which there is one.
#[tactic(auto, using(crate::proofs::LabelLoops::labels_start, crate::proofs::LabelLoops::labels_none, crate::proofs::LabelLoops::labels_fail, crate::proofs::LabelLoops::labels_turn, crate::proofs::LabelLoops::labels_end))]
pub fn labels_first<'a>(alloc: Global, pieces: &'a [Piece]) -> Front<'a, Items<Label>>
    ensures { Gives (λ x. (x.0, x.1.now)) result (spec.labels_first pieces.now) }
{
    let mut labels = Items::new(alloc);
    let mut rest = pieces;
    let mut left = pieces.len();
    while left > 0 {
        let (label, behind) = label_first(alloc, rest)?;
        labels.push(label)?;
        rest = behind;
        if !has_label(rest) {
            return Ok((labels, rest));
        }
        left -= 1;
    }
    Err(Unread::Syntax(rest.len()))
}

/// How many of the labels are `default`.
pub fn defaults(labels: &[Label]) -> usize
    ensures { result ≡ grammar.defaults labels.now }
{
    let mut count = 0;
    for label in labels {
        if let LabelKind::Default = label.kind {
            count += 1;
        }
    }
    count
}
