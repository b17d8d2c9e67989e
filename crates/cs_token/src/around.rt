// What is open at a moment of reading.
ghost use Rattle.std.specs.Prelude.{◌≡◌, reverse, OnOk};
ghost use Rattle.cs_token.specs.Spelling.{innermost, outermost, behind_sign, behind_kind};

use crate::{Sign, TokenKind};
use text_core::{Oom, Place};

/// What is open round a place, the innermost of it.
#[derive(Clone, Copy, Debug, PartialEq, Eq)]
pub enum Around {
    /// An interpolated text: its literal parts stand here.
    Interpolation,
    /// A hole of an interpolated text: code stands here.
    Hole,
    /// A pair of braces in a hole: code stands here.
    Braces,
}

/// What is open, and the place where it begins.
#[derive(Clone, Copy, Debug, PartialEq, Eq)]
pub struct Opened {
    pub around: Around,
    pub place: Place,
}

/// The innermost of what is open, which is the last.
pub fn innermost(opened: &[Opened]) -> Option<Around>
    ensures { result ≡ innermost (reverse opened.now) }
{
    match opened {
        [] => None,
        [.., last] => Some(last.around),
    }
}

/// Where the outermost of what is open begins, or this place where nothing is.
pub(crate) fn outermost(place: Place, opened: &[Opened]) -> Place
    ensures { result ≡ outermost place (reverse opened.now) }
{
    match opened {
        [] => place,
        [first, ..] => first.place,
    }
}

/// What is open behind a sign at this place.
#[tactic(auto, unfolding(crate::specs::Spelling::behind_sign))]
fn move_past_sign(opened: &mut Vec<Opened>, sign: Sign, place: Place) -> Result<(), Oom>
    ensures { OnOk result (reverse opened.new.items ≡ behind_sign sign place (reverse opened.old.items)) }
{
    let around = match sign {
        Sign::InterpolationStart => Around::Interpolation,
        Sign::HoleOpen => Around::Hole,
        Sign::OpenBrace => {
            if opened.is_empty() {
                return Ok(());
            }
            Around::Braces
        }
        Sign::InterpolationEnd | Sign::HoleClose | Sign::CloseBrace => {
            opened.pop();
            return Ok(());
        }
        _ => return Ok(()),
    };
    opened.push(Opened { around, place })?;
    Ok(())
}

/// What is open behind a token, or behind white space or a comment, at this place.
pub fn move_past(
    opened: &mut Vec<Opened>,
    kind: &Option<TokenKind>,
    place: Place,
) -> Result<(), Oom>
    ensures { OnOk result (reverse opened.new.items ≡ behind_kind kind.now place (reverse opened.old.items)) }
{
    match kind {
        Some(TokenKind::Sign(sign)) => move_past_sign(opened, *sign, place),
        _ => Ok(()),
    }
}
