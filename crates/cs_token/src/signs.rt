// Operators, brackets, and what stands round the parts of an interpolated text.
ghost use Rattle.std.specs.Prelude.{◌≡◌};
ghost use Rattle.std.specs.List.{find};
ghost use Rattle.cs_token.specs.Signs.{mark};
ghost use Rattle.cs_token.specs.Reading.Signs.{stands_first, sign_at};

use crate::Sign;
use crate::characters::after;

/// The signs of code, the longer ones first.
const SIGNS: [Sign; 37] = [
    Sign::QuestionDot,
    Sign::QuestionQuestion,
    Sign::AddAssign,
    Sign::SubtractAssign,
    Sign::MultiplyAssign,
    Sign::DivideAssign,
    Sign::RemainderAssign,
    Sign::Equal,
    Sign::NotEqual,
    Sign::LessOrEqual,
    Sign::GreaterOrEqual,
    Sign::PlusPlus,
    Sign::MinusMinus,
    Sign::And,
    Sign::Or,
    Sign::Arrow,
    Sign::InterpolationStart,
    Sign::OpenRound,
    Sign::CloseRound,
    Sign::OpenSquare,
    Sign::CloseSquare,
    Sign::OpenBrace,
    Sign::CloseBrace,
    Sign::Comma,
    Sign::Semicolon,
    Sign::Dot,
    Sign::Question,
    Sign::Colon,
    Sign::Assign,
    Sign::Less,
    Sign::Greater,
    Sign::Plus,
    Sign::Minus,
    Sign::Star,
    Sign::Slash,
    Sign::Percent,
    Sign::Not,
];

impl Sign {
    /// How the sign is written.
    #[tactic(auto, unfolding(crate::specs::Signs::mark))]
    pub fn mark(self) -> &'static [char]
        ensures { result.now ≡ mark self }
    {
        match self {
            Sign::OpenRound => &['('],
            Sign::CloseRound => &[')'],
            Sign::OpenSquare => &['['],
            Sign::CloseSquare => &[']'],
            Sign::OpenBrace => &['{'],
            Sign::CloseBrace => &['}'],
            Sign::Comma => &[','],
            Sign::Semicolon => &[';'],
            Sign::Dot => &['.'],
            Sign::QuestionDot => &['?', '.'],
            Sign::Question => &['?'],
            Sign::QuestionQuestion => &['?', '?'],
            Sign::Colon => &[':'],
            Sign::Assign => &['='],
            Sign::AddAssign => &['+', '='],
            Sign::SubtractAssign => &['-', '='],
            Sign::MultiplyAssign => &['*', '='],
            Sign::DivideAssign => &['/', '='],
            Sign::RemainderAssign => &['%', '='],
            Sign::Equal => &['=', '='],
            Sign::NotEqual => &['!', '='],
            Sign::Less => &['<'],
            Sign::Greater => &['>'],
            Sign::LessOrEqual => &['<', '='],
            Sign::GreaterOrEqual => &['>', '='],
            Sign::Plus => &['+'],
            Sign::Minus => &['-'],
            Sign::Star => &['*'],
            Sign::Slash => &['/'],
            Sign::Percent => &['%'],
            Sign::PlusPlus => &['+', '+'],
            Sign::MinusMinus => &['-', '-'],
            Sign::Not => &['!'],
            Sign::And => &['&', '&'],
            Sign::Or => &['|', '|'],
            Sign::Arrow => &['=', '>'],
            Sign::InterpolationStart => &['$', '"'],
            Sign::InterpolationEnd => &['"'],
            Sign::HoleOpen => &['{'],
            Sign::HoleClose => &['}'],
        }
    }
}

/// Whether the sign stands first.
fn stands(sign: Sign, text: &[char]) -> bool
    ensures { result ≡ stands_first text.now sign }
{
    after(sign.mark(), text).is_some()
}

/// The first of the signs that stands first in the text.
fn first_standing(signs: &[Sign], text: &[char]) -> Option<Sign>
    ensures { result ≡ find (stands_first text.now) signs.now }
{
    for sign in signs {
        if stands(*sign, text) {
            return Some(*sign);
        }
    }
    None
}

/// The longest sign of code that stands first.
#[tactic(auto, unfolding(crate::specs::Reading::Signs::signs, crate::specs::Reading::Signs::sign_at))]
pub(crate) fn longest_sign(text: &[char]) -> Option<Sign>
    ensures { result ≡ sign_at text.now }
{
    first_standing(&SIGNS, text)
}
