// Decimal numbers as text.
ghost use Rattle.std.specs.Prelude.{◌≡◌, Some, IfOk};
ghost use Rattle.std.specs.Fmt.{signed_decimal};
ghost use Rattle.text_core.specs.Decimal.{i32_of};

use crate::{Oom, Txt};
use std::alloc::Global;

/// The number that a text says by an optional minus sign and decimal digits.
///
/// It is `None` for every other text, and where the number is outside the type.
pub fn read_i32(text: &Txt) -> Option<i32>
    ensures { result ≡ i32_of text.now }
{
    let text = text.as_str();
    if text.starts_with('+') {
        return None;
    }
    text.parse::<i32>().ok()
}

/// The number in decimal digits, with a minus sign before them where it is below 0.
pub fn show_i32(alloc: Global, value: i32) -> Result<Txt, Oom>
    ensures shown { IfOk result (λ text. text ≡ signed_decimal value) }
    ensures reads_back { IfOk result (λ text. i32_of text ≡ Some value) }
{
    let digits = value.to_string(alloc)?;
    Ok(Txt::from(digits))
}
