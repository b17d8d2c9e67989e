// Places in a text.
ghost use Rattle.std.specs.Prelude.{◌≡◌, ◌+◌, ◌≤◌, ◌<◌, ◌^◌, length};
ghost use Rattle.cs_token.specs.Places.{first_place, past_character, behind};

use text_core::Place;

/// Where a text begins.
pub fn first_place() -> Place
    ensures { result ≡ first_place }
{
    Place { line: 1, column: 1 }
}

/// The place behind a character.
fn past_character(place: Place, character: char) -> Place
    requires { place.line + place.column + 1 < 2 ^ 32 }
    ensures { result ≡ past_character place character }
{
    if character == '\n' {
        Place {
            line: place.line + 1,
            column: 1,
        }
    } else {
        Place {
            line: place.line,
            column: place.column + 1,
        }
    }
}

/// The place behind these characters.
pub fn behind(place: Place, text: &[char]) -> Place
    requires room { place.line + place.column + length text.now < 2 ^ 32 }
    requires column { 1 ≤ place.column }
    ensures value { result ≡ behind place text.now }
    ensures bound { result.line + result.column ≤ place.line + place.column + length text.now }
    ensures column { 1 ≤ result.column }
{
    let mut place = place;
    for character in text {
        place = past_character(place, *character);
    }
    place
}
