// Classes of characters, and the runs that they form in a text.
ghost use Rattle.std.specs.Prelude.{◌≡◌};
ghost use Rattle.std.specs.Option.{option_map};
ghost use Rattle.cs_token.specs.Characters.{is_in, begins_with};
ghost use Rattle.cs_token.specs.Reading.Runs.{front, past, strip};

/// A class of characters.
#[derive(Clone, Copy, Debug, PartialEq, Eq)]
pub enum Class {
    /// Space, tab, line feed and carriage return.
    White,
    /// A to Z, a to z and `_`.
    Letter,
    Digit,
    /// Letters and digits.
    Word,
    /// All but the line feed, which ends a line.
    Inline,
}

impl Class {
    pub fn has(self, character: char) -> bool
        ensures { result ≡ is_in self character }
    {
        match self {
            Class::White => matches!(character, ' ' | '\t' | '\n' | '\r'),
            Class::Letter => is_letter(character),
            Class::Digit => is_digit(character),
            Class::Word => is_letter(character) || is_digit(character),
            Class::Inline => character != '\n',
        }
    }
}

fn is_letter(character: char) -> bool
    ensures { result ≡ is_in Class.Letter character }
{
    matches!(character, 'A'..='Z' | 'a'..='z' | '_')
}

fn is_digit(character: char) -> bool
    ensures { result ≡ is_in Class.Digit character }
{
    matches!(character, '0'..='9')
}

/// Whether the first character is of the class.
pub fn begins(class: Class, text: &[char]) -> bool
    ensures { result ≡ begins_with class text.now }
{
    match text {
        [] => false,
        [first, ..] => class.has(*first),
    }
}

/// The longest front that is all of the class, and what stands behind it.
pub fn split(class: Class, text: &[char]) -> (&[char], &[char])
    ensures front { result.0.now ≡ front class text.now }
    ensures past { result.1.now ≡ past class text.now }
{
    for (at, character) in text.iter().enumerate() {
        if !class.has(*character) {
            return text.split_at(at);
        }
    }
    text.split_at(text.len())
}

/// What stands behind this front.
#[tactic(auto, unfolding(crate::specs::Reading::Runs::strip))]
pub fn after<'a>(front: &[char], text: &'a [char]) -> Option<&'a [char]>
    ensures { option_map (λ rest. rest.now) result ≡ strip front.now text.now }
{
    text.strip_prefix(front)
}
