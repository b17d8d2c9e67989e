// Classes of characters, and the runs that they form in a text.
ghost use Rattle.std.specs.Prelude.{◌≡◌, IfSome, ◌<◌, length};
ghost use Rattle.std.specs.List.{list_all};
ghost use Rattle.std.specs.Option.{option_map};
ghost use Rattle.first_click.specs.Characters.{is_white, is_word, is_in, begins_with, ends_with};
ghost use Rattle.first_click.specs.Reading.Runs.{front, past, run_at};

/// A class of characters, each by its byte.
#[derive(Clone, Copy, Debug, PartialEq, Eq)]
pub enum Class {
    /// Space, tab, line feed and carriage return.
    White,
    Upper,
    Lower,
    Letter,
    /// Letters, digits and `_`.
    Word,
    /// Neither white space nor of a word.
    Sign,
    /// What literal text is made of: all but `<`, `@` and `&`.
    Literal,
    /// What would go on the expression that a name behind `@` begins: of a word, `.`, `(` and `[`.
    Continuing,
    /// What a file is made of: from space to `~`, tab and line feed.
    Plain,
}

impl Class {
    pub fn has(self, byte: u8) -> bool
        ensures { result ≡ is_in self byte }
    {
        match self {
            Class::White => is_white(byte),
            Class::Upper => byte.is_ascii_uppercase(),
            Class::Lower => byte.is_ascii_lowercase(),
            Class::Letter => byte.is_ascii_alphabetic(),
            Class::Word => is_word(byte),
            Class::Sign => !is_white(byte) && !is_word(byte),
            Class::Literal => !matches!(byte, b'<' | b'@' | b'&'),
            Class::Continuing => is_word(byte) || matches!(byte, b'.' | b'(' | b'['),
            Class::Plain => matches!(byte, b' '..=b'~' | b'\t' | b'\n'),
        }
    }
}

fn is_white(byte: u8) -> bool
    ensures { result ≡ is_white byte }
{
    matches!(byte, b' ' | b'\t' | b'\n' | b'\r')
}

fn is_word(byte: u8) -> bool
    ensures { result ≡ is_word byte }
{
    byte.is_ascii_alphanumeric() || byte == b'_'
}

/// Whether all characters are of the class.
pub fn are_all(class: Class, text: &[u8]) -> bool
    ensures { result ≡ list_all (is_in class) text.now }
{
    text.iter().all(|byte| class.has(*byte))
}

/// Whether the first character is of the class.
pub fn begins(class: Class, text: &[u8]) -> bool
    ensures { result ≡ begins_with class text.now }
{
    match text {
        [] => false,
        [first, ..] => class.has(*first),
    }
}

/// Whether the last character is of the class.
pub fn ends(class: Class, text: &[u8]) -> bool
    ensures { result ≡ ends_with class text.now }
{
    match text {
        [] => false,
        [.., last] => class.has(*last),
    }
}

/// The longest front that is all of the class, and what stands behind it.
fn split(class: Class, text: &[u8]) -> (&[u8], &[u8])
    ensures front { result.0.now ≡ front class text.now }
    ensures past { result.1.now ≡ past class text.now }
{
    for (at, byte) in text.iter().enumerate() {
        if !class.has(*byte) {
            return text.split_at(at);
        }
    }
    text.split_at(text.len())
}

/// What stands behind the longest front that is all of the class.
pub fn skip(class: Class, text: &[u8]) -> &[u8]
    ensures { result.now ≡ past class text.now }
{
    let (_, rest) = split(class, text);
    rest
}

/// The longest front that is all of the class, if it isn't empty, and what stands behind it.
#[tactic(auto, unfolding(crate::specs::Reading::Runs::run_at))]
pub fn run(class: Class, text: &[u8]) -> Option<(&[u8], &[u8])>
    ensures { option_map (λ found. (found.0.now, found.1.now)) result ≡ run_at class text.now }
{
    let (front, rest) = split(class, text);
    if front.is_empty() {
        None
    } else {
        Some((front, rest))
    }
}
