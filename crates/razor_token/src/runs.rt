// Runs of characters of one kind.
ghost use Rattle.std.specs.Prelude.{◌≡◌, ◌+◌, ◌≤◌, length, IfSome, IsTrue};
ghost use Rattle.std.specs.List.{list_all};
ghost use Rattle.razor_token.specs.Runs.{is_of, run, begins, count_to, is_bare, bare_run};

use cs_token::{Class, after};

/// A kind of characters, some of which stand together.
#[derive(Clone, Copy, Debug, PartialEq, Eq)]
pub enum RunKind {
    /// Of the name of a tag: letters, digits and `-`.
    TagName,
    /// Of the name of an attribute: `:` and `.` besides.
    AttributeName,
    /// Letters and digits.
    Word,
    /// White space.
    White,
    /// White space that ends no line.
    Blank,
    /// Literal text of content: neither `@` nor `<`.
    Content,
    /// The same in a line.
    InLine,
    /// Literal text of a value in double quotes: neither `@` nor the quote.
    DoubleQuoted,
    /// The same in single quotes.
    SingleQuoted,
    /// A text in double quotes in a line.
    PageText,
}

impl RunKind {
    fn has(self, character: char) -> bool
        ensures { result ≡ is_of self character }
    {
        match self {
            RunKind::TagName => Class::Word.has(character) || character == '-',
            RunKind::AttributeName => {
                Class::Word.has(character) || matches!(character, '-' | ':' | '.')
            }
            RunKind::Word => Class::Word.has(character),
            RunKind::White => Class::White.has(character),
            RunKind::Blank => matches!(character, ' ' | '\t' | '\r'),
            RunKind::Content => !matches!(character, '@' | '<'),
            RunKind::InLine => !matches!(character, '@' | '<' | '\n'),
            RunKind::DoubleQuoted => !matches!(character, '@' | '"'),
            RunKind::SingleQuoted => !matches!(character, '@' | '\''),
            RunKind::PageText => !matches!(character, '"' | '\n'),
        }
    }
}

/// How many characters of the kind stand at the front.
pub(crate) fn run(kind: RunKind, text: &[char]) -> usize
    ensures same { result ≡ run kind text.now }
    ensures within { result ≤ length text.now }
{
    for (at, character) in text.iter().enumerate() {
        if !kind.has(*character) {
            return at;
        }
    }
    text.len()
}

/// Whether these characters stand at the front.
#[tactic(auto, using(crate::proofs::RunLemmas::begins_within))]
pub(crate) fn begins(front: &[char], text: &[char]) -> bool
    ensures same { result ≡ begins front.now text.now }
    ensures within { IsTrue result → length front.now ≤ length text.now }
{
    after(front, text).is_some()
}

/// How many characters stand up to the first of these, themselves among them.
pub(crate) fn count_to(end: &[char], text: &[char]) -> Option<usize>
    ensures same { result ≡ count_to end.now text.now }
    ensures within { IfSome result (λ count. count ≤ length text.now) }
{
    let mut rest = text;
    while let [_, next @ ..] = rest {
        if begins(end, rest) {
            return Some(text.len() - rest.len() + end.len());
        }
        rest = next;
    }
    None
}

/// Whether the character may stand in a value without quotes.
fn is_bare(character: char) -> bool
    ensures { result ≡ is_bare character }
{
    !(Class::White.has(character) || matches!(character, '"' | '\'' | '@' | '=' | '<' | '>' | '`'))
}

/// Whether all these characters may stand in a value without quotes.
pub(crate) fn are_bare(text: &[char]) -> bool
    ensures { result ≡ list_all is_bare text.now }
{
    text.iter().all(|character| is_bare(*character))
}

/// How many characters of a value without quotes stand at the front.
pub(crate) fn bare_run(text: &[char]) -> usize
    ensures same { result ≡ bare_run text.now }
    ensures within { result ≤ length text.now }
{
    let mut rest = text;
    while let [first, next @ ..] = rest {
        if !is_bare(*first) || begins(&['/', '>'], rest) {
            break;
        }
        rest = next;
    }
    text.len() - rest.len()
}
