// What stands right before a node of content.
ghost use Rattle.std.specs.Prelude.{◌≡◌};
ghost use Rattle.razor_print.specs.Nodes as spec;

/// What a node of content is to the node right behind it.
#[derive(Clone, Copy, Debug, PartialEq, Eq)]
pub enum Before {
    /// None of these.
    Other,
    /// Literal text.
    Text,
    /// Literal text whose last character is a letter or a digit.
    Word,
    /// An `if`.
    If,
}

/// Whether it is literal text.
pub fn is_text(before: Before) -> bool
    ensures { result ≡ spec.is_text before }
{
    match before {
        Before::Text | Before::Word => true,
        Before::Other | Before::If => false,
    }
}

/// Whether a comment has to stand between it and what begins with an at sign and a word, or is literal text.
pub fn is_parted(before: Before, marked: bool, text: bool) -> bool
    ensures { result ≡ spec.is_parted before marked text }
{
    match before {
        Before::Word => marked,
        Before::If => text,
        Before::Other | Before::Text => false,
    }
}
