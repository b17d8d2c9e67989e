// Pieces of Razor text.
use cs_token::TokenKind;
use text_core::{Place, Txt};

/// What stands round a quoted value.
#[derive(Clone, Copy, Debug, PartialEq, Eq)]
pub enum Quote {
    Double,
    Single,
}

/// A piece: what it is, the characters `start` to `end` of the text that it stands in, and the place of the first of them.
#[derive(Debug, PartialEq, Eq, Drop)]
pub struct Piece {
    pub kind: PieceKind,
    pub start: u32,
    pub end: u32,
    pub place: Place,
}

/// What a piece is. Two pieces may be empty: the end of an expression, and that of an unquoted value.
#[derive(Debug, PartialEq, Eq, Drop)]
pub enum PieceKind {
    /// Characters as they are, of content or of a value, by what they say: a doubled at sign of content says one.
    Literal(Txt),
    /// A comment of content.
    Comment,
    /// White space or a comment between tokens of code.
    Gap,
    /// White space in a tag.
    Space,
    /// A token of C# code.
    Code(TokenKind),
    /// The at sign before an expression.
    At,
    /// The at sign before code with markup.
    CodeAt,
    /// `@code`
    MembersAt,
    /// The end of what an at sign or `@code` began, but for the expression that a quoted value is.
    ExpressionEnd,
    /// A directive without meaning here, up to its names or with its text.
    Directive,
    /// The end of its line, with the line feed if there is one.
    DirectiveEnd,
    /// `@implements IDisposable`, with a line feed right behind it.
    Implements,
    /// `<` and a name.
    TagStart(Txt),
    /// The name of an attribute.
    AttributeName(Txt),
    /// `=` and the quote behind it, if one stands there.
    ValueStart(Option<Quote>),
    /// The quote behind a value, or nothing behind one without quotes.
    ValueEnd,
    /// `>` behind which content stands.
    ContentStart,
    /// `/>`, or the `>` of an element that has no content.
    EmptyTagEnd,
    /// `</` and a name.
    EndTagStart(Txt),
    /// `>` of an end tag.
    EndTagEnd,
    /// `@:`
    LineStart,
    /// The end of what `@:` began, before its line feed.
    LineEnd,
}
