// What is open at a place of Razor text.
use crate::Quote;
use cs_token::Sign;

/// What kind of text stands at a place. At the top of a file, where no context is open, content stands.
#[derive(Clone, Copy, Debug, PartialEq, Eq)]
pub enum Context {
    /// Content of an element or of a component's tag.
    Element,
    /// Content behind `@:`, to the line's end.
    Line,
    /// A start tag behind its name.
    StartTag { component: bool, void: bool },
    /// An end tag behind its name.
    EndTag,
    /// An attribute behind its name, where a value follows.
    Named(Holds),
    /// The value of an attribute.
    Value(Held, Option<Quote>),
    /// The at sign before the one expression of a quoted value.
    CodeLead,
    /// The at sign before the content expression of a value without quotes.
    ShownLead,
    /// The bracket behind an at sign.
    Opening,
    /// A name behind an at sign or a dot, and the quote that ends the value round it.
    Name(Option<Quote>),
    /// What goes on with such a name.
    Chain(Option<Quote>),
    /// The end of an expression or of `@code`.
    Closing,
    /// `@code` before its brace.
    Members,
    /// Code in brackets, and the quote that ends the value round it; raw, where the characters are a text.
    Bracket { quote: Option<Quote>, raw: bool },
    /// Code before the brace of a block; the word `if` stands last in it, or no such word.
    Head { with_else: bool },
    /// The block of code with markup.
    Block { point: Point, with_else: bool },
    /// The line of a directive.
    Directive(Wanted),
}

/// What the value of an attribute of some name can be.
#[derive(Clone, Copy, Debug, PartialEq, Eq)]
pub enum Holds {
    /// Literal text and content expressions.
    Mixed,
    /// Code behind an at sign, or a text.
    Supplied,
    /// Code, with or without an at sign before it.
    Event,
    /// Code.
    Code,
    /// A text.
    Text,
}

/// What a value is.
#[derive(Clone, Copy, Debug, PartialEq, Eq)]
pub enum Held {
    /// Literal text and content expressions.
    Mixed,
    /// Code.
    Code,
    /// A text.
    Text,
    /// Nothing more.
    Ended,
}

/// Where in a statement of a block.
#[derive(Clone, Copy, Debug, PartialEq, Eq)]
pub enum Point {
    /// A statement begins here.
    Begins,
    /// Inside a statement.
    Within,
    /// Right behind the name `with`.
    BehindWith,
}

/// What may come next in the line of a directive.
#[derive(Clone, Copy, Debug, PartialEq, Eq)]
pub enum Wanted {
    /// A name.
    Name,
    /// A dot, or the line's end.
    Dot,
    /// The line's end.
    End,
}

/// What a piece changes of what is open: the innermost context is left, then these two are entered, the second innermost.
/// A sign of C# may begin or end a part of an interpolated text.
#[derive(Clone, Copy, Debug, PartialEq, Eq)]
pub struct Change {
    /// Whether the innermost context is left.
    pub leaves: bool,
    /// The context that is entered first.
    pub enters: Option<Context>,
    /// The context that is entered then, which is the innermost.
    pub within: Option<Context>,
    /// A sign of C# code.
    pub sign: Option<Sign>,
}
