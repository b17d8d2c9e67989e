// Tokens, and the words and signs that they can be.
use text_core::{Place, Txt};

/// A token: what it is, the characters `start` to `end` of the text that it stands in, and the place of the first of them.
#[derive(Debug, PartialEq, Eq, Drop)]
pub struct Token {
    pub kind: TokenKind,
    pub start: u32,
    pub end: u32,
    pub place: Place,
}

/// What a token is.
#[derive(Debug, PartialEq, Eq, Drop)]
pub enum TokenKind {
    /// A name, by its characters.
    Name(Txt),
    /// A number in decimal digits.
    Number(i32),
    /// A text in double quotes, by the characters that it says.
    Text(Txt),
    /// A literal part of an interpolated text, which is never empty, by the characters that it says.
    Part(Txt),
    Word(Word),
    Sign(Sign),
}

/// A word that is no name.
#[derive(Clone, Copy, Debug, PartialEq, Eq)]
pub enum Word {
    Async,
    Await,
    Bool,
    Break,
    Case,
    Continue,
    Default,
    Else,
    False,
    For,
    Foreach,
    If,
    In,
    Int,
    Internal,
    New,
    Null,
    Override,
    Private,
    Protected,
    Public,
    Return,
    String,
    Switch,
    True,
    Var,
    Void,
    While,
    Task,
    MarkupString,
    ImmutableList,
    EventCallback,
    RenderFragment,
    ChangeEventArgs,
    EventArgs,
    MouseEventArgs,
    KeyboardEventArgs,
    FocusEventArgs,
}

/// An operator, a bracket, or what stands round the parts of an interpolated text.
#[derive(Clone, Copy, Debug, PartialEq, Eq)]
pub enum Sign {
    /// `(`
    OpenRound,
    /// `)`
    CloseRound,
    /// `[`
    OpenSquare,
    /// `]`
    CloseSquare,
    /// `{`
    OpenBrace,
    /// `}`
    CloseBrace,
    /// `,`
    Comma,
    /// `;`
    Semicolon,
    /// `.`
    Dot,
    /// `?.`
    QuestionDot,
    /// `?`
    Question,
    /// `??`
    QuestionQuestion,
    /// `:`
    Colon,
    /// `=`
    Assign,
    /// `+=`
    AddAssign,
    /// `-=`
    SubtractAssign,
    /// `*=`
    MultiplyAssign,
    /// `/=`
    DivideAssign,
    /// `%=`
    RemainderAssign,
    /// `==`
    Equal,
    /// `!=`
    NotEqual,
    /// `<`
    Less,
    /// `>`
    Greater,
    /// `<=`
    LessOrEqual,
    /// `>=`
    GreaterOrEqual,
    /// `+`
    Plus,
    /// `-`
    Minus,
    /// `*`
    Star,
    /// `/`
    Slash,
    /// `%`
    Percent,
    /// `++`
    PlusPlus,
    /// `--`
    MinusMinus,
    /// `!`
    Not,
    /// `&&`
    And,
    /// `||`
    Or,
    /// `=>`
    Arrow,
    /// `$"`, which begins an interpolated text.
    InterpolationStart,
    /// `"`, which ends an interpolated text.
    InterpolationEnd,
    /// `{`, behind which an expression stands in an interpolated text.
    HoleOpen,
    /// `}` behind that expression.
    HoleClose,
}
