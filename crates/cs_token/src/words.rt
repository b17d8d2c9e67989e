// The words that are no names.
ghost use Rattle.std.specs.Prelude.{◌≡◌};
ghost use Rattle.std.specs.List.{find};
ghost use Rattle.std.specs.Str.{bytes_eq};
ghost use Rattle.cs_token.specs.Words.{spelling};
ghost use Rattle.cs_token.specs.Reading.Words.{word_of};

use crate::Word;
use text_core::Txt;

/// All of them.
const WORDS: [Word; 38] = [
    Word::Async,
    Word::Await,
    Word::Bool,
    Word::Break,
    Word::Case,
    Word::Continue,
    Word::Default,
    Word::Else,
    Word::False,
    Word::For,
    Word::Foreach,
    Word::If,
    Word::In,
    Word::Int,
    Word::Internal,
    Word::New,
    Word::Null,
    Word::Override,
    Word::Private,
    Word::Protected,
    Word::Public,
    Word::Return,
    Word::String,
    Word::Switch,
    Word::True,
    Word::Var,
    Word::Void,
    Word::While,
    Word::Task,
    Word::MarkupString,
    Word::ImmutableList,
    Word::EventCallback,
    Word::RenderFragment,
    Word::ChangeEventArgs,
    Word::EventArgs,
    Word::MouseEventArgs,
    Word::KeyboardEventArgs,
    Word::FocusEventArgs,
];

impl Word {
    /// How the word is written.
    #[tactic(auto, unfolding(crate::specs::Words::spelling))]
    pub fn spelling(self) -> &'static str
        ensures { result.now ≡ spelling self }
    {
        match self {
            Word::Async => "async",
            Word::Await => "await",
            Word::Bool => "bool",
            Word::Break => "break",
            Word::Case => "case",
            Word::Continue => "continue",
            Word::Default => "default",
            Word::Else => "else",
            Word::False => "false",
            Word::For => "for",
            Word::Foreach => "foreach",
            Word::If => "if",
            Word::In => "in",
            Word::Int => "int",
            Word::Internal => "internal",
            Word::New => "new",
            Word::Null => "null",
            Word::Override => "override",
            Word::Private => "private",
            Word::Protected => "protected",
            Word::Public => "public",
            Word::Return => "return",
            Word::String => "string",
            Word::Switch => "switch",
            Word::True => "true",
            Word::Var => "var",
            Word::Void => "void",
            Word::While => "while",
            Word::Task => "Task",
            Word::MarkupString => "MarkupString",
            Word::ImmutableList => "ImmutableList",
            Word::EventCallback => "EventCallback",
            Word::RenderFragment => "RenderFragment",
            Word::ChangeEventArgs => "ChangeEventArgs",
            Word::EventArgs => "EventArgs",
            Word::MouseEventArgs => "MouseEventArgs",
            Word::KeyboardEventArgs => "KeyboardEventArgs",
            Word::FocusEventArgs => "FocusEventArgs",
        }
    }

    /// Whether the text is this word.
    #[tactic(auto, using(crate::proofs::WordLemmas::ascii_spelling))]
    fn is_written(self, text: &Txt) -> bool
        ensures { result ≡ bytes_eq text.now (spelling self) }
    {
        text.is(self.spelling())
    }

    /// The word that the text is, if it is one.
    #[tactic(auto, unfolding(crate::specs::Reading::Words::words, crate::specs::Reading::Words::word_of))]
    pub(crate) fn of(text: &Txt) -> Option<Self>
        ensures { result ≡ word_of text.now }
    {
        first_written(&WORDS, text)
    }
}

/// The first of the words that the text is.
fn first_written(words: &[Word], text: &Txt) -> Option<Word>
    ensures { result ≡ find (λ word. bytes_eq text.now (spelling word)) words.now }
{
    for word in words {
        if word.is_written(text) {
            return Some(*word);
        }
    }
    None
}
