// The tokens of words and signs.
use crate::tokens::lexed;
use cs_token::{Sign, TokenKind, Word};
use std::alloc::Global;
use std::process::Abort;
use std::test::Fail;
use text_core::Txt;

fn is_token(rt: &impl Abort, alloc: Global, text: &str, kind: &TokenKind) -> Result<(), Fail> {
    let tokens = lexed(alloc, text)?;
    assert_eq!(rt; tokens.len(), 1, "{text:?}");
    assert!(rt; tokens[0].kind == *kind, "{text:?}");
    Ok(())
}

fn are_words(rt: &impl Abort, alloc: Global, rows: &[(&str, Word)]) -> Result<(), Fail> {
    for (text, word) in rows {
        is_token(rt, alloc, text, &TokenKind::Word(*word))?;
        let spelled = Txt::from_str(alloc, text)?;
        assert!(rt; spelled.is(word.spelling()), "{text:?}");
    }
    Ok(())
}

#[test]
fn knows_every_word(rt: HostRuntime) -> Result<(), Fail> {
    are_words(
        &rt,
        rt.alloc(),
        &[
            ("async", Word::Async),
            ("await", Word::Await),
            ("bool", Word::Bool),
            ("break", Word::Break),
            ("case", Word::Case),
            ("continue", Word::Continue),
            ("default", Word::Default),
            ("else", Word::Else),
            ("false", Word::False),
            ("for", Word::For),
            ("foreach", Word::Foreach),
            ("if", Word::If),
            ("in", Word::In),
            ("int", Word::Int),
            ("internal", Word::Internal),
            ("new", Word::New),
            ("null", Word::Null),
            ("override", Word::Override),
            ("private", Word::Private),
            ("protected", Word::Protected),
            ("public", Word::Public),
            ("return", Word::Return),
            ("string", Word::String),
            ("switch", Word::Switch),
            ("true", Word::True),
            ("var", Word::Var),
            ("void", Word::Void),
            ("while", Word::While),
            ("Task", Word::Task),
            ("MarkupString", Word::MarkupString),
            ("ImmutableList", Word::ImmutableList),
            ("EventCallback", Word::EventCallback),
            ("RenderFragment", Word::RenderFragment),
            ("ChangeEventArgs", Word::ChangeEventArgs),
            ("EventArgs", Word::EventArgs),
            ("MouseEventArgs", Word::MouseEventArgs),
            ("KeyboardEventArgs", Word::KeyboardEventArgs),
            ("FocusEventArgs", Word::FocusEventArgs),
        ],
    )
}

fn are_signs(rt: &impl Abort, alloc: Global, rows: &[(&str, Sign)]) -> Result<(), Fail> {
    for (text, sign) in rows {
        is_token(rt, alloc, text, &TokenKind::Sign(*sign))?;
    }
    Ok(())
}

#[test]
fn knows_every_sign(rt: HostRuntime) -> Result<(), Fail> {
    are_signs(
        &rt,
        rt.alloc(),
        &[
            ("(", Sign::OpenRound),
            (")", Sign::CloseRound),
            ("[", Sign::OpenSquare),
            ("]", Sign::CloseSquare),
            ("{", Sign::OpenBrace),
            ("}", Sign::CloseBrace),
            (",", Sign::Comma),
            (";", Sign::Semicolon),
            (".", Sign::Dot),
            ("?.", Sign::QuestionDot),
            ("?", Sign::Question),
            ("??", Sign::QuestionQuestion),
            (":", Sign::Colon),
            ("=", Sign::Assign),
            ("+=", Sign::AddAssign),
            ("-=", Sign::SubtractAssign),
            ("*=", Sign::MultiplyAssign),
            ("/=", Sign::DivideAssign),
            ("%=", Sign::RemainderAssign),
            ("==", Sign::Equal),
            ("!=", Sign::NotEqual),
            ("<", Sign::Less),
            (">", Sign::Greater),
            ("<=", Sign::LessOrEqual),
            (">=", Sign::GreaterOrEqual),
            ("+", Sign::Plus),
            ("-", Sign::Minus),
            ("*", Sign::Star),
            ("/", Sign::Slash),
            ("%", Sign::Percent),
            ("++", Sign::PlusPlus),
            ("--", Sign::MinusMinus),
            ("!", Sign::Not),
            ("&&", Sign::And),
            ("||", Sign::Or),
            ("=>", Sign::Arrow),
        ],
    )
}
