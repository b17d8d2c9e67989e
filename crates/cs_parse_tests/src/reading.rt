// What texts are read as, or why they are not.
use cs_ast::{Expr, Member, Stmt};
use cs_parse::{ParseFault, expression, members, statements};
use cs_token::{LexFault, Token, tokens};
use sqlite_items::Items;
use std::alloc::Global;
use std::process::Abort;
use std::test::Fail;
use text_core::{Place, Txt};

/// The most bytes that a text has whose tokens are asked for.
const BYTES: usize = 1_048_576;

fn lexed(alloc: Global, text: &str) -> Result<Vec<Token>, LexFault> {
    let text = Txt::from_str(alloc, text)?;
    if text.as_str().len() > BYTES {
        return Err(LexFault::Oom);
    }
    tokens(alloc, &text)
}

fn tokens_of(alloc: Global, text: &str) -> Result<Vec<Token>, Fail> {
    Ok(lexed(alloc, text)?)
}

pub fn expression_of(alloc: Global, text: &str) -> Result<Expr, Fail> {
    let tokens = tokens_of(alloc, text)?;
    Ok(expression(alloc, &tokens)?)
}

pub fn statements_of(alloc: Global, text: &str) -> Result<Items<Stmt>, Fail> {
    let tokens = tokens_of(alloc, text)?;
    Ok(statements(alloc, &tokens)?)
}

pub fn members_of(alloc: Global, text: &str) -> Result<Items<Member>, Fail> {
    let tokens = tokens_of(alloc, text)?;
    Ok(members(alloc, &tokens)?)
}

/// What a text is read as.
#[derive(Clone, Copy)]
pub enum Form {
    Expression,
    Statements,
    Members,
}

fn fault(alloc: Global, form: Form, tokens: &[Token]) -> Option<ParseFault> {
    match form {
        Form::Expression => expression(alloc, tokens).err(),
        Form::Statements => statements(alloc, tokens).err(),
        Form::Members => members(alloc, tokens).err(),
    }
}

/// Why a text is not read, if it is not.
pub fn fault_of(alloc: Global, form: Form, text: &str) -> Result<Option<ParseFault>, Fail> {
    let tokens = tokens_of(alloc, text)?;
    Ok(fault(alloc, form, &tokens))
}

pub fn is_syntax_fault(alloc: Global, form: Form, text: &str) -> Result<bool, Fail> {
    let fault = fault_of(alloc, form, text)?;
    Ok(matches!(fault, Some(ParseFault::Syntax { .. })))
}

/// Each text is refused in its first line, at the column beside it.
pub fn are_refused(
    rt: &impl Abort,
    alloc: Global,
    form: Form,
    rows: &[(&str, u32)],
) -> Result<(), Fail> {
    for (text, column) in rows {
        let place = Place {
            line: 1,
            column: *column,
        };
        let fault = fault_of(alloc, form, text)?;
        assert_eq!(rt; fault, Some(ParseFault::Syntax { place }), "{text}");
    }
    Ok(())
}
