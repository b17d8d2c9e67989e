// Writes statements.
ghost use Rattle.std.specs.Prelude.{◌≡◌, ◌++◌, [], ◌∷◌, OnOk, map, option_map};
ghost use Rattle.cs_token.specs.declared.token.TokenKind.TheVariants as k;
ghost use Rattle.cs_token.specs.declared.token.Sign.TheVariants as s;
ghost use Rattle.cs_print.specs.Layout.{code_text};
ghost use Rattle.cs_print.specs.Printed as spec;
ghost use Rattle.cs_print.specs.Printed.{whole, printed, in_round, in_braces, joined, statement_kinds, statement_kind_kinds};

use crate::expressions::push_whole;
use crate::lists::{push_sections, push_statements};
use crate::tokens::{push_name, push_sign, push_word};
use crate::types::push_type;
use cs_ast::{Body, Expr, Ident, Section, Stmt, StmtKind, TypeExpr};
use cs_token::{Sign, Word};
use sqlite_items::Boxed;
use std::alloc::Global;
use text_core::{Oom, Txt};

/// What stands behind the arrow of a lambda.
#[cycle(code)]
#[tactic(auto, using(crate::proofs::TextLaws::text_then, crate::proofs::TextLaws::text_behind, crate::proofs::TextLaws::text_alone, crate::proofs::PrintedLaws::body_value, crate::proofs::PrintedLaws::body_block))]
pub fn push_body(alloc: Global, out: &mut Txt, body: &Body) -> Result<(), Oom>
    ensures { OnOk result (out.new ≡ out.old ++ code_text (spec.body_kinds body.now)) }
{
    match body {
        Body::Value(a) => push_whole(alloc, out, a.get()),
        Body::Block(statements) => push_block(alloc, out, statements.as_slice()),
    }
}

#[cycle(code)]
#[tactic(auto, using(crate::proofs::TextLaws::text_then, crate::proofs::TextLaws::text_behind, crate::proofs::TextLaws::text_alone))]
pub fn push_block(alloc: Global, out: &mut Txt, statements: &[Stmt]) -> Result<(), Oom>
    ensures { OnOk result (out.new ≡ out.old ++ code_text (in_braces (joined (map statement_kinds statements.now)))) }
{
    push_sign(out, Sign::OpenBrace)?;
    push_statements(alloc, out, statements)?;
    push_sign(out, Sign::CloseBrace)
}

#[cycle(code)]
#[tactic(auto, using(crate::proofs::PrintedLaws::statement_law))]
pub fn push_statement(alloc: Global, out: &mut Txt, a: &Stmt) -> Result<(), Oom>
    ensures { OnOk result (out.new ≡ out.old ++ code_text (statement_kinds a.now)) }
{
    push_statement_form(alloc, out, &a.kind)
}

/// A statement by its form.
#[cycle(code)]
#[tactic(auto, using(crate::proofs::TextLaws::text_alone, crate::proofs::PrintedLaws::stmt_empty, crate::proofs::PrintedLaws::stmt_block, crate::proofs::PrintedLaws::stmt_while, crate::proofs::PrintedLaws::stmt_foreach, crate::proofs::PrintedLaws::stmt_switch, crate::proofs::PrintedLaws::stmt_break, crate::proofs::PrintedLaws::stmt_continue, crate::proofs::PrintedLaws::stmt_act, crate::proofs::PrintedLaws::stmt_await, crate::proofs::PrintedLaws::stmt_local, crate::proofs::PrintedLaws::stmt_if, crate::proofs::PrintedLaws::stmt_for, crate::proofs::PrintedLaws::stmt_return))]
fn push_statement_form(alloc: Global, out: &mut Txt, kind: &StmtKind) -> Result<(), Oom>
    ensures { OnOk result (out.new ≡ out.old ++ code_text (statement_kind_kinds kind.now)) }
{
    match kind {
        StmtKind::Local {
            cs_type,
            name,
            value,
        } => push_local(alloc, out, cs_type, name, value),
        StmtKind::Empty => push_sign(out, Sign::Semicolon),
        StmtKind::Block(statements) => push_block(alloc, out, statements.as_slice()),
        StmtKind::If { condition, yes, no } => push_if(alloc, out, condition, yes.get(), no),
        StmtKind::While { condition, body } => push_while(alloc, out, condition, body.get()),
        StmtKind::For {
            start,
            condition,
            step,
            body,
        } => push_for(alloc, out, start, condition, step, body.get()),
        StmtKind::ForEach { name, list, body } => {
            push_foreach(alloc, out, name, list, body.get())
        }
        StmtKind::Switch { value, sections } => {
            push_switch(alloc, out, value, sections.as_slice())
        }
        StmtKind::Break => push_jump(out, Word::Break),
        StmtKind::Continue => push_jump(out, Word::Continue),
        StmtKind::Return(value) => push_return(alloc, out, value),
        StmtKind::Expr(a) => push_act(alloc, out, a),
        StmtKind::Await(a) => push_await(alloc, out, a),
    }
}

#[tactic(auto, using(crate::proofs::TextLaws::text_then, crate::proofs::TextLaws::text_behind, crate::proofs::TextLaws::text_alone))]
fn push_jump(out: &mut Txt, word: Word) -> Result<(), Oom>
    ensures { OnOk result (out.new ≡ out.old ++ code_text (k.Word word ∷ k.Sign s.Semicolon ∷ [])) }
{
    push_word(out, word)?;
    push_sign(out, Sign::Semicolon)
}

#[cycle(code)]
#[tactic(auto, using(crate::proofs::TextLaws::text_then, crate::proofs::TextLaws::text_behind, crate::proofs::TextLaws::text_alone))]
fn push_act(alloc: Global, out: &mut Txt, a: &Expr) -> Result<(), Oom>
    ensures { OnOk result (out.new ≡ out.old ++ code_text (spec.ended (whole (printed a.now)))) }
{
    push_whole(alloc, out, a)?;
    push_sign(out, Sign::Semicolon)
}

#[cycle(code)]
#[tactic(auto, using(crate::proofs::TextLaws::text_then, crate::proofs::TextLaws::text_behind, crate::proofs::TextLaws::text_alone), unfolding(crate::specs::Printed::await_of))]
fn push_await(alloc: Global, out: &mut Txt, a: &Expr) -> Result<(), Oom>
    ensures { OnOk result (out.new ≡ out.old ++ code_text (spec.await_of (printed a.now))) }
{
    push_word(out, Word::Await)?;
    push_act(alloc, out, a)
}

/// An expression, if there is one.
#[cycle(code)]
#[tactic(auto, using(crate::proofs::TextLaws::text_then, crate::proofs::TextLaws::text_behind, crate::proofs::TextLaws::text_alone, crate::proofs::TextLaws::text_nothing))]
pub fn push_optional(alloc: Global, out: &mut Txt, a: &Option<Expr>) -> Result<(), Oom>
    ensures { OnOk result (out.new ≡ out.old ++ code_text (spec.optional (option_map printed a.now))) }
{
    match a {
        None => Ok(()),
        Some(a) => push_whole(alloc, out, a),
    }
}

#[cycle(code)]
#[tactic(auto, using(crate::proofs::TextLaws::text_then, crate::proofs::TextLaws::text_behind, crate::proofs::TextLaws::text_alone), unfolding(crate::specs::Printed::return_of))]
fn push_return(alloc: Global, out: &mut Txt, value: &Option<Expr>) -> Result<(), Oom>
    ensures { OnOk result (out.new ≡ out.old ++ code_text (spec.return_of (option_map printed value.now))) }
{
    push_word(out, Word::Return)?;
    push_optional(alloc, out, value)?;
    push_sign(out, Sign::Semicolon)
}

/// A type, or `var`.
#[tactic(auto, using(crate::proofs::TextLaws::text_then, crate::proofs::TextLaws::text_behind, crate::proofs::TextLaws::text_alone))]
fn push_declared(out: &mut Txt, cs_type: &Option<TypeExpr>) -> Result<(), Oom>
    ensures { OnOk result (out.new ≡ out.old ++ code_text (spec.declared cs_type.now)) }
{
    match cs_type {
        None => push_word(out, Word::Var),
        Some(cs_type) => push_type(out, cs_type),
    }
}

/// An initial value, if there is one.
#[cycle(code)]
#[tactic(auto, using(crate::proofs::TextLaws::text_then, crate::proofs::TextLaws::text_behind, crate::proofs::TextLaws::text_alone, crate::proofs::TextLaws::text_nothing))]
pub fn push_initial(alloc: Global, out: &mut Txt, value: &Option<Expr>) -> Result<(), Oom>
    ensures { OnOk result (out.new ≡ out.old ++ code_text (spec.initial (option_map printed value.now))) }
{
    match value {
        None => Ok(()),
        Some(value) => {
            push_sign(out, Sign::Assign)?;
            push_whole(alloc, out, value)
        }
    }
}

#[cycle(code)]
#[tactic(auto, using(crate::proofs::TextLaws::text_then, crate::proofs::TextLaws::text_behind, crate::proofs::TextLaws::text_alone), unfolding(crate::specs::Printed::local))]
fn push_local(
    alloc: Global,
    out: &mut Txt,
    cs_type: &Option<TypeExpr>,
    name: &Ident,
    value: &Option<Expr>,
) -> Result<(), Oom>
    ensures { OnOk result (out.new ≡ out.old ++ code_text (spec.local cs_type.now name.now.name (option_map printed value.now))) }
{
    push_declared(out, cs_type)?;
    push_name(out, &name.name)?;
    push_initial(alloc, out, value)?;
    push_sign(out, Sign::Semicolon)
}

/// An expression in brackets.
#[cycle(code)]
#[tactic(auto, using(crate::proofs::TextLaws::text_then, crate::proofs::TextLaws::text_behind, crate::proofs::TextLaws::text_alone))]
pub fn push_in_round(alloc: Global, out: &mut Txt, a: &Expr) -> Result<(), Oom>
    ensures { OnOk result (out.new ≡ out.old ++ code_text (in_round (whole (printed a.now)))) }
{
    push_sign(out, Sign::OpenRound)?;
    push_whole(alloc, out, a)?;
    push_sign(out, Sign::CloseRound)
}

/// The other branch, if there is one.
#[cycle(code)]
#[tactic(auto, using(crate::proofs::TextLaws::text_then, crate::proofs::TextLaws::text_behind, crate::proofs::TextLaws::text_alone, crate::proofs::TextLaws::text_nothing))]
fn push_otherwise(alloc: Global, out: &mut Txt, no: &Option<Boxed<Stmt>>) -> Result<(), Oom>
    ensures { OnOk result (out.new ≡ out.old ++ code_text (spec.otherwise (option_map statement_kinds no.now))) }
{
    match no {
        None => Ok(()),
        Some(no) => {
            push_word(out, Word::Else)?;
            push_statement(alloc, out, no.get())
        }
    }
}

#[cycle(code)]
#[tactic(auto, using(crate::proofs::TextLaws::text_then, crate::proofs::TextLaws::text_behind, crate::proofs::TextLaws::text_alone), unfolding(crate::specs::Printed::if_else))]
fn push_if(
    alloc: Global,
    out: &mut Txt,
    condition: &Expr,
    yes: &Stmt,
    no: &Option<Boxed<Stmt>>,
) -> Result<(), Oom>
    ensures { OnOk result (out.new ≡ out.old ++ code_text (spec.if_else (printed condition.now) (statement_kinds yes.now) (option_map statement_kinds no.now))) }
{
    push_word(out, Word::If)?;
    push_in_round(alloc, out, condition)?;
    push_statement(alloc, out, yes)?;
    push_otherwise(alloc, out, no)
}

#[cycle(code)]
#[tactic(auto, using(crate::proofs::TextLaws::text_then, crate::proofs::TextLaws::text_behind, crate::proofs::TextLaws::text_alone), unfolding(crate::specs::Printed::while_loop))]
fn push_while(alloc: Global, out: &mut Txt, condition: &Expr, body: &Stmt) -> Result<(), Oom>
    ensures { OnOk result (out.new ≡ out.old ++ code_text (spec.while_loop (printed condition.now) (statement_kinds body.now))) }
{
    push_word(out, Word::While)?;
    push_in_round(alloc, out, condition)?;
    push_statement(alloc, out, body)
}

/// The start of a `for`, with its semicolon.
#[cycle(code)]
#[tactic(auto, using(crate::proofs::TextLaws::text_then, crate::proofs::TextLaws::text_behind, crate::proofs::TextLaws::text_alone))]
fn push_start(alloc: Global, out: &mut Txt, start: &Option<Boxed<Stmt>>) -> Result<(), Oom>
    ensures { OnOk result (out.new ≡ out.old ++ code_text (spec.started (option_map statement_kinds start.now))) }
{
    match start {
        None => push_sign(out, Sign::Semicolon),
        Some(start) => push_statement(alloc, out, start.get()),
    }
}

#[cycle(code)]
#[tactic(auto, using(crate::proofs::TextLaws::text_then, crate::proofs::TextLaws::text_behind, crate::proofs::TextLaws::text_alone), unfolding(crate::specs::Printed::for_loop))]
fn push_for(
    alloc: Global,
    out: &mut Txt,
    start: &Option<Boxed<Stmt>>,
    condition: &Option<Expr>,
    step: &Option<Expr>,
    body: &Stmt,
) -> Result<(), Oom>
    ensures { OnOk result (out.new ≡ out.old ++ code_text (spec.for_loop (option_map statement_kinds start.now) (option_map printed condition.now) (option_map printed step.now) (statement_kinds body.now))) }
{
    push_word(out, Word::For)?;
    push_sign(out, Sign::OpenRound)?;
    push_start(alloc, out, start)?;
    push_optional(alloc, out, condition)?;
    push_sign(out, Sign::Semicolon)?;
    push_optional(alloc, out, step)?;
    push_sign(out, Sign::CloseRound)?;
    push_statement(alloc, out, body)
}

#[cycle(code)]
#[tactic(auto, using(crate::proofs::TextLaws::text_then, crate::proofs::TextLaws::text_behind, crate::proofs::TextLaws::text_alone), unfolding(crate::specs::Printed::foreach_loop))]
fn push_foreach(
    alloc: Global,
    out: &mut Txt,
    name: &Ident,
    list: &Expr,
    body: &Stmt,
) -> Result<(), Oom>
    ensures { OnOk result (out.new ≡ out.old ++ code_text (spec.foreach_loop name.now.name (printed list.now) (statement_kinds body.now))) }
{
    push_word(out, Word::Foreach)?;
    push_sign(out, Sign::OpenRound)?;
    push_word(out, Word::Var)?;
    push_name(out, &name.name)?;
    push_word(out, Word::In)?;
    push_whole(alloc, out, list)?;
    push_sign(out, Sign::CloseRound)?;
    push_statement(alloc, out, body)
}

#[cycle(code)]
#[tactic(auto, using(crate::proofs::TextLaws::text_then, crate::proofs::TextLaws::text_behind, crate::proofs::TextLaws::text_alone), unfolding(crate::specs::Printed::switch_of))]
fn push_switch(alloc: Global, out: &mut Txt, value: &Expr, sections: &[Section]) -> Result<(), Oom>
    ensures { OnOk result (out.new ≡ out.old ++ code_text (spec.switch_of (printed value.now) (map spec.section_kinds sections.now))) }
{
    push_word(out, Word::Switch)?;
    push_in_round(alloc, out, value)?;
    push_sign(out, Sign::OpenBrace)?;
    push_sections(alloc, out, sections)?;
    push_sign(out, Sign::CloseBrace)
}
