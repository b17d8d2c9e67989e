// Prints whole expressions, statements and members.
ghost use Rattle.std.specs.Prelude.{◌≡◌, IfOk};
ghost use Rattle.cs_grammar.specs.Lambdas.{Spelled};
ghost use Rattle.cs_grammar.specs.Members.{SpelledMembers};
ghost use Rattle.cs_grammar.specs.Statements.{SpelledStatements};
ghost use Rattle.cs_print.specs.Again.{IsSpelled, SpellsAgain};
ghost use Rattle.cs_print.specs.Alike.{Alike, AlikeAllStatements, AlikeMembers, Each};
ghost use Rattle.cs_print.specs.Layout.{code_text};
ghost use Rattle.cs_print.specs.Printed.{whole, printed, statements_kinds};
ghost use Rattle.cs_print.specs.PrintedMembers.{members_kinds};

use crate::expressions::push_whole;
use crate::lists::push_statements;
use crate::members::push_members;
use cs_ast::{Expr, Member, Stmt};
use std::alloc::Global;
use text_core::{Oom, Txt};

/// A text that spells the expression, or lambda, again. Some text spells it.
#[tactic(auto, using(crate::proofs::Theorems::expression_again))]
pub fn print_expression(alloc: Global, a: &Expr) -> Result<Txt, Oom>
    requires { IsSpelled Spelled a.now }
    ensures again { IfOk result (λ text. SpellsAgain Spelled Alike text a.now) }
    ensures exact { IfOk result (λ text. text ≡ code_text (whole (printed a.now))) }
{
    let mut text = Txt::new(alloc);
    push_whole(alloc, &mut text, a)?;
    Ok(text)
}

/// A text that spells the statements again. Some text spells them.
#[tactic(auto, using(crate::proofs::Theorems::statements_again))]
pub fn print_statements(alloc: Global, statements: &[Stmt]) -> Result<Txt, Oom>
    requires { IsSpelled SpelledStatements statements.now }
    ensures again { IfOk result (λ text. SpellsAgain SpelledStatements AlikeAllStatements text statements.now) }
    ensures exact { IfOk result (λ text. text ≡ code_text (statements_kinds statements.now)) }
{
    let mut text = Txt::new(alloc);
    push_statements(alloc, &mut text, statements)?;
    Ok(text)
}

/// A text that spells the members again. Some text spells them.
#[tactic(auto, using(crate::proofs::Theorems::members_again))]
pub fn print_members(alloc: Global, members: &[Member]) -> Result<Txt, Oom>
    requires { IsSpelled SpelledMembers members.now }
    ensures again { IfOk result (λ text. SpellsAgain SpelledMembers (Each AlikeMembers) text members.now) }
    ensures exact { IfOk result (λ text. text ≡ code_text (members_kinds members.now)) }
{
    let mut text = Txt::new(alloc);
    push_members(alloc, &mut text, members)?;
    Ok(text)
}
