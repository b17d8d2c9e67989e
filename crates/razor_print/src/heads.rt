// Writes what stands before the bodies of statements, and what parts nodes.
ghost use Rattle.std.specs.Prelude.{◌≡◌, ◌++◌, [], ◌∷◌, OnOk, option_map};
ghost use Rattle.cs_token.specs.declared.token.TokenKind.TheVariants as t;
ghost use Rattle.cs_token.specs.declared.token.Word.TheVariants as w;
ghost use Rattle.cs_print.specs.Printed.{whole, printed, in_round, started, statement_kinds};
ghost use Rattle.cs_print.specs.Layout.{code_text};
ghost use Rattle.razor_token.specs.ContentFronts.{is_word};
ghost use Rattle.razor_token.specs.Cutting.{last_of};
ghost use Rattle.razor_print.specs.Parts.{parts_text};
ghost use Rattle.razor_print.specs.Nodes as spec;

use crate::before::Before;
use crate::parts::push_ascii;
use cs_ast::{Expr, Ident, Stmt};
use cs_print::{push_name, push_optional, push_sign, push_statement, push_whole, push_word};
use cs_token::{Class, Sign, Word};
use std::alloc::Global;
use text_core::{Oom, Txt};

/// The start of a `for`, with its semicolon.
#[tactic(auto, using(cs_print::proofs::TextLaws::text_then, cs_print::proofs::TextLaws::text_behind, cs_print::proofs::TextLaws::text_alone))]
fn push_start(alloc: Global, out: &mut Txt, start: &Option<Stmt>) -> Result<(), Oom>
    ensures { OnOk result (out.new ≡ out.old ++ code_text (started (option_map statement_kinds start.now))) }
{
    match start {
        None => push_sign(out, Sign::Semicolon),
        Some(start) => push_statement(alloc, out, start),
    }
}

/// What stands in the brackets of a `for`, with them.
#[tactic(auto, using(cs_print::proofs::TextLaws::text_then, cs_print::proofs::TextLaws::text_behind, cs_print::proofs::TextLaws::text_alone))]
pub fn push_for_head(
    alloc: Global,
    out: &mut Txt,
    start: &Option<Stmt>,
    condition: &Option<Expr>,
    step: &Option<Expr>,
) -> Result<(), Oom>
    ensures { OnOk result (out.new ≡ out.old ++ code_text (in_round (spec.for_head start.now condition.now step.now))) }
{
    push_sign(out, Sign::OpenRound)?;
    push_start(alloc, out, start)?;
    push_optional(alloc, out, condition)?;
    push_sign(out, Sign::Semicolon)?;
    push_optional(alloc, out, step)?;
    push_sign(out, Sign::CloseRound)
}

/// The same of a `foreach`.
#[tactic(auto, using(cs_print::proofs::TextLaws::text_then, cs_print::proofs::TextLaws::text_behind, cs_print::proofs::TextLaws::text_alone))]
pub fn push_foreach_head(alloc: Global, out: &mut Txt, name: &Ident, list: &Expr) -> Result<(), Oom>
    ensures { OnOk result (out.new ≡ out.old ++ code_text (in_round (spec.foreach_head name.now.name list.now))) }
{
    push_sign(out, Sign::OpenRound)?;
    push_word(out, Word::Var)?;
    push_name(out, &name.name)?;
    push_word(out, Word::In)?;
    push_whole(alloc, out, list)?;
    push_sign(out, Sign::CloseRound)
}

/// Whether the last character is a letter or a digit.
#[tactic(auto, using(crate::proofs::LastLaws::word_more))]
fn ends_in_word(text: &Txt) -> bool
    ensures { result ≡ is_word (last_of text.now) }
{
    let mut word = false;
    for character in text.as_str().chars() {
        word = Class::Word.has(character);
    }
    word
}

/// What a text is to the node right behind it.
pub fn behind_text(text: &Txt) -> Before
    ensures { result ≡ spec.behind_text text.now }
{
    if ends_in_word(text) {
        Before::Word
    } else {
        Before::Text
    }
}

/// A comment, where one is needed.
#[tactic(auto, using(crate::proofs::TextLaws::text_nothing, crate::proofs::WrittenLaws::apart_written))]
pub fn push_parted(out: &mut Txt, parted: bool) -> Result<(), Oom>
    ensures { OnOk result (out.new ≡ out.old ++ parts_text (spec.parted parted [])) }
{
    if parted { out.push_str("@**@") } else { Ok(()) }
}
