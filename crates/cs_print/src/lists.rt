// Writes the lists in expressions and statements.
ghost use Rattle.std.specs.Prelude.{◌≡◌, ◌++◌, [], ◌∷◌, OnOk, map};
ghost use Rattle.std.specs.List.{flat_map};
ghost use Rattle.cs_token.specs.declared.token.TokenKind.TheVariants as k;
ghost use Rattle.cs_token.specs.declared.token.Sign.TheVariants as s;
ghost use Rattle.cs_print.specs.Layout.{code_text};
ghost use Rattle.cs_print.specs.Printed as spec;
ghost use Rattle.cs_print.specs.Printed.{whole, printed, in_round, listed, behind_commas, joined, part_kinds, text_kinds, statement_kinds, section_kinds};

use crate::expressions::push_whole;
use crate::labels::push_labels;
use crate::statements::push_statement;
use crate::tokens::{push_name, push_part, push_sign};
use cs_ast::{Expr, Section, Stmt, TextPart, WithPart};
use cs_token::Sign;
use std::alloc::Global;
use text_core::{Oom, Txt};

/// Arguments in brackets.
#[cycle(code)]
#[tactic(auto, using(crate::proofs::TextLaws::text_then, crate::proofs::TextLaws::text_behind, crate::proofs::TextLaws::text_alone))]
pub fn push_arguments(alloc: Global, out: &mut Txt, arguments: &[Expr]) -> Result<(), Oom>
    ensures { OnOk result (out.new ≡ out.old ++ code_text (in_round (listed (map whole (map printed arguments.now))))) }
{
    push_sign(out, Sign::OpenRound)?;
    push_values(alloc, out, arguments)?;
    push_sign(out, Sign::CloseRound)
}

#[cycle(code)]
#[tactic(auto, using(crate::proofs::WrittenLaws::no_values, crate::proofs::WrittenLaws::some_values))]
fn push_values(alloc: Global, out: &mut Txt, values: &[Expr]) -> Result<(), Oom>
    ensures { OnOk result (out.new ≡ out.old ++ code_text (listed (map whole (map printed values.now)))) }
{
    match values {
        [] => Ok(()),
        [first, rest @ ..] => {
            push_whole(alloc, out, first)?;
            push_more_values(alloc, out, rest)
        }
    }
}

/// A comma and a value.
#[cycle(code)]
#[tactic(auto, using(crate::proofs::TextLaws::text_then, crate::proofs::TextLaws::text_behind, crate::proofs::TextLaws::text_alone))]
fn push_another_value(alloc: Global, out: &mut Txt, value: &Expr) -> Result<(), Oom>
    ensures { OnOk result (out.new ≡ out.old ++ code_text (k.Sign s.Comma ∷ whole (printed value.now))) }
{
    push_sign(out, Sign::Comma)?;
    push_whole(alloc, out, value)
}

/// Values with a comma before each.
#[cycle(code)]
fn push_more_values(alloc: Global, out: &mut Txt, values: &[Expr]) -> Result<(), Oom>
    ensures { OnOk result (out.new ≡ out.old ++ code_text (behind_commas (map whole (map printed values.now)))) }
{
    for value in values {
        push_another_value(alloc, out, value)?;
    }
    Ok(())
}

#[cycle(code)]
#[tactic(auto, using(crate::proofs::TextLaws::text_then, crate::proofs::TextLaws::text_behind, crate::proofs::TextLaws::text_alone, crate::proofs::PrintedLaws::part_law))]
fn push_given(alloc: Global, out: &mut Txt, part: &WithPart) -> Result<(), Oom>
    ensures { OnOk result (out.new ≡ out.old ++ code_text (part_kinds part.now)) }
{
    push_name(out, &part.name.name)?;
    push_sign(out, Sign::Assign)?;
    push_whole(alloc, out, &part.value)
}

/// Parts behind `with`.
#[cycle(code)]
#[tactic(auto, using(crate::proofs::WrittenLaws::no_parts, crate::proofs::WrittenLaws::some_parts))]
pub fn push_parts(alloc: Global, out: &mut Txt, parts: &[WithPart]) -> Result<(), Oom>
    ensures { OnOk result (out.new ≡ out.old ++ code_text (listed (map part_kinds parts.now))) }
{
    match parts {
        [] => Ok(()),
        [first, rest @ ..] => {
            push_given(alloc, out, first)?;
            push_more_parts(alloc, out, rest)
        }
    }
}

/// A comma and a part.
#[cycle(code)]
#[tactic(auto, using(crate::proofs::TextLaws::text_then, crate::proofs::TextLaws::text_behind, crate::proofs::TextLaws::text_alone))]
fn push_another_part(alloc: Global, out: &mut Txt, part: &WithPart) -> Result<(), Oom>
    ensures { OnOk result (out.new ≡ out.old ++ code_text (k.Sign s.Comma ∷ part_kinds part.now)) }
{
    push_sign(out, Sign::Comma)?;
    push_given(alloc, out, part)
}

/// Parts with a comma before each.
#[cycle(code)]
fn push_more_parts(alloc: Global, out: &mut Txt, parts: &[WithPart]) -> Result<(), Oom>
    ensures { OnOk result (out.new ≡ out.old ++ code_text (behind_commas (map part_kinds parts.now))) }
{
    for part in parts {
        push_another_part(alloc, out, part)?;
    }
    Ok(())
}

/// A piece of an interpolated text.
#[cycle(code)]
#[tactic(auto, using(crate::proofs::TextLaws::text_then, crate::proofs::TextLaws::text_behind, crate::proofs::TextLaws::text_alone, crate::proofs::PrintedLaws::text_literal, crate::proofs::PrintedLaws::text_hole))]
fn push_text_part(alloc: Global, out: &mut Txt, part: &TextPart) -> Result<(), Oom>
    ensures { OnOk result (out.new ≡ out.old ++ code_text (text_kinds part.now)) }
{
    match part {
        TextPart::Literal(text) => push_part(out, text),
        TextPart::Hole(a) => push_hole(alloc, out, a),
    }
}

#[cycle(code)]
#[tactic(auto, using(crate::proofs::TextLaws::text_then, crate::proofs::TextLaws::text_behind, crate::proofs::TextLaws::text_alone))]
fn push_hole(alloc: Global, out: &mut Txt, a: &Expr) -> Result<(), Oom>
    ensures { OnOk result (out.new ≡ out.old ++ code_text (spec.in_hole (whole (printed a.now)))) }
{
    push_sign(out, Sign::HoleOpen)?;
    push_whole(alloc, out, a)?;
    push_sign(out, Sign::HoleClose)
}

#[cycle(code)]
pub fn push_texts(alloc: Global, out: &mut Txt, parts: &[TextPart]) -> Result<(), Oom>
    ensures { OnOk result (out.new ≡ out.old ++ code_text (joined (map text_kinds parts.now))) }
{
    for part in parts {
        push_text_part(alloc, out, part)?;
    }
    Ok(())
}

#[cycle(code)]
pub fn push_statements(alloc: Global, out: &mut Txt, statements: &[Stmt]) -> Result<(), Oom>
    ensures { OnOk result (out.new ≡ out.old ++ code_text (joined (map statement_kinds statements.now))) }
{
    for statement in statements {
        push_statement(alloc, out, statement)?;
    }
    Ok(())
}

#[cycle(code)]
#[tactic(auto, using(crate::proofs::TextLaws::text_then, crate::proofs::TextLaws::text_behind, crate::proofs::TextLaws::text_alone, crate::proofs::PrintedLaws::section_law))]
fn push_section(alloc: Global, out: &mut Txt, section: &Section) -> Result<(), Oom>
    ensures { OnOk result (out.new ≡ out.old ++ code_text (section_kinds section.now)) }
{
    push_labels(alloc, out, section.labels.as_slice())?;
    push_statements(alloc, out, section.body.as_slice())
}

#[cycle(code)]
pub fn push_sections(alloc: Global, out: &mut Txt, sections: &[Section]) -> Result<(), Oom>
    ensures { OnOk result (out.new ≡ out.old ++ code_text (joined (map section_kinds sections.now))) }
{
    for section in sections {
        push_section(alloc, out, section)?;
    }
    Ok(())
}
