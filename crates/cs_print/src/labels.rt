// Writes the labels of a `switch`.
ghost use Rattle.std.specs.Prelude.{◌≡◌, ◌++◌, [], ◌∷◌, OnOk, map};
ghost use Rattle.cs_ast.specs.declared.expression.LabelKind.TheVariants as lk;
ghost use Rattle.cs_token.specs.declared.token.TokenKind.TheVariants as k;
ghost use Rattle.cs_token.specs.declared.token.Sign.TheVariants as s;
ghost use Rattle.cs_token.specs.declared.token.Word.TheVariants as w;
ghost use Rattle.cs_print.specs.Layout.{code_text};
ghost use Rattle.cs_print.specs.Printed.{joined, constant, label_kinds};

use crate::operators::truth_word;
use crate::tokens::{push_number, push_sign, push_text, push_unsigned, push_word};
use cs_ast::{Label, LabelKind};
use cs_token::{Sign, Word};
use std::alloc::Global;
use text_core::{Oom, Txt};

/// A number, which may be below 0.
#[tactic(auto, using(crate::proofs::TextLaws::text_then, crate::proofs::TextLaws::text_behind, crate::proofs::TextLaws::text_alone))]
fn push_integer(alloc: Global, out: &mut Txt, number: i32) -> Result<(), Oom>
    ensures { OnOk result (out.new ≡ out.old ++ code_text (constant (lk.Int number))) }
{
    if number >= 0 {
        return push_number(alloc, out, number);
    }
    push_sign(out, Sign::Minus)?;
    push_unsigned(alloc, out, number.unsigned_abs())
}

/// What a label says.
#[tactic(auto, using(crate::proofs::TextLaws::text_then, crate::proofs::TextLaws::text_behind, crate::proofs::TextLaws::text_alone, crate::proofs::TextLaws::text_nothing))]
fn push_constant(alloc: Global, out: &mut Txt, kind: &LabelKind) -> Result<(), Oom>
    ensures { OnOk result (out.new ≡ out.old ++ code_text (constant kind.now)) }
{
    match kind {
        LabelKind::Int(number) => push_integer(alloc, out, *number),
        LabelKind::Bool(truth) => push_word(out, truth_word(*truth)),
        LabelKind::Text(text) => push_text(out, text),
        LabelKind::Null => push_word(out, Word::Null),
        LabelKind::Default => Ok(()),
    }
}

/// A constant behind `case`.
#[tactic(auto, using(crate::proofs::TextLaws::text_then, crate::proofs::TextLaws::text_behind, crate::proofs::TextLaws::text_alone))]
fn push_case(alloc: Global, out: &mut Txt, kind: &LabelKind) -> Result<(), Oom>
    ensures { OnOk result (out.new ≡ out.old ++ code_text (k.Word w.Case ∷ (constant kind.now ++ k.Sign s.Colon ∷ []))) }
{
    push_word(out, Word::Case)?;
    push_constant(alloc, out, kind)?;
    push_sign(out, Sign::Colon)
}

#[tactic(auto, using(crate::proofs::TextLaws::text_then, crate::proofs::TextLaws::text_behind, crate::proofs::TextLaws::text_alone))]
fn push_default(out: &mut Txt) -> Result<(), Oom>
    ensures { OnOk result (out.new ≡ out.old ++ code_text (k.Word w.Default ∷ k.Sign s.Colon ∷ [])) }
{
    push_word(out, Word::Default)?;
    push_sign(out, Sign::Colon)
}

fn push_label(alloc: Global, out: &mut Txt, label: &Label) -> Result<(), Oom>
    ensures { OnOk result (out.new ≡ out.old ++ code_text (label_kinds label.now.kind)) }
{
    match &label.kind {
        LabelKind::Default => push_default(out),
        _ => push_case(alloc, out, &label.kind),
    }
}

pub fn push_labels(alloc: Global, out: &mut Txt, labels: &[Label]) -> Result<(), Oom>
    ensures { OnOk result (out.new ≡ out.old ++ code_text (joined (map (λ label. label_kinds label.kind) labels.now))) }
{
    for label in labels {
        push_label(alloc, out, label)?;
    }
    Ok(())
}
