// Writes single parts.
ghost use Rattle.std.specs.Prelude.{◌≡◌, ◌++◌, [], ◌∷◌, OnOk, IsTrue};
ghost use Rattle.std.specs.List.{flat_map};
ghost use Rattle.text_core.specs.Ascii.{is_ascii};
ghost use Rattle.cs_print.specs.Printed.{whole, printed};
ghost use Rattle.razor_print.specs.Parts as spec;
ghost use Rattle.razor_print.specs.Parts.{parts_text, doubled, led, shown};

use cs_ast::Expr;
use cs_print::push_whole;
use std::alloc::Global;
use text_core::{Oom, Txt};

/// An ASCII text that is always the same.
pub fn push_ascii(out: &mut Txt, text: &str) -> Result<(), Oom>
    requires { IsTrue (is_ascii text.now) }
    ensures { OnOk result (out.new ≡ out.old ++ text.now) }
{
    out.push_str(text)?;
    Ok(())
}

fn push_doubled(out: &mut Txt, character: char) -> Result<(), Oom>
    ensures { OnOk result (out.new ≡ out.old ++ doubled character) }
{
    if character == '@' {
        out.push('@')?;
    }
    out.push(character)
}

fn push_all_doubled(out: &mut Txt, text: &Txt) -> Result<(), Oom>
    ensures { OnOk result (out.new ≡ out.old ++ flat_map doubled text.now) }
{
    for character in text.as_str().chars() {
        push_doubled(out, character)?;
    }
    Ok(())
}

/// Literal text in which an at sign may begin something.
#[tactic(auto, using(crate::proofs::WrittenLaws::said_written))]
pub fn push_said(out: &mut Txt, text: &Txt) -> Result<(), Oom>
    ensures { OnOk result (out.new ≡ out.old ++ parts_text (spec.said text.now ∷ [])) }
{
    push_all_doubled(out, text)
}

/// An expression in the brackets of an at sign.
#[tactic(auto, using(crate::proofs::WrittenLaws::led_written))]
pub fn push_led(alloc: Global, out: &mut Txt, a: &Expr) -> Result<(), Oom>
    ensures { OnOk result (out.new ≡ out.old ++ parts_text (led (whole (printed a.now)))) }
{
    out.push('@')?;
    out.push('(')?;
    push_whole(alloc, out, a)?;
    out.push(')')
}

/// A content expression.
#[tactic(auto, using(crate::proofs::WrittenLaws::shown_written))]
pub fn push_shown(alloc: Global, out: &mut Txt, a: &Expr) -> Result<(), Oom>
    ensures { OnOk result (out.new ≡ out.old ++ parts_text (shown (whole (printed a.now)))) }
{
    push_led(alloc, out, a)
}
