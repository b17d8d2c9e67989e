// Writes single tokens, each with the blank behind it.
ghost use Rattle.std.specs.Prelude.{◌≡◌, ◌++◌, OnOk, IfOk, IsTrue, pos};
ghost use Rattle.std.specs.Fmt.{decimal};
ghost use Rattle.text_core.specs.Ascii.{is_ascii};
ghost use Rattle.cs_token.specs.declared.token.TokenKind.TheVariants as k;
ghost use Rattle.cs_token.specs.Words.{spelling};
ghost use Rattle.cs_print.specs.Layout.{quoted as quoted_character, in_part, quoted_text, part_text, laid};

use cs_token::{Sign, Word};
use std::alloc::Global;
use text_core::{Oom, Txt, show_i32};

fn push_all(out: &mut Txt, text: &[char]) -> Result<(), Oom>
    ensures { OnOk result (out.new ≡ out.old ++ text.now) }
{
    for character in text {
        out.push(*character)?;
    }
    Ok(())
}

#[tactic(auto, unfolding(crate::specs::Layout::token_text, crate::specs::Layout::gap_behind))]
pub fn push_sign(out: &mut Txt, sign: Sign) -> Result<(), Oom>
    ensures { OnOk result (out.new ≡ out.old ++ laid (k.Sign sign)) }
{
    push_all(out, sign.mark())?;
    match sign {
        Sign::InterpolationStart | Sign::HoleClose => Ok(()),
        _ => out.push(' '),
    }
}

fn push_spelling(out: &mut Txt, word: Word) -> Result<(), Oom>
    ensures { OnOk result (out.new ≡ out.old ++ spelling word) }
{
    out.push_str(word.spelling())?;
    Ok(())
}

#[tactic(auto, unfolding(crate::specs::Layout::token_text, crate::specs::Layout::gap_behind))]
pub fn push_word(out: &mut Txt, word: Word) -> Result<(), Oom>
    ensures { OnOk result (out.new ≡ out.old ++ laid (k.Word word)) }
{
    push_spelling(out, word)?;
    out.push(' ')
}

#[tactic(auto, unfolding(crate::specs::Layout::token_text, crate::specs::Layout::gap_behind))]
pub fn push_name(out: &mut Txt, name: &Txt) -> Result<(), Oom>
    ensures { OnOk result (out.new ≡ out.old ++ laid (k.Name name.now)) }
{
    out.push_text(name)?;
    out.push(' ')
}

/// A name that is always the same.
#[tactic(auto, unfolding(crate::specs::Layout::token_text, crate::specs::Layout::gap_behind))]
pub fn push_fixed(out: &mut Txt, name: &str) -> Result<(), Oom>
    requires { IsTrue (is_ascii name.now) }
    ensures { OnOk result (out.new ≡ out.old ++ laid (k.Name name.now)) }
{
    out.push_str(name)?;
    out.push(' ')?;
    Ok(())
}

#[tactic(auto, unfolding(crate::specs::Layout::token_text, crate::specs::Layout::gap_behind))]
pub fn push_number(alloc: Global, out: &mut Txt, number: i32) -> Result<(), Oom>
    ensures { OnOk result (out.new ≡ out.old ++ laid (k.Number number)) }
{
    let digits = show_i32(alloc, number)?;
    out.push_text(&digits)?;
    out.push(' ')
}

fn show_u32(alloc: Global, number: u32) -> Result<Txt, Oom>
    ensures { IfOk result (λ text. text ≡ decimal number) }
{
    let digits = number.to_string(alloc)?;
    Ok(Txt::from(digits))
}

#[tactic(auto, unfolding(crate::specs::Layout::token_text, crate::specs::Layout::gap_behind))]
pub fn push_unsigned(alloc: Global, out: &mut Txt, number: u32) -> Result<(), Oom>
    ensures { OnOk result (out.new ≡ out.old ++ laid (k.Number (pos number))) }
{
    let digits = show_u32(alloc, number)?;
    out.push_text(&digits)?;
    out.push(' ')
}

/// A character of a text.
fn push_quoted(out: &mut Txt, character: char) -> Result<(), Oom>
    ensures { OnOk result (out.new ≡ out.old ++ quoted_character character) }
{
    match character {
        '"' => out.push_str("\\\""),
        '\\' => out.push_str("\\\\"),
        '\n' => out.push_str("\\n"),
        '\'' => out.push_str("\\u0027"),
        _ => out.push(character),
    }
}

/// A character of a literal part of an interpolated text.
fn push_in_part(out: &mut Txt, character: char) -> Result<(), Oom>
    ensures { OnOk result (out.new ≡ out.old ++ in_part character) }
{
    if character == '{' || character == '}' {
        out.push(character)?;
        return out.push(character);
    }
    push_quoted(out, character)
}

fn push_all_quoted(out: &mut Txt, text: &Txt) -> Result<(), Oom>
    ensures { OnOk result (out.new ≡ out.old ++ quoted_text text.now) }
{
    for character in text.as_str().chars() {
        push_quoted(out, character)?;
    }
    Ok(())
}

fn push_all_in_part(out: &mut Txt, text: &Txt) -> Result<(), Oom>
    ensures { OnOk result (out.new ≡ out.old ++ part_text text.now) }
{
    for character in text.as_str().chars() {
        push_in_part(out, character)?;
    }
    Ok(())
}

#[tactic(auto, unfolding(crate::specs::Layout::token_text, crate::specs::Layout::gap_behind))]
pub fn push_text(out: &mut Txt, text: &Txt) -> Result<(), Oom>
    ensures { OnOk result (out.new ≡ out.old ++ laid (k.Text text.now)) }
{
    out.push('"')?;
    push_all_quoted(out, text)?;
    out.push('"')?;
    out.push(' ')
}

/// A literal part of an interpolated text.
#[tactic(auto, using(crate::proofs::TextLaws::text_part))]
pub fn push_part(out: &mut Txt, text: &Txt) -> Result<(), Oom>
    ensures { OnOk result (out.new ≡ out.old ++ laid (k.Part text.now)) }
{
    push_all_in_part(out, text)
}
