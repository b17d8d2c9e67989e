// A line for each kind of frame.
ghost use Rattle.std.specs.Prelude.{◌≡◌, ◌+◌, ◌<◌, ◌^◌, ◌++◌, codes, IfOk, IsTrue, OnOk};
ghost use Rattle.std.specs.Fmt.{decimal};
ghost use Rattle.text_core.specs.Ascii.{is_ascii};
ghost use Rattle.frame_text.specs.Lines.{attribute_line, component_line, element_line, escaped, escaped_character, markup_line, region_line, text_line, value_text};

use frame_core::{ItemAttribute, ItemValue};
use std::alloc::Global;
use text_core::{Oom, Txt};

fn push_number(alloc: Global, line: &mut Txt, number: u64) -> Result<(), Oom>
    ensures { OnOk result (line.new ≡ line.old ++ decimal number) }
{
    let digits = number.to_string(alloc)?;
    line.push_str(digits.as_str())
}

fn push_character(line: &mut Txt, character: char) -> Result<(), Oom>
    ensures { OnOk result (line.new ≡ line.old ++ escaped_character character) }
{
    match character {
        '\\' => line.push_str("\\\\"),
        '\n' => line.push_str("\\n"),
        '\r' => line.push_str("\\r"),
        _ => line.push(character),
    }
}

/// A text without line ends: a backslash, a line feed and a carriage return are escaped.
fn push_escaped(line: &mut Txt, text: &Txt) -> Result<(), Oom>
    ensures { OnOk result (line.new ≡ line.old ++ escaped text.now) }
{
    for character in text.as_str().chars() {
        push_character(line, character)?;
    }
    Ok(())
}

/// A line that begins with a kind of frame and the number of a template node.
fn begun(alloc: Global, kind: &str, number: u32) -> Result<Txt, Oom>
    requires { IsTrue (is_ascii kind.now) }
    ensures { IfOk result (λ line. line ≡ kind.now ++ codes " " ++ decimal number ++ codes " ") }
{
    let mut line = Txt::new(alloc);
    line.push_str(kind)?;
    line.push(' ')?;
    push_number(alloc, &mut line, u64::from(number))?;
    line.push(' ')?;
    Ok(line)
}

/// The line of an element that is so many frames with what is in it.
pub fn element_line(alloc: Global, number: u32, name: &Txt, count: usize) -> Result<Txt, Oom>
    ensures { IfOk result (λ line. line ≡ element_line number name.now count) }
{
    let mut line = begun(alloc, "element", number)?;
    push_number(alloc, &mut line, count as u64)?;
    line.push(' ')?;
    push_escaped(&mut line, name)?;
    Ok(line)
}

/// The line of a region that is so many frames with what is in it.
pub fn region_line(alloc: Global, number: u32, count: usize) -> Result<Txt, Oom>
    ensures { IfOk result (λ line. line ≡ region_line number count) }
{
    let mut line = begun(alloc, "region", number)?;
    push_number(alloc, &mut line, count as u64)?;
    Ok(line)
}

pub fn text_line(alloc: Global, number: u32, text: &Txt) -> Result<Txt, Oom>
    ensures { IfOk result (λ line. line ≡ text_line number text.now) }
{
    let mut line = begun(alloc, "text", number)?;
    push_escaped(&mut line, text)?;
    Ok(line)
}

pub fn markup_line(alloc: Global, number: u32, text: &Txt) -> Result<Txt, Oom>
    ensures { IfOk result (λ line. line ≡ markup_line number text.now) }
{
    let mut line = begun(alloc, "markup", number)?;
    push_escaped(&mut line, text)?;
    Ok(line)
}

/// What an attribute says behind its name; a handler has this id.
fn push_value(alloc: Global, line: &mut Txt, value: &ItemValue, given: u64) -> Result<(), Oom>
    ensures { OnOk result (line.new ≡ line.old ++ value_text value.now given) }
{
    match value {
        ItemValue::Text(text) => {
            line.push('=')?;
            push_escaped(line, text)
        }
        ItemValue::Handler(_) => {
            line.push_str(" #")?;
            push_number(alloc, line, given.checked_add(1).ok_or(Oom)?)
        }
    }
}

/// The line of an attribute or a handler, where so many handlers have ids already.
pub fn attribute_line(alloc: Global, attribute: &ItemAttribute, given: u64) -> Result<Txt, Oom>
    ensures { IfOk result (λ line. line ≡ attribute_line attribute.now given) }
{
    let mut line = begun(alloc, "attribute", attribute.number)?;
    push_escaped(&mut line, &attribute.name)?;
    push_value(alloc, &mut line, &attribute.value, given)?;
    Ok(line)
}

/// The line before those of the frames of a component of this name.
pub fn component_line(alloc: Global, name: &Txt) -> Result<Txt, Oom>
    ensures { IfOk result (λ line. line ≡ component_line name.now) }
{
    let mut line = Txt::new(alloc);
    line.push_str("component 1 ")?;
    push_escaped(&mut line, name)?;
    Ok(line)
}
