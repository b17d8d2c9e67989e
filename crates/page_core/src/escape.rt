// Characters that do not print as they are.
ghost use Rattle.std.specs.Prelude.{◌≡◌, ◌++◌, OnOk};
ghost use Rattle.page_core.specs.Escapes.{escaped, escaped_character};

use text_core::{Oom, Txt};

/// Where characters stand.
#[derive(Clone, Copy, Debug)]
pub(crate) enum Context {
    Text,
    Value,
}

/// Prints a text with its characters escaped.
pub(crate) fn print_escaped(out: &mut Txt, context: Context, text: &Txt) -> Result<(), Oom>
    ensures { OnOk result (out.new ≡ out.old ++ escaped context text.now) }
{
    for character in text.as_str().chars() {
        print_character(out, context, character)?;
    }
    Ok(())
}

fn print_character(out: &mut Txt, context: Context, character: char) -> Result<(), Oom>
    ensures { OnOk result (out.new ≡ out.old ++ escaped_character context character) }
{
    match (character, context) {
        ('&', _) => out.push_str("&amp;"),
        ('<', _) => out.push_str("&lt;"),
        ('>', _) => out.push_str("&gt;"),
        ('"', Context::Value) => out.push_str("&quot;"),
        _ => out.push(character),
    }
}
