// Which names elements, fields and methods may have.
ghost use Rattle.std.specs.Prelude.{◌≡◌};
ghost use Rattle.std.specs.List.{list_all};
ghost use Rattle.first_click.specs.declared.characters.Class.TheVariants as class;
ghost use Rattle.first_click.specs.Characters.{is_in};
ghost use Rattle.first_click.specs.Names.{is_reserved, is_field_name, is_method_name, is_element_name};

use page_core::is_void;
use text_core::Txt;

fn is_letter(character: char) -> bool
    ensures { result ≡ is_in class.Letter character }
{
    character.is_ascii_alphabetic()
}

/// Whether the text is of the letters A to Z and a to z alone.
pub fn is_of_letters(text: &Txt) -> bool
    ensures { result ≡ list_all (is_in class.Letter) text.now }
{
    text.as_str().chars().all(is_letter)
}

/// Whether the word is no name of a field or method.
fn is_reserved(word: &Txt) -> bool
    ensures { result ≡ is_reserved word.now }
{
    word.is_one_of(&[
        "async",
        "await",
        "bool",
        "break",
        "case",
        "continue",
        "default",
        "else",
        "false",
        "for",
        "foreach",
        "if",
        "in",
        "int",
        "internal",
        "new",
        "null",
        "override",
        "private",
        "protected",
        "public",
        "return",
        "string",
        "switch",
        "true",
        "var",
        "void",
        "while",
        "Task",
        "MarkupString",
        "ImmutableList",
        "EventCallback",
        "RenderFragment",
        "ChangeEventArgs",
        "EventArgs",
        "MouseEventArgs",
        "KeyboardEventArgs",
        "FocusEventArgs",
        "code",
        "using",
        "namespace",
        "implements",
        "page",
        "rendermode",
    ])
}

/// Whether a field may have the name.
pub fn is_field_name(name: &Txt) -> bool
    ensures { result ≡ is_field_name name.now }
{
    is_of_letters(name) && !is_reserved(name)
}

/// Whether a method may have the name.
pub fn is_method_name(name: &Txt) -> bool
    ensures { result ≡ is_method_name name.now }
{
    is_field_name(name) && !name.is_one_of(&["OnInitialized", "OnParametersSet"])
}

/// Whether lower-case letters are a name that an element may have.
pub fn is_element_name(name: &Txt) -> bool
    ensures { result ≡ is_element_name name.now }
{
    !is_void(name) && !name.is_one_of(&["script", "style", "text"])
}
