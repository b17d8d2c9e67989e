// What the names of tags and attributes mean.
ghost use Rattle.std.specs.Prelude.{◌≡◌, IfOk};
ghost use Rattle.razor_token.specs.Tags.{is_component};
ghost use Rattle.razor_ast.specs.AttributeNames as names;
ghost use Rattle.razor_reader.specs.NameReading as spec;

use cs_token::after;
use std::alloc::Global;
use text_core::{Oom, Txt};

/// What an attribute is by its name.
#[derive(Clone, Copy)]
pub enum NameForm {
    /// Of an element.
    Plain,
    /// Of a component.
    Parameter,
    Context,
    Key,
    Event,
    Bind,
    BindEvent,
    /// Nothing that there is.
    Nothing,
}

/// Whether a tag of this name is a component's, or gives the content of a parameter.
pub fn is_component(name: &Txt) -> bool
    ensures { result ≡ is_component name.now }
{
    match name.first() {
        Some(c) => matches!(c, 'A'..='Z'),
        None => false,
    }
}

/// Whether an element of this name may stand anywhere.
pub fn is_element_name(name: &Txt) -> bool
    ensures { result ≡ spec.is_element_name name.now }
{
    !name.is("script") && !name.is("style") && !name.is("text")
}

fn are_lower(characters: &[char]) -> bool
    ensures { result ≡ names.are_lower characters.now }
{
    characters.iter().all(|c| matches!(*c, 'a'..='z'))
}

fn are_some_lower(characters: &[char]) -> bool
    ensures { result ≡ spec.are_some_lower characters.now }
{
    match characters {
        [] => false,
        _ => are_lower(characters),
    }
}

/// Whether it is `@on` and lower-case letters.
fn is_event(characters: &[char]) -> bool
    ensures { result ≡ spec.is_event characters.now }
{
    match after(&['@', 'o', 'n'], characters) {
        Some(rest) => are_some_lower(rest),
        None => false,
    }
}

fn begins_at(characters: &[char]) -> bool
    ensures { result ≡ names.begins_at characters.now }
{
    matches!(characters, ['@'..='@', ..])
}

/// What an attribute of an element is whose name begins with an at sign.
fn element_form(name: &Txt, characters: &[char]) -> NameForm
    ensures { result ≡ spec.element_form name.now characters.now }
{
    if name.is("@bind") {
        NameForm::Bind
    } else if name.is("@bind:event") {
        NameForm::BindEvent
    } else if is_event(characters) {
        NameForm::Event
    } else {
        NameForm::Nothing
    }
}

fn at_form(component: bool, name: &Txt, characters: &[char]) -> NameForm
    ensures { result ≡ spec.at_form component name.now characters.now }
{
    if name.is("@key") {
        NameForm::Key
    } else if component {
        NameForm::Nothing
    } else {
        element_form(name, characters)
    }
}

fn plain_form(component: bool, name: &Txt) -> NameForm
    ensures { result ≡ spec.plain_form component name.now }
{
    if !component {
        NameForm::Plain
    } else if name.is("Context") {
        NameForm::Context
    } else {
        NameForm::Parameter
    }
}

/// What an attribute of this name is, on a component's tag or not.
pub fn name_form(alloc: Global, component: bool, name: &Txt) -> Result<NameForm, Oom>
    ensures { IfOk result (λ form. form ≡ spec.name_form component name.now) }
{
    let characters = name.to_chars(alloc)?;
    if begins_at(&characters) {
        Ok(at_form(component, name, &characters))
    } else {
        Ok(plain_form(component, name))
    }
}
