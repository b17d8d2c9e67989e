// What the names of tags and attributes decide.
ghost use Rattle.std.specs.Prelude.{◌≡◌};
ghost use Rattle.razor_token.specs.Tags.{is_component, is_void, held_by_at, held_by_parameter, held_by};

use crate::context::Holds;
use crate::runs::begins;
use text_core::Txt;

/// Whether a tag of this name is a component's, or gives the content of a parameter.
pub(crate) fn is_component(name: &[char]) -> bool
    ensures { result ≡ is_component name.now }
{
    matches!(name, ['A'..='Z', ..])
}

/// Whether the elements of this name have no content.
#[tactic(auto, unfolding(crate::specs::Tags::void_elements))]
pub(crate) fn is_void(name: &Txt) -> bool
    ensures { result ≡ is_void name.now }
{
    name.is_one_of(&[
        "area", "base", "br", "col", "embed", "hr", "img", "input", "link", "meta", "source",
        "track", "wbr",
    ])
}

/// What the value of an attribute whose name begins with an at sign can be.
fn held_by_at(name: &Txt, characters: &[char]) -> Holds
    requires { name.now ≡ characters.now }
    ensures { result ≡ held_by_at name.now }
{
    if name.is("@bind:event") {
        Holds::Text
    } else if begins(&['@', 'o', 'n'], characters) {
        Holds::Event
    } else {
        Holds::Code
    }
}

/// What the value of any other attribute of a component's tag can be.
fn held_by_parameter(name: &Txt) -> Holds
    ensures { result ≡ held_by_parameter name.now }
{
    if name.is("Context") {
        Holds::Text
    } else {
        Holds::Supplied
    }
}

/// What the value of an attribute of this name can be, on a component's tag or not.
pub(crate) fn held_by(component: bool, name: &Txt, characters: &[char]) -> Holds
    requires { name.now ≡ characters.now }
    ensures { result ≡ held_by component name.now }
{
    if begins(&['@'], characters) {
        held_by_at(name, characters)
    } else if component {
        held_by_parameter(name)
    } else {
        Holds::Mixed
    }
}
