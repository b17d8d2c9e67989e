ghost use Rattle.std.specs.Prelude.{◌≡◌};
ghost use Rattle.page_core.specs.Void.{is_void};

use text_core::Txt;

/// Whether the elements of this name have no end tag.
#[tactic(auto, unfolding(crate::specs::Void::void_elements))]
pub fn is_void(name: &Txt) -> bool
    ensures { result ≡ is_void name.now }
{
    name.is_one_of(&[
        "area", "base", "br", "col", "embed", "hr", "img", "input", "link", "meta", "source",
        "track", "wbr",
    ])
}
