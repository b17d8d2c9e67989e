// Whether components are of the same.
ghost use Rattle.std.specs.Prelude.{◌≡◌, ◌↔◌, IsTrue};

use cs_ast::CsType;
use frame_core::Made;
use text_core::Txt;

#[cycle(types)]
fn same_type(one: &CsType, other: &CsType) -> bool
    ensures { IsTrue result ↔ (one.now ≡ other.now) }
{
    match (one, other) {
        (CsType::Int, CsType::Int)
        | (CsType::Bool, CsType::Bool)
        | (CsType::Text, CsType::Text)
        | (CsType::Change, CsType::Change)
        | (CsType::Args, CsType::Args)
        | (CsType::Nothing, CsType::Nothing) => true,
        (CsType::Rec(name), CsType::Rec(other)) => name == other,
        (CsType::List(item), CsType::List(other)) => same_type(item.get(), other.get()),
        (CsType::Callback(None), CsType::Callback(None))
        | (CsType::Fragment(None), CsType::Fragment(None)) => true,
        (CsType::Callback(Some(argument)), CsType::Callback(Some(other)))
        | (CsType::Fragment(Some(argument)), CsType::Fragment(Some(other))) => {
            same_type(argument.get(), other.get())
        }
        _ => false,
    }
}

fn same_name(one: &Option<Txt>, other: &Option<Txt>) -> bool
    ensures { IsTrue result ↔ (one.now ≡ other.now) }
{
    match (one, other) {
        (None, None) => true,
        (Some(name), Some(other)) => name == other,
        _ => false,
    }
}

pub(crate) fn same_made(one: &Made, other: &Made) -> bool
    ensures { IsTrue result ↔ (one.now ≡ other.now) }
{
    match (one, other) {
        (Made::Component(place), Made::Component(other)) => place == other,
        (
            Made::Provider { cs_type, name },
            Made::Provider {
                cs_type: other_type,
                name: other_name,
            },
        ) => same_type(cs_type, other_type) && same_name(name, other_name),
        _ => false,
    }
}
