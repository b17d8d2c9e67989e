// What elements have under their names.
ghost use Rattle.std.specs.Prelude.{◌≡◌, IfOk, ◌∷◌};
ghost use Rattle.std.specs.List.{fold};
ghost use Rattle.edit_meaning.specs.Attributes.{set_to, set_under, all_set, has_name, unset_under};

use edit_meaning::Names;
use frame_core::{WireAttribute, WireValue};
use page_core::{Attributes, HandlerIds, copy_attributes, copy_handlers};
use std::alloc::Global;
use text_core::{Oom, Txt};

fn set_text(names: Names, name: &Txt, text: &Txt) -> Result<Names, Oom>
    ensures { IfOk result (λ set. set ≡ set_to names name.now (WireValue.Text text.now)) }
{
    let Names {
        attributes,
        handlers,
    } = names;
    let mut attributes = attributes;
    let mut handlers = handlers;
    attributes.set(name.clone()?, text.clone()?)?;
    let _ = handlers.remove(name);
    Ok(Names {
        attributes,
        handlers,
    })
}

fn set_handler(names: Names, name: &Txt, id: u64) -> Result<Names, Oom>
    ensures { IfOk result (λ set. set ≡ set_to names name.now (WireValue.Handler id)) }
{
    let Names {
        attributes,
        handlers,
    } = names;
    let mut attributes = attributes;
    let mut handlers = handlers;
    let _ = attributes.remove(name);
    handlers.set(name.clone()?, id)?;
    Ok(Names {
        attributes,
        handlers,
    })
}

/// The names with one of them set.
pub(crate) fn set(names: Names, attribute: &WireAttribute) -> Result<Names, Oom>
    ensures { IfOk result (λ set. set ≡ set_under names attribute.now) }
{
    match &attribute.value {
        WireValue::Text(text) => set_text(names, &attribute.name, text),
        WireValue::Handler(id) => set_handler(names, &attribute.name, *id),
    }
}

/// The names of a new element.
pub(crate) fn set_all(alloc: Global, attributes: &[WireAttribute]) -> Result<Names, Oom>
    ensures { IfOk result (λ set. set ≡ all_set attributes.now) }
{
    let mut names = Names {
        attributes: Attributes::new(alloc),
        handlers: HandlerIds::new(alloc),
    };
    for attribute in attributes {
        names = set(names, attribute)?;
    }
    Ok(names)
}

/// Whether there is an attribute or a handler of this name.
pub(crate) fn has(names: &Names, name: &Txt) -> bool
    ensures { result ≡ has_name names.now name.now }
{
    names.attributes.get(name).is_some() || names.handlers.get(name).is_some()
}

/// The names without this one.
pub(crate) fn unset(names: Names, name: &Txt) -> Names
    ensures { result ≡ unset_under names name.now }
{
    let Names {
        attributes,
        handlers,
    } = names;
    let mut attributes = attributes;
    let mut handlers = handlers;
    let _ = attributes.remove(name);
    let _ = handlers.remove(name);
    Names {
        attributes,
        handlers,
    }
}

/// The same names once more.
pub(crate) fn copy(names: &Names) -> Result<Names, Oom>
    ensures { IfOk result (λ copy. copy ≡ names.now) }
{
    Ok(Names {
        attributes: copy_attributes(&names.attributes)?,
        handlers: copy_handlers(&names.handlers)?,
    })
}
