// What an element has under its names on a page.
ghost use Rattle.std.specs.Prelude.{◌≡◌, ◌+◌, IfOk, OnOk};
ghost use Rattle.std.specs.BTreeMap.{insert_entry};
ghost use Rattle.page_core.specs.ByName.{by_characters};
ghost use Rattle.page_meaning.specs.Fresh.{also, dressed};
ghost use Rattle.item_page.specs.Standing.{dress_of};

use frame_core::{ItemAttribute, ItemValue};
use page_core::{Attributes, ByName, HandlerIds};
use std::alloc::Global;
use text_core::{Oom, Txt};

/// Attributes and handlers by their names. `given` is how many handlers of the page have an id so far.
#[derive(Debug, Drop)]
pub struct Dress {
    pub attributes: Attributes,
    pub handlers: HandlerIds,
    pub given: u64,
}

impl Dress {
    /// Gives the next id to the handler of this name.
    fn set_handler(&mut self, name: Txt) -> Result<(), Oom>
        ensures given { OnOk result (self.new.given ≡ self.old.given + 1) }
        ensures handlers { OnOk result (self.new.handlers ≡ insert_entry by_characters self.old.handlers name (self.old.given + 1)) }
        ensures attributes { self.new.attributes ≡ self.old.attributes }
    {
        let id = self.given.checked_add(1).ok_or(Oom)?;
        self.handlers.set(name, id)?;
        self.given = id;
        Ok(())
    }

    fn wear(&mut self, worn: &ItemAttribute) -> Result<(), Oom>
        ensures { OnOk result (dress_of self.new ≡ also worn.now (dress_of self.old)) }
    {
        let name = worn.name.clone()?;
        match &worn.value {
            ItemValue::Text(text) => self.attributes.set(name, text.clone()?),
            ItemValue::Handler(_) => self.set_handler(name),
        }
    }
}

/// What an element of these attributes and handlers has, where so many handlers have ids already.
pub fn dressed(alloc: Global, given: u64, worn: &[ItemAttribute]) -> Result<Dress, Oom>
    ensures { IfOk result (λ it. dress_of it ≡ dressed given worn.now) }
{
    let mut dress = Dress {
        attributes: ByName::new(alloc),
        handlers: ByName::new(alloc),
        given,
    };
    for one in worn {
        dress.wear(one)?;
    }
    Ok(dress)
}
