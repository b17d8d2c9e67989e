// Values by name.
ghost use Rattle.std.specs.Prelude.{◌≡◌, ◌↔◌, [], length, IsTrue, IfOk, OnOk, OnErr};
ghost use Rattle.std.specs.BTreeMap.{insert_entry};
ghost use Rattle.std.specs.Option.{option_copied};
ghost use Rattle.page_core.specs.ByName.{by_characters, value_of, without, IsInOrder};

use std::alloc::Global;
use std::collections::BTreeMap;
use std::marker::Model;
use text_core::{Oom, Txt};

/// The attributes of an element, with their values.
pub type Attributes = ByName<Txt>;

/// The event attributes of an element, with the numbers of their handlers.
pub type HandlerIds = ByName<u64>;

/// Values by name. Contracts see them as the list of names and values, each name once, in the order of their
/// characters, so that it does not matter in which order they were set.
#[derive(Debug, Drop)]
pub struct ByName<V> {
    pub(crate) entries: BTreeMap<Txt, V>,
}

impl<V> Model for ByName<V> {
    ghost use Rattle.std.specs.Prelude.{List, ℕ};
    ghost use Rattle.std.specs.Coded.{coded_list, coded×, coded_ℕ};

    ghost Value = { List (List ℕ × V) };

    ghost coded = { coded_list (coded× (coded_list coded_ℕ) V.code) };

    ghost view = { λ it. it.entries.entries };
}

impl<V> ByName<V> {
    pub fn new(alloc: Global) -> Self
        ensures { result ≡ [] }
    {
        ByName {
            entries: BTreeMap::new(alloc),
        }
    }

    pub fn len(&self) -> usize
        ensures len { result ≡ length self.now }
        ensures in_order { IsInOrder self.now }
    {
        self.entries.len()
    }

    pub fn is_empty(&self) -> bool
        ensures { IsTrue result ↔ (self.now ≡ []) }
    {
        self.entries.is_empty()
    }

    /// The value of this name, if there is one.
    pub fn get(&self, name: &Txt) -> Option<&V>
        ensures { option_copied result ≡ value_of self.now name.now }
    {
        self.entries.get(name)
    }

    /// Gives this name the value, in place of any that it had.
    pub fn set(&mut self, name: Txt, value: V) -> Result<(), Oom>
    where
        V: Drop,
        ensures ok { OnOk result (self.new ≡ insert_entry by_characters self.old name value) }
        ensures err { OnErr result (self.new ≡ self.old) }
    {
        self.entries.insert(name, value)?;
        Ok(())
    }

    /// Takes away what has this name.
    pub fn remove(&mut self, name: &Txt) -> Option<V>
        ensures value { result ≡ value_of self.old name.now }
        ensures rest { self.new ≡ without self.old name.now }
    {
        self.entries.remove(name)
    }
}

/// The same attributes once more.
pub fn copy_attributes(attributes: &Attributes) -> Result<Attributes, Oom>
    ensures { IfOk result (λ copy. copy ≡ attributes.now) }
{
    Ok(ByName {
        entries: attributes.entries.clone()?,
    })
}

/// The same handlers once more.
pub fn copy_handlers(handlers: &HandlerIds) -> Result<HandlerIds, Oom>
    ensures { IfOk result (λ copy. copy ≡ handlers.now) }
{
    Ok(ByName {
        entries: handlers.entries.clone()?,
    })
}
