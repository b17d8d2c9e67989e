// Fields that code changes apart from the instances that they belong to.
ghost use Rattle.std.specs.Prelude.{◌≡◌};
ghost use Rattle.cs_eval.specs.Changes.{changed};

use crate::owners::Owners;
use crate::store::Store;
use cs_ast::Value;
use std::alloc::{AllocError, Global};
use std::collections::BTreeMap;

/// Instances, and changes of their fields that they don't see, by the numbers of instance and field.
#[derive(Drop)]
pub(crate) struct Trial<'a, O> {
    owners: &'a O,
    changes: BTreeMap<(u32, u32), Value>,
}

impl<'a, O: Owners> Trial<'a, O> {
    #[tactic(auto, using(crate::proofs::ChangeLemmas::unchanged))]
    pub(crate) fn new(alloc: Global, owners: &'a O) -> Self
        ensures fields { changed result.changes (O.fields owners.now) ≡ O.fields owners.now }
        ensures owners { result.owners.now ≡ owners.now }
    {
        Trial {
            owners,
            changes: BTreeMap::new(alloc),
        }
    }
}

impl<O: Owners> Store for Trial<'_, O> {
    ghost Rest = { Unit {0} };

    ghost fields = { λ it. changed it.changes (O.fields it.owners.now) };

    ghost parameters = { λ it. O.parameters it.owners.now };

    ghost rest = { λ it. tt };

    fn get(&self, who: u32, at: u32) -> Option<&Value> {
        match self.changes.get(&(who, at)) {
            Some(value) => Some(value),
            None => self.owners.field(who, at),
        }
    }

    #[tactic(auto, using(crate::proofs::ChangeLemmas::changed_more))]
    fn put(&mut self, _alloc: Global, who: u32, at: u32, value: Value) -> Result<bool, AllocError> {
        if self.get(who, at).is_none() {
            return Ok(false);
        }
        self.changes.insert((who, at), value)?;
        Ok(true)
    }

    fn parameter_of(&self, who: u32, at: u32) -> Option<&Value> {
        self.owners.parameter(who, at)
    }
}
