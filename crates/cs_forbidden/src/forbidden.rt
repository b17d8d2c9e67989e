// What is forbidden.
ghost use Rattle.std.specs.Prelude.{◌≡◌};
ghost use Rattle.cs_forbidden.specs.Roots as spec;

use cs_rules::Rule;
use sqlite_items::Items;
use std::alloc::Global;

/// Whether code may use a local from outside it.
#[derive(Clone, Copy, Debug, PartialEq, Eq)]
pub enum Mark {
    /// It keeps the value that it was declared with.
    Steady,
    /// It is assigned after its declaration.
    Changed,
    /// The start of a `for` declares it.
    OfFor,
}

/// What is forbidden in code.
#[derive(Debug, Drop)]
pub struct Forbidden {
    /// The marks of the locals from outside, by their numbers: only steady ones may be used.
    pub outside: Items<Mark>,
    /// The rule against changes of fields, if there is one.
    pub changes: Option<Rule>,
    /// The rule against invoking callbacks, if there is one.
    pub invokes: Option<Rule>,
    /// The numbers of the bodies that do what is forbidden; a call of one breaks the rule against invoking.
    pub bodies: Items<u32>,
}

impl Forbidden {
    /// Nothing is forbidden.
    pub fn nothing(alloc: Global) -> Forbidden
        ensures { result ≡ spec.nothing }
    {
        Forbidden {
            outside: Items::new(alloc),
            changes: None,
            invokes: None,
            bodies: Items::new(alloc),
        }
    }
}
