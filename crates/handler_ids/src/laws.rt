// What the definitions of handler ids say of each other.
ghost use Rattle.std.specs.Prelude.{◌≡◌, ℕ, ◌<◌, List, Some};
ghost use Rattle.handler_ids.specs.declared.handler_value.HandlerValue.{HandlerValue};
ghost use Rattle.handler_ids.specs.History.{Past, at_id};
ghost use Rattle.handler_ids.specs.What.{found};
ghost use Rattle.handler_ids.specs.Kept.{Kept, Stands, what_kept};
ghost use Rattle.handler_ids.specs.Naming.{IsGiven};
ghost use Rattle.handler_ids.specs.Calls.{Calls, GoesOn};

/// Does nothing. By what is kept of it an id is what it is in each history that is kept so.
pub fn an_id_is_what_its_history_says()
    ensures { (kept : Kept) (history : List Past) (id : ℕ) → Stands kept history → what_kept kept id ≡ found history id kept.released }
{}

/// Does nothing. Over any calls each entry stays with its value, the batch that gave it and the batch that disposed it,
/// and each id that is given is above those before it.
pub fn nothing_leaves_the_history()
    ensures stays { (old new : List Past) (id : ℕ) (past : Past) → Calls old new → at_id old id ≡ Some past
        → (later : Past) × (at_id new id ≡ Some later) × GoesOn past later }
    ensures rises { (first second third fourth : List Past) (value other : HandlerValue) (batch next id later : ℕ)
        → IsGiven value batch id first second → Calls second third → IsGiven other next later third fourth → id < later }
{}
