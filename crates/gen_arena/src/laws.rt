// What the definitions of an arena say of each other.
ghost use Rattle.std.specs.Prelude.{◌≡◌, ◌≢◌, IsSome};
ghost use Rattle.gen_arena.specs.declared.handle.Handle.{Handle};
ghost use Rattle.gen_arena.specs.Slots.{Slots};
ghost use Rattle.gen_arena.specs.Finding.{found};
ghost use Rattle.gen_arena.specs.Given.{WasGiven, IsDead};
ghost use Rattle.gen_arena.specs.Lending.{with_item};
ghost use Rattle.gen_arena.specs.Calls.{Gives, Removes, Writes, Calls};

/// Does nothing. Over any calls a handle that was given stays given, so none is given twice.
pub fn a_handle_is_given_once<T>()
    ensures stays { (old new : Slots T) (handle : Handle) → Calls old new → WasGiven old handle → WasGiven new handle }
    ensures once { (first second third fourth : Slots T) (handle later : Handle) (item other : T)
        → Gives first handle item second → Calls second third → Gives third later other fourth → later ≢ handle }
{}

/// Does nothing. A removed handle was given and finds nothing, and so it is after any calls.
pub fn a_removed_handle_stays_dead<T>()
    ensures dies { (old new : Slots T) (handle : Handle) → Removes old handle new → IsDead new handle }
    ensures stays { (old new : Slots T) (handle : Handle) → Calls old new → IsDead old handle → IsDead new handle }
{}

/// Does nothing. A write through `get_mut` changes the item of its handle alone.
pub fn a_write_changes_one_item<T>()
    ensures { (arena : Slots T) (handle : Handle) (item : T)
        → IsSome (found arena handle) → Writes arena handle item (with_item arena handle item) }
{}
