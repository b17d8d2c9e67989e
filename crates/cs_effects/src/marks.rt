// Marks of methods that do a deed.
ghost use Rattle.std.specs.Prelude.{◌≡◌, ◌<◌, length, false, Some, slice_get, MatchOption};
ghost use Rattle.std.specs.List.{list_any};
ghost use Rattle.cs_effects.specs.Spreading as spec;
ghost use Rattle.cs_effects.specs.declared.marks.Mark.TheVariants as mark;

/// What is known of a method.
#[derive(Clone, Copy, Debug, PartialEq, Eq)]
pub enum Mark {
    /// It isn't known to do it.
    Clear,
    /// It does it, and those that run it aren't marked yet.
    Waiting,
    /// It does it, and so do those that run it.
    Spread,
}

pub fn is_marked(mark: Mark) -> bool
    ensures { result ≡ spec.is_marked mark }
{
    match mark {
        Mark::Clear => false,
        Mark::Waiting | Mark::Spread => true,
    }
}

fn is_waiting(mark: Mark) -> bool
    ensures { result ≡ spec.is_waiting mark }
{
    match mark {
        Mark::Waiting => true,
        Mark::Clear | Mark::Spread => false,
    }
}

/// Where the first stands that waits.
pub fn first_waiting(marks: &[Mark]) -> Option<usize>
    ensures { MatchOption result (list_any spec.is_waiting marks.now ≡ false)
        (λ at. (at < length marks.now) × (slice_get marks.now at ≡ Some mark.Waiting)) }
{
    for (at, mark) in marks.iter().enumerate() {
        if is_waiting(*mark) {
            return Some(at);
        }
    }
    None
}
