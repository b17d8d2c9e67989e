use sqlite_items::Items;
use text_core::Txt;

/// What a body may do besides computing.
#[derive(Debug, Drop)]
pub enum Deed {
    /// Assigns or steps one of these names.
    Changes(Items<Txt>),
    Invokes,
    /// Runs the method of this name.
    Runs(Txt),
}
