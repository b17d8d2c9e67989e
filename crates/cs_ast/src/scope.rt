// What names stand for where code is checked.
use crate::{CsType, Member};
use sqlite_items::Items;
use text_core::Txt;

/// The names that code may use, innermost last; the records; and the type of what the method round it returns.
#[derive(Debug, Drop)]
pub struct Scope {
    pub names: Items<Named>,
    pub records: Items<Member>,
    pub result: CsType,
}

/// A name with its type. Its place is the number that [`crate::Code`] has for it, for a method its number in
/// [`crate::Bodies`].
#[derive(Debug, Drop)]
pub struct Named {
    pub name: Txt,
    pub cs_type: CsType,
    pub kind: NameKind,
    pub place: u32,
}

/// What a name stands for.
#[derive(Debug, Drop)]
pub enum NameKind {
    /// An own field.
    Field,
    Parameter,
    /// A method with arguments of these types.
    Method(Items<CsType>),
    /// A method that is called without brackets.
    Getter,
    Local,
}

/// What a method does besides computing: whether it changes a field and whether it invokes a callback, itself or through
/// methods.
#[derive(Debug, Drop)]
pub struct Effect {
    pub method: Txt,
    pub changes: bool,
    pub invokes: bool,
}
