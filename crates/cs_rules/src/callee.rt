// What is called, and what stands behind a dot.
use cs_ast::{Code, CsType, LibraryMember};
use sqlite_items::Items;

/// What stands before the brackets of a call.
#[derive(Debug, Drop)]
pub enum Called {
    /// A method of the own instance.
    Method(u32),
    /// A member of the library, over what stands before its dot.
    Library(LibraryMember, Option<Code>),
    /// `InvokeAsync` of a callback.
    Invoke(Code),
    /// A fragment with a parameter.
    Fill(Code),
}

/// What is called, with the types of its arguments and of its result.
#[derive(Debug, Drop)]
pub struct Callee {
    pub called: Called,
    pub takes: Items<CsType>,
    pub gives: CsType,
}

/// What a name behind a dot stands for.
#[derive(Debug, Drop)]
pub enum Dotted {
    /// The part of a record at this position.
    Part(u32, CsType),
    Property(LibraryMember, CsType),
    /// A method of the library, with the types of its arguments and of its result.
    Method(LibraryMember, Items<CsType>, CsType),
    /// `InvokeAsync`, with the types of its arguments.
    Invoke(Items<CsType>),
}
