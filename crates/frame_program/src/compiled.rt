// A whole program.
use crate::{Fragments, Operation};
use cs_ast::{Bodies, Code, CsType};
use sqlite_items::Items;
use text_core::Txt;

/// A program: its components in the order of its files, the bodies of its methods, handlers and lambdas, and the fragments in its
/// templates, each by its number. No body has the number of a fragment.
#[derive(Debug, Drop)]
pub struct Compiled {
    pub components: Items<CompiledComponent>,
    pub bodies: Bodies,
    pub fragments: Fragments,
}

/// A component. The three optional numbers are those of the bodies of its lifecycle methods and of `Dispose`.
#[derive(Debug, Drop)]
pub struct CompiledComponent {
    pub name: Txt,
    pub disposes: bool,
    pub fields: Items<CompiledField>,
    pub parameters: Items<CompiledField>,
    pub initialized: Option<u32>,
    pub parameters_set: Option<u32>,
    pub dispose: Option<u32>,
    pub operations: Items<Operation>,
}

/// An own field or a parameter. Without an initial value it is 0, false or null, by its type. A cascading parameter says what it
/// takes.
#[derive(Debug, Drop)]
pub struct CompiledField {
    pub name: Txt,
    pub cs_type: CsType,
    pub initial: Option<Code>,
    pub cascading: Option<Wanted>,
}

/// The cascading value that a parameter takes: that of a type, under a name if it asks for one.
#[derive(Debug, Drop)]
pub struct Wanted {
    pub cs_type: CsType,
    pub name: Option<Txt>,
}

/// What a rendering is of: the number of an instance, the position of its component, and how deep its slot lies in the page.
#[derive(Clone, Copy, Debug, PartialEq, Eq)]
pub struct RunScope {
    pub who: u32,
    pub component: u32,
    pub depth: u32,
}
