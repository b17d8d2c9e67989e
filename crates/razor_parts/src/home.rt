// Where the code of a component stands.
use cs_ast::Member;
use razor_ast::Component;
use sqlite_items::Items;
use std::alloc::Global;

/// A component in its program: the records and the components of that, its position among these, the number of its first body, its
/// members, and the numbers of the bodies that change a field or invoke a callback, and of those that invoke one.
#[derive(Drop)]
pub struct Home<'a> {
    pub alloc: Global,
    pub records: &'a [Member],
    pub components: &'a [Component],
    pub position: usize,
    pub first: u32,
    pub members: &'a [Member],
    pub impure: Items<u32>,
    pub invoking: Items<u32>,
}
