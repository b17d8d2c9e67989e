use cs_eval::Locals;
use frame_program::Compiled;
use std::alloc::Global;

/// What operations are run with and leave as it is.
#[derive(Drop)]
pub(crate) struct Around<'a> {
    pub(crate) alloc: Global,
    pub(crate) program: &'a Compiled,
    /// The instance whose code it is.
    pub(crate) who: u32,
    /// How deep the calls are.
    pub(crate) calls: u32,
    /// How deep in the page the items lie.
    pub(crate) depth: u32,
}

/// What changes while operations run.
#[derive(Drop)]
pub(crate) struct Progress {
    pub(crate) locals: Locals,
    /// The units left.
    pub(crate) left: u32,
    /// The components begun so far.
    pub(crate) components: u32,
    /// The other items begun so far.
    pub(crate) others: u32,
    /// The bytes of names and texts so far.
    pub(crate) bytes: u64,
}
