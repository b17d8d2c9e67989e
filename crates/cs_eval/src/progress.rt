use cs_ast::{Bodies, Value};
use std::alloc::Global;

/// What code is run with and leaves as it is.
#[derive(Drop)]
pub(crate) struct Around<'a> {
    pub(crate) alloc: Global,
    pub(crate) bodies: &'a Bodies,
    /// The instance whose code it is.
    pub(crate) who: u32,
    /// How deep the calls are.
    pub(crate) depth: u32,
}

/// What changes while code runs, beside the fields.
#[derive(Drop)]
pub(crate) struct Progress {
    pub(crate) locals: Vec<Value>,
    /// The receivers of callbacks, in the order in which they ran.
    pub(crate) receivers: Vec<u32>,
    /// The units left.
    pub(crate) left: u32,
}
