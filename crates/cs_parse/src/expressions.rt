// Reads expressions: one loop, over a stack of what waits for an expression.
mod begin;
mod forms;
mod frame;
mod further;
mod machine;
mod parts;
mod resume;

pub use machine::expr_first;
