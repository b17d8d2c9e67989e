//! The frames of a rendering as lines of text.
//!
//! The contract says which lines these are, exactly: one for each frame, with the number of the template node that made it,
//! and before what is in an element or a region how many frames the whole is. Handlers have ids by their place among
//! the handlers of the rendering, in the order of the document. Of items that stand for components there are no lines yet:
//! where there is one among the items, there is no answer. The contract does not say that memory is found; 2^64 handlers count
//! as want of it.
#![tactic(auto)]

mod line;
mod listing;

pub use listing::frame_lines;
