//! The plain stage and the plain screen: the server's and the browser's end of a circuit over one component of the
//! first-click form, until a renderer and a browser's tree take their places.
//!
//! Their contracts are those of `Stage` and `Screen`, over one relation between bytes and pages: the first batch puts the
//! whole page in, and each later one spells the page that the fresh rendering makes of the present fields, with the
//! changes to the page before it as its counts. They do not say that memory is found, nor that bytes are few for what
//! changes: each batch spells the whole page.
#![tactic(auto)]

mod changes;
mod click;
mod laws;
mod page_tree;
mod present;
mod reading;
mod running;
mod screen;
mod spelling;
mod stage;
mod turning;

pub use laws::what_a_file_spells_can_run;
pub use page_tree::PageTree;
pub use screen::PlainScreen;
pub use stage::PlainStage;
