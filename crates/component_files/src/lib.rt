//! The components that the files of a program spell: from the bytes of each to its component, in the order of the files.
//!
//! The contracts say which components are read, and of a file that spells none which it is and why: its bytes are too many,
//! they are no UTF-8, its text nests too deeply, or it spells no component. The first such file is named. That memory is
//! found is not said, nor whether the components are a program that is accepted.
#![tactic(auto)]

mod file;
mod files;
mod laws;

pub use file::read_file;
pub use files::{FileFault, SourceFile, Unreadable, read_files};
pub use laws::files_spell_one_list_of_components;
