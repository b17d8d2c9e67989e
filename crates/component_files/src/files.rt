// The files of a program.
ghost use Rattle.std.specs.Prelude.{◌≡◌};
ghost use Rattle.component_files.specs.Files.{unread, AllAnswer};

use crate::file::read_file;
use razor_ast::Component;
use razor_reader::ReadFault;
use sqlite_items::Items;
use std::alloc::{AllocError, Global};
use text_core::{Place, Txt};
use thiserror::Error;

/// A file of a program.
#[derive(Debug, Drop)]
pub struct SourceFile {
    /// Its name, as it was given.
    pub name: Txt,
    /// What it holds.
    pub bytes: Vec<u8>,
}

/// Why a file spells no component.
#[derive(Clone, Copy, Debug, PartialEq, Eq)]
pub enum Unreadable {
    /// It has more than 1,048,576 bytes.
    TooLong,
    /// Its brackets, blocks and tags nest more than 200 deep, first at this place.
    TooDeep(Place),
    /// It spells no component. Reading stopped before this place.
    Syntax(Place),
}

/// Why a program was not read.
#[derive(Clone, Copy, Debug, PartialEq, Eq, Error)]
pub enum FileFault {
    /// The first file that spells no component, counted from 0, and why it spells none.
    #[error("file {file}: {cause:?}")]
    Unread { file: usize, cause: Unreadable },
    #[error("out of memory")]
    Oom,
}

impl From<AllocError> for FileFault {
    ghost use Rattle.std.specs.Prelude.{◌≡◌};
    ghost use Rattle.component_files.specs.declared.files.FileFault.TheVariants as fault;

    ghost from_gives = { λ _ given. given ≡ fault.Oom };

    fn from(_: AllocError) -> Self {
        FileFault::Oom
    }
}

/// The file at a place of the list was not read.
fn unread(file: usize, fault: ReadFault) -> FileFault
    ensures { result ≡ unread file fault }
{
    match fault {
        ReadFault::TooLong => FileFault::Unread {
            file,
            cause: Unreadable::TooLong,
        },
        ReadFault::TooDeep { place } => FileFault::Unread {
            file,
            cause: Unreadable::TooDeep(place),
        },
        ReadFault::Syntax { place } => FileFault::Unread {
            file,
            cause: Unreadable::Syntax(place),
        },
        ReadFault::Oom => FileFault::Oom,
    }
}

/// Reads the files as the components that they spell, in their order.
pub fn read_files(alloc: Global, files: &[SourceFile]) -> Result<Items<Component>, FileFault>
    ensures { AllAnswer files.now result }
{
    let mut components = Items::new(alloc);
    for (file, source) in files.iter().enumerate() {
        match read_file(alloc, &source.name, &source.bytes) {
            Ok(component) => components.push(component)?,
            Err(fault) => return Err(unread(file, fault)),
        }
    }
    Ok(components)
}
