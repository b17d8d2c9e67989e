// The bytes of one file.
ghost use Rattle.component_files.specs.Files.{Answers};

use razor_ast::Component;
use razor_reader::{ReadFault, read};
use std::alloc::Global;
use text_core::{Place, Txt};

/// The most bytes that a file may have.
const BYTES: usize = 1_048_576;

/// Where bytes that are no UTF-8 are refused.
const START: Place = Place { line: 1, column: 1 };

/// Reads the bytes of a file of this name as the component that they spell (docs/DEFINITIONS.md, "Files").
pub fn read_file(alloc: Global, name: &Txt, bytes: &[u8]) -> Result<Component, ReadFault>
    ensures { Answers name.now bytes.now result }
{
    if bytes.len() > BYTES {
        return Err(ReadFault::TooLong);
    }
    let Ok(text) = str::from_utf8(bytes) else {
        return Err(ReadFault::Syntax { place: START });
    };
    read(alloc, name, &Txt::from_str(alloc, text)?)
}
