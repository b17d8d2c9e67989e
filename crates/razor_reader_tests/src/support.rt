// What a file is read as, or why it is not.
use crate::outline::outline;
use razor_reader::{ReadFault, read};
use std::alloc::Global;
use std::process::Abort;
use std::test::Fail;
use text_core::{Place, Txt};

pub fn outlined(alloc: Global, text: &str) -> Result<String, Fail> {
    let name = Txt::from_str(alloc, "pages/Counter.razor")?;
    let text = Txt::from_str(alloc, text)?;
    match read(alloc, &name, &text) {
        Ok(component) => outline(alloc, &component),
        Err(ReadFault::TooLong) => Ok(String::from_str(alloc, "too long")?),
        Err(ReadFault::TooDeep { place }) => placed(alloc, "too deep", place),
        Err(ReadFault::Syntax { place }) => placed(alloc, "syntax", place),
        Err(ReadFault::Oom) => Ok(String::from_str(alloc, "out of memory")?),
    }
}

fn placed(alloc: Global, fault: &str, place: Place) -> Result<String, Fail> {
    let line = place.line;
    let column = place.column;
    Ok(format!(in alloc; "{fault} {line}:{column}")?)
}

pub fn compare(rt: &impl Abort, alloc: Global, rows: &[(&str, &str)]) -> Result<(), Fail> {
    for (text, expected) in rows {
        let found = outlined(alloc, text)?;
        assert_eq!(rt; found.as_str(), *expected, "{text}");
    }
    Ok(())
}
