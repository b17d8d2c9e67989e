// Files in a row, and what is read of them.
use component_files::{FileFault, SourceFile, Unreadable, read_files};
use std::alloc::Global;
use std::process::Abort;
use std::test::Fail;
use text_core::{Oom, Place, Txt};

// Files by name and bytes, and the first that fails.
type Row = (&'static [(&'static str, &'static [u8])], Option<FileFault>);

fn source(alloc: Global, name: &str, bytes: &[u8]) -> Result<SourceFile, Oom> {
    Ok(SourceFile {
        name: Txt::from_str(alloc, name)?,
        bytes: bytes.to_vec(alloc)?,
    })
}

fn sources(alloc: Global, named: &[(&str, &[u8])]) -> Result<Vec<SourceFile>, Oom> {
    let mut files = Vec::new(alloc);
    for (name, bytes) in named {
        files.push(source(alloc, name, bytes)?)?;
    }
    Ok(files)
}

// How many components were read, or the fault.
fn outcome(alloc: Global, files: &[SourceFile]) -> (usize, Option<FileFault>) {
    match read_files(alloc, files) {
        Ok(components) => (components.len(), None),
        Err(fault) => (files.len(), Some(fault)),
    }
}

fn syntax(file: usize, line: u32, column: u32) -> Option<FileFault> {
    Some(FileFault::Unread {
        file,
        cause: Unreadable::Syntax(Place { line, column }),
    })
}

#[test]
fn files_in_their_order(rt: HostRuntime) -> Result<(), Fail> {
    let alloc = rt.alloc();
    let table: [Row; 5] = [
        (&[("A.razor", b""), ("B.razor", b"<p>x</p>")], None),
        (&[("A.razor", b"\xef\xbb\xbf<p>\r\nx</p>\r\n")], None),
        (
            &[("A.razor", b"x"), ("B.razor", b"a\xffb")],
            syntax(1, 1, 1),
        ),
        (
            &[("A.razor", b"x"), ("B.razor", b"<p>"), ("C.razor", b"\xff")],
            syntax(1, 1, 4),
        ),
        (&[("a", b"")], None),
    ];
    for (named, fault) in &table {
        let files = sources(alloc, named)?;
        assert_eq!(rt; outcome(alloc, &files), (named.len(), *fault), "{named:?}");
    }
    Ok(())
}
