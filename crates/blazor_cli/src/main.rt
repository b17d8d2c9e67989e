//! The program `blazor`: makes the real objects, calls the top call, and ends with its status.
//!
//! All that it decides is decided by `blazor_top::run`, whose contract says what is written and when.
#![tactic(auto)]

use blazor_top::run;
use outside::{Output, SystemFiles};
use std::alloc::Global;
use std::io::ErrorKind;
use std::process::ExitCode;
use std::rt::Env;
use std::{env, io};
use text_core::Txt;

/// The status for want of memory, before there is anything to run.
const OUT_OF_MEMORY: u8 = 9;

/// The words behind the program's own name.
fn words_of<R: Env + AllocGlobal>(rt: &R) -> io::Result<Vec<Txt>> {
    let mut words = Vec::new(rt.alloc());
    for word in env::args(rt)?.skip(1) {
        words.push(Txt::from(word))?;
    }
    Ok(words)
}

fn main(rt: HostRuntime) -> ExitCode {
    let alloc: Global = rt.alloc();
    let words = match words_of(&rt) {
        Ok(words) => words,
        Err(error) if error.kind() == ErrorKind::OutOfMemory => {
            return ExitCode::from(OUT_OF_MEMORY);
        }
        // Words that are no text spell no command, as no words do.
        Err(_) => Vec::new(alloc),
    };
    let Ok(system) = rt.clone() else {
        return ExitCode::from(OUT_OF_MEMORY);
    };
    let mut files = SystemFiles::new(system);
    let mut out = Output::new(io::writer(&rt));
    ExitCode::from(run(alloc, &words, &mut files, &mut out).status)
}
