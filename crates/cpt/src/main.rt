//! The program `cpt`: an optimal planner for temporal problems, with checked refutations.
#![tactic(auto)]

use cpt_io::{FileLibrary, StdSink};
use cpt_top::run;
use std::env;
use std::io::ErrorKind;
use std::process::ExitCode;

/// Hands the words of the command line to `run`, over the real files and the real output. Where memory for the
/// words is refused, it writes nothing and ends with status 9; where they cannot be taken for another cause, it
/// hands in no words, which is usage.
fn main(rt: HostRuntime) -> ExitCode {
    let words = match env::args(&rt) {
        Ok(args) => args.skip(1).collect(rt.alloc()),
        Err(e) if e.kind() == ErrorKind::OutOfMemory => return ExitCode::from(9),
        Err(_) => Ok(Vec::new(rt.alloc())),
    };
    let Ok(words) = words else {
        return ExitCode::from(9);
    };
    let words: Vec<String> = words;
    let mut lib = FileLibrary::new(&rt);
    let mut out = StdSink::new(&rt);
    ExitCode::from(run(rt.alloc(), &words, &mut lib, &mut out))
}
