//! Calls of the program over the files in memory.

ghost use Rattle.std.specs.Prelude.{◌≡◌, ◌<◌, ◌-◌, ◌^◌, IfOk};

use crate::texts::FILES;
use cpt_io::{Library, MemLibrary, MemSink, Sink};
use cpt_task::{List, Name};
use cpt_top::run;
use std::alloc::{AllocError, Global};
use std::test::Fail;

pub fn words_of(alloc: Global, words: &[&str]) -> Result<Vec<String>, AllocError> {
    let mut all = Vec::new(alloc);
    for word in words {
        all.push(String::from_str(alloc, word)?)?;
    }
    Ok(all)
}

/// A file that ends after so many bytes.
#[derive(Drop)]
pub struct Cut<'a> {
    pub name: &'a str,
    pub length: usize,
}

/// A cut of no file.
pub const WHOLE: Cut<'static> = Cut {
    name: "",
    length: 0,
};

fn files_of(alloc: Global, cut: &Cut) -> Result<Vec<(Name, Vec<u8>)>, AllocError> {
    let mut all = Vec::new(alloc);
    for file in &FILES {
        let name = List::from_vec(file.0.as_bytes().to_vec(alloc)?);
        all.push((name, left_of(file.0, file.1.as_bytes(), cut).to_vec(alloc)?))?;
    }
    Ok(all)
}

fn left_of<'a>(name: &str, whole: &'a [u8], cut: &Cut) -> &'a [u8] {
    if name == cut.name {
        whole.get(..cut.length).unwrap_or(whole)
    } else {
        whole
    }
}

/// The files, of which a pull gives at most 64 bytes, and in which the calls of these numbers fail.
pub fn library(alloc: Global, cut: &Cut, fail: &[u64]) -> Result<MemLibrary, AllocError>
    ensures { IfOk result (λ lib. ⟦<MemLibrary as Library>⟧.faults lib ≡ 0) }
{
    Ok(MemLibrary::with_pieces(files_of(alloc, cut)?, fail.to_vec(alloc)?, 64))
}

/// An output with room for so many bytes, in which the calls of these numbers fail.
pub fn output(alloc: Global, room: usize, fail: &[u64]) -> Result<MemSink, Fail>
    ensures { IfOk result (λ sink. ⟦<MemSink as Sink>⟧.faults sink ≡ 0) }
{
    match MemSink::new(alloc, room, fail.to_vec(alloc)?) {
        Ok(sink) => Ok(sink),
        Err(_) => Err("memory")?,
    }
}

/// Runs the program and tells its status alone, so that no test sees its whole contract.
pub fn status_of<L: Library, K: Sink>(
    alloc: Global,
    words: &[String],
    lib: &mut L,
    out: &mut K,
) -> u8
    requires lib { L.faults lib.old < 2 ^ 64 - 1 }
    requires out { K.faults out.old < 2 ^ 64 - 1 }
{
    run(alloc, words, lib, out)
}

pub fn is_written(out: &MemSink, text: &str) -> bool {
    out.written() == text.as_bytes()
}

/// Whether the text begins with what is written.
pub fn is_front(out: &MemSink, text: &str) -> bool {
    text.as_bytes().starts_with(out.written())
}
