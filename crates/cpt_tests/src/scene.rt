//! Calls of the program over files in memory.

ghost use Rattle.std.specs.Prelude.{◌≡◌, ◌≤◌, ◌^◌, ◌-◌, ◌<◌, IfOk};

use cpt_io::{Library, MemLibrary, MemSink, Sink};
use cpt_task::{List, Name};
use cpt_top::run;
use std::alloc::{AllocError, Global};
use std::process::Abort;
use std::test::Fail;

/// A name and the text of its file.
pub type File<'a> = (&'a str, &'a str);

/// Words, the two files that they may name, and what the program has to answer.
#[derive(Drop)]
pub struct Case<'a> {
    pub words: &'a [&'a str],
    pub files: &'a [File<'a>],
    pub status: u8,
    pub text: &'a str,
}

pub fn words_of(alloc: Global, words: &[&str]) -> Result<Vec<String>, AllocError> {
    let mut all = Vec::new(alloc);
    for word in words {
        all.push(String::from_str(alloc, word)?)?;
    }
    Ok(all)
}

fn files_of(alloc: Global, files: &[File]) -> Result<Vec<(Name, Vec<u8>)>, AllocError> {
    let mut all = Vec::new(alloc);
    for file in files {
        let name = List::from_vec(file.0.as_bytes().to_vec(alloc)?);
        all.push((name, file.1.as_bytes().to_vec(alloc)?))?;
    }
    Ok(all)
}

/// The files, of which a pull gives at most so many bytes, and in which the calls of these numbers fail.
pub fn library(
    alloc: Global,
    files: &[File],
    fail: &[u64],
    most: usize,
) -> Result<MemLibrary, AllocError>
    requires { 1 ≤ most }
    ensures { IfOk result (λ lib. ⟦<MemLibrary as Library>⟧.faults lib ≡ 0) }
{
    Ok(MemLibrary::with_pieces(files_of(alloc, files)?, fail.to_vec(alloc)?, most))
}

/// An output with room for 4,096 bytes.
pub fn output(alloc: Global, fail: &[u64]) -> Result<MemSink, Fail>
    ensures { IfOk result (λ sink. ⟦<MemSink as Sink>⟧.faults sink ≡ 0) }
{
    match MemSink::new(alloc, 4096, fail.to_vec(alloc)?) {
        Ok(sink) => Ok(sink),
        Err(_) => Err("memory")?,
    }
}

/// Runs the program and tells its status alone, so that no test sees its whole contract.
pub fn status_of<L: Library, K: Sink>(
    alloc: Global,
    words: &[String],
    lib: &mut L,
    out: &mut K,
) -> u8
    requires lib { L.faults lib.old < 2 ^ 64 - 1 }
    requires out { K.faults out.old < 2 ^ 64 - 1 }
{
    run(alloc, words, lib, out)
}

pub fn is_written(out: &MemSink, text: &str) -> bool {
    out.written() == text.as_bytes()
}

/// Whether the case, over its files in pieces of at most so many bytes, has its status and its text.
fn is_answered(alloc: Global, case: &Case, most: usize) -> Result<bool, Fail>
    requires { 1 ≤ most }
{
    let words = words_of(alloc, case.words)?;
    let mut lib = library(alloc, case.files, &[], most)?;
    let mut out = output(alloc, &[])?;
    let status = status_of(alloc, &words, &mut lib, &mut out);
    Ok(status == case.status && is_written(&out, case.text))
}

/// Runs the case over its files in pieces of at most so many bytes, and compares the status and what was written.
pub fn expect(rt: &impl Abort, alloc: Global, case: &Case, most: usize) -> Result<(), Fail>
    requires { 1 ≤ most }
{
    let is_so = is_answered(alloc, case, most)?;
    assert!(rt; is_so, "where {} is awaited", case.text);
    Ok(())
}

/// Runs each case.
pub fn expect_all(rt: &impl Abort, alloc: Global, cases: &[Case]) -> Result<(), Fail> {
    for case in cases {
        expect(rt, alloc, case, 7)?;
    }
    Ok(())
}
