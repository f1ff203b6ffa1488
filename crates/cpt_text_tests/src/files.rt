//! What no clause says: that calls succeed, and that real files and the real output are reached.

ghost use Rattle.std.specs.Prelude.{◌≡◌, ◌≤◌, IfOk};

use cpt_io::{FileLibrary, Library, MemLibrary, MemSink, ReadError, Sink, StdSink, read_all};
use cpt_task::{List, Name};
use std::alloc::{AllocError, Global};
use std::fs;
use std::process::Abort;
use std::test::Fail;

fn file(alloc: Global, name: &[u8], bytes: &[u8]) -> Result<(Name, Vec<u8>), AllocError> {
    Ok((List::from_vec(name.to_vec(alloc)?), bytes.to_vec(alloc)?))
}

// Two files of one name, with pieces of at most so many bytes.
fn library(alloc: Global, fail: &[u64], most: usize) -> Result<MemLibrary, AllocError>
    requires { 1 ≤ most }
    ensures { IfOk result (λ lib. ⟦<MemLibrary as Library>⟧.faults lib ≡ 0) }
{
    let files = Vec::from_array(
        alloc,
        [file(alloc, b"plan", b"a b c")?, file(alloc, b"plan", b"d")?],
    )?;
    Ok(MemLibrary::with_pieces(files, fail.to_vec(alloc)?, most))
}

fn is_failed(read: &Result<Vec<u8>, ReadError>) -> bool {
    matches!(read, Err(ReadError::Failed))
}

// Whether a file is read to its end, one is too long, and one is not held.
fn reads_three(alloc: Global, most: usize) -> Result<bool, Fail>
    requires { 1 ≤ most }
{
    let mut lib = library(alloc, &[], most)?;
    let bytes = read_all(alloc, &mut lib, "plan", 5)?;
    let long = read_all(alloc, &mut lib, "plan", 4);
    if !matches!(long, Err(ReadError::TooLong)) {
        return Ok(false);
    }
    let missing = read_all(alloc, &mut lib, "task", 5);
    Ok(bytes.as_slice() == b"a b c".as_slice() && is_failed(&missing))
}

// Whether a file whose first pull fails is answered so.
fn fails_first(alloc: Global, most: usize) -> Result<bool, Fail>
    requires { 1 ≤ most }
{
    let mut lib = library(alloc, &[1], most)?;
    let failed = read_all(alloc, &mut lib, "plan", 5);
    Ok(is_failed(&failed))
}

fn reads_in_pieces(rt: &impl Abort, alloc: Global, most: usize) -> Result<(), Fail>
    requires { 1 ≤ most }
{
    let is_read = reads_three(alloc, most)?;
    assert!(rt; is_read, "in pieces of {most}");
    let is_answered = fails_first(alloc, most)?;
    assert!(rt; is_answered, "in pieces of {most}");
    Ok(())
}

#[test]
fn reads_files_in_memory(rt: HostRuntime) -> Result<(), Fail> {
    reads_in_pieces(&rt, rt.alloc(), 1)?;
    reads_in_pieces(&rt, rt.alloc(), 3)?;
    reads_in_pieces(&rt, rt.alloc(), 64)?;
    let mut none = MemLibrary::new(Vec::new(rt.alloc()), Vec::new(rt.alloc()));
    assert!(rt; none.open("plan").is_err());
    Ok(())
}

// Whether a piece is put, one fails, and one fills what room there is.
fn puts_three(alloc: Global) -> Result<bool, Fail> {
    let mut out = MemSink::new(alloc, 4, [1].to_vec(alloc)?)?;
    out.put(b"ab")?;
    let is_failed = out.put(b"c").is_err();
    let is_kept = out.written() == b"ab".as_slice();
    let is_full = out.put(b"cde").is_err();
    Ok(is_failed && is_kept && is_full && out.written() == b"abcd".as_slice())
}

#[test]
fn puts_into_memory(rt: HostRuntime) -> Result<(), Fail> {
    let is_so = puts_three(rt.alloc())?;
    assert!(rt; is_so);
    Ok(())
}

#[test]
fn reads_a_real_file(rt: HostRuntime) -> Result<(), Fail> {
    fs::write(&rt, "plan.txt", b"5: (b)\n".as_slice())?;
    let mut lib = FileLibrary::new(&rt);
    let bytes = read_all(rt.alloc(), &mut lib, "plan.txt", 7)?;
    let missing = read_all(rt.alloc(), &mut lib, "missing.txt", 7);
    let is_so = bytes.as_slice() == b"5: (b)\n".as_slice() && is_failed(&missing);
    assert!(rt; is_so);
    Ok(())
}

#[test]
fn puts_to_the_real_output(rt: HostRuntime) -> Result<(), Fail> {
    let mut out = StdSink::new(&rt);
    out.put(b"valid 8\n")?;
    Ok(())
}
