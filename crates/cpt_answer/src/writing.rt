//! Writing answers.

ghost use Rattle.std.specs.Prelude.{◌≡◌, ◌-◌, ◌^◌, ◌<◌};
ghost use Rattle.cpt_answer.specs.Endings.{memory_answer, read_answer, told, usage_answer};
ghost use Rattle.cpt_answer.specs.Writing.{Tells, Writes, output};

use crate::ending::{Cause, Ending, Reply};
use crate::lines::reply_at;
use cpt_io::Sink;
use std::alloc::Global;

/// Writes the text, and answers the status, or 8 where the write fails.
fn put<K: Sink>(out: &mut K, text: &[u8], status: u8) -> u8
    requires { K.faults out.old < 2 ^ 64 - 1 }
    ensures { Writes (output (K.faults out.old) (K.written out.old)) (output (K.faults out.new) (K.written out.new)) (record { status = status; text = text.now }) result }
{
    if text.is_empty() {
        return status;
    }
    match out.put(text) {
        Ok(()) => status,
        Err(_) => 8,
    }
}

/// Writes that the words ask for no command, which takes no memory.
pub fn put_usage<K: Sink>(out: &mut K) -> u8
    requires { K.faults out.old < 2 ^ 64 - 1 }
    ensures { Writes (output (K.faults out.old) (K.written out.old)) (output (K.faults out.new) (K.written out.new)) usage_answer result }
{
    put(out, b"fault: usage\n", 5)
}

/// Writes that a file could not be read, which takes no memory.
fn put_read<K: Sink>(out: &mut K) -> u8
    requires { K.faults out.old < 2 ^ 64 - 1 }
    ensures { Writes (output (K.faults out.old) (K.written out.old)) (output (K.faults out.new) (K.written out.new)) read_answer result }
{
    put(out, b"fault: read\n", 7)
}

/// Writes that memory was refused, which takes none.
fn put_memory<K: Sink>(out: &mut K) -> u8
    requires { K.faults out.old < 2 ^ 64 - 1 }
    ensures { Writes (output (K.faults out.old) (K.written out.old)) (output (K.faults out.new) (K.written out.new)) memory_answer result }
{
    put(out, b"fault: memory\n", 9)
}

/// Writes the line of a cause, or where it cannot be made that memory was refused.
fn put_cause<K: Sink>(alloc: Global, out: &mut K, cause: Cause) -> u8
    requires { K.faults out.old < 2 ^ 64 - 1 }
    ensures { Tells (Err (Ending.Because cause)) (output (K.faults out.old) (K.written out.old)) (output (K.faults out.new) (K.written out.new)) result }
{
    match reply_at(alloc, cause) {
        Ok(reply) => put(out, &reply.text, reply.status),
        Err(_) => put_memory(out),
    }
}

/// Writes the result in one call, or how it ends, and answers the status.
pub fn tell<K: Sink>(alloc: Global, out: &mut K, answer: Result<Reply, Ending>) -> u8
    requires { K.faults out.old < 2 ^ 64 - 1 }
    ensures { Tells (told answer) (output (K.faults out.old) (K.written out.old)) (output (K.faults out.new) (K.written out.new)) result }
{
    match answer {
        Ok(reply) => put(out, &reply.text, reply.status),
        Err(Ending::Because(cause)) => put_cause(alloc, out, cause),
        Err(Ending::Read) => put_read(out),
        Err(Ending::Memory) => put_memory(out),
    }
}
