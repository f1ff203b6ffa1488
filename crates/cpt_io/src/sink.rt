//! A sink in memory.

ghost use Rattle.std.specs.Prelude.{◌≡◌, ◌⊎◌, ◌+◌, ◌-◌, ◌^◌, ◌<◌, ◌≤◌, [], ◌++◌, length, take, vec_len, vec_capacity, Some, IsTrue, MatchBool, is_some, IfOk, OnOk, OnErr};
ghost use Rattle.std.specs.Io.KnownBytes.{append_known};
ghost use Rattle.cpt_io.specs.Meaning.{HasCause, AppendsFront};
ghost use Rattle.cpt_io.specs.Entries.{next_call};

use crate::library::{Failed, Sink};
use cpt_task::Memory;
use std::alloc::Global;

/// An output in memory, of limited room. It tells its bytes.
///
/// Its puts are counted from 0, up to 2^64 - 1, and those whose numbers it was given append
/// nothing and fail. A put that does not fit in the room appends the part that fits and fails.
/// Every other put succeeds, and takes no memory.
#[derive(Drop)]
pub struct MemSink {
    bytes: Vec<u8>,
    room: usize,
    /// The numbers of the puts that fail.
    fail: Vec<u64>,
    calls: u64,
    faults: u64,
    ghost reserved: { room ≤ vec_capacity bytes },
    ghost within: { vec_len bytes ≤ room },
}

impl MemSink {
    ghost use Rattle.cpt_io.specs.SinkInMemory.{mem_written, sink_calls, sink_fails, sink_room};

    /// An empty output with room for so many bytes, and the numbers of the puts that fail.
    pub fn new(alloc: Global, room: usize, fail: Vec<u64>) -> Result<MemSink, Memory>
        ensures written { IfOk result (λ sink. mem_written sink ≡ Some []) }
        ensures faults { IfOk result (λ sink. ⟦<MemSink as Sink>⟧.faults sink ≡ 0) }
        ensures calls { IfOk result (λ sink. sink_calls sink ≡ 0) }
        ensures fails { IfOk result (λ sink. sink_fails sink ≡ fail.items) }
        ensures room { IfOk result (λ sink. sink_room sink ≡ room) }
    {
        Ok(MemSink {
            bytes: Vec::with_capacity(alloc, room)?,
            room,
            fail,
            calls: 0,
            faults: 0,
        })
    }

    /// What was written.
    pub fn written(&self) -> &[u8]
        ensures { Some result.now ≡ mem_written self.now }
    {
        self.bytes.as_slice()
    }
}

// Appends within the capacity, which takes no memory.
fn append(bytes: &mut Vec<u8>, piece: &[u8])
    requires { vec_len bytes.old + length piece.now ≤ vec_capacity bytes.old }
    ensures items { bytes.new.items ≡ bytes.old.items ++ piece.now }
    ensures capacity { vec_capacity bytes.old ≤ vec_capacity bytes.new }
{
    match bytes.extend_from_slice(piece) {
        Ok(()) => {}
        Err(_) => unreachable!(),
    }
}

// Appends the part of the piece that fits in the room, and answers whether it was the whole.
fn append_within(bytes: &mut Vec<u8>, room: usize, piece: &[u8]) -> bool
    requires reserved { room ≤ vec_capacity bytes.old }
    requires within { vec_len bytes.old ≤ room }
    ensures whole { IsTrue result → bytes.new.items ≡ bytes.old.items ++ piece.now }
    ensures part { bytes.new.items ≡ bytes.old.items ++ take (room - length bytes.old.items) piece.now }
    ensures front { bytes.new.items ≡ take room (bytes.old.items ++ piece.now) }
    ensures fits { MatchBool result (length bytes.old.items + length piece.now ≤ room) (room < length bytes.old.items + length piece.now) }
    ensures capacity { vec_capacity bytes.old ≤ vec_capacity bytes.new }
{
    let space = room - bytes.len();
    if space < piece.len() {
        append(bytes, &piece[..space]);
        return false;
    }
    append(bytes, piece);
    true
}

impl Sink for MemSink {
    ghost use Rattle.cpt_io.specs.SinkInMemory.{mem_written, sink_faults, sink_calls, sink_fails, sink_room, IsFailingPut, HasRoom, FillsUp};

    ghost written = { mem_written };

    ghost faults = { sink_faults };

    fn put(&mut self, piece: &[u8]) -> Result<(), Failed>
        requires some { 0 < length piece.now }
        requires faults { sink_faults self.old < 2 ^ 64 - 1 }
        ensures ok { OnOk result (mem_written self.new ≡ append_known (mem_written self.old) piece.now) }
        ensures err { OnErr result (AppendsFront (mem_written self.old) (mem_written self.new) piece.now) }
        ensures told { is_some (mem_written self.new) ≡ is_some (mem_written self.old) }
        ensures cause { HasCause (sink_faults self.old) (sink_faults self.new) result }
        ensures raised { OnErr result (sink_faults self.new ≡ sink_faults self.old + 1) }
        ensures fails { OnErr result (IsFailingPut self.old ⊎ FillsUp self.old self.new piece.now) }
        ensures nothing { IsFailingPut self.old → mem_written self.new ≡ mem_written self.old }
        ensures passes { OnOk result (¬ IsFailingPut self.old) }
        ensures fits { OnOk result (HasRoom self.old piece.now) }
        ensures calls { sink_calls self.new ≡ next_call (sink_calls self.old) }
        ensures failing { sink_fails self.new ≡ sink_fails self.old }
        ensures room { sink_room self.new ≡ sink_room self.old }
    {
        let call = self.calls;
        self.calls = call.saturating_add(1);
        if self.fail.contains(&call) {
            self.faults += 1;
            return Err(Failed);
        }
        if !append_within(&mut self.bytes, self.room, piece) {
            self.faults += 1;
            return Err(Failed);
        }
        Ok(())
    }
}
