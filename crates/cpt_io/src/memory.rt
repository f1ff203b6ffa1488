//! A library in memory, with calls that are made to fail.

ghost use Rattle.std.specs.Prelude.{◌≡◌, ◌⊎◌, ◌+◌, ◌-◌, ◌^◌, ◌<◌, ◌≤◌, ◌==◌, length, Some, None, [], refl, IsTrue, IsOk, OnOk, OnErr, IfOk, IfSome};
ghost use Rattle.cpt_io.specs.Meaning.{HasCause, Opens, MayHold, Lacks, Pulls};
ghost use Rattle.cpt_io.specs.Entries.{held, next_call, pull_count};

use crate::entries::{fill, place_of, rest_of};
use crate::library::{Failed, Library};
use cpt_task::Name;

/// Files in memory. It tells its bytes.
///
/// Its calls of `open` and `pull` are counted together from 0, up to 2^64 - 1, and those whose
/// numbers it was given fail. No other call fails, but an `open` of a name that is not held.
#[derive(Drop)]
pub struct MemLibrary {
    files: Vec<(Name, Vec<u8>)>,
    /// The numbers of the calls that fail.
    fail: Vec<u64>,
    /// The most bytes that one pull gives.
    most: usize,
    calls: u64,
    faults: u64,
    /// No pull has failed since the last file was opened.
    told: bool,
    /// Where the opened file stands, past the end where none was opened.
    place: usize,
    /// How many of its bytes were pulled.
    at: usize,
    ghost some: { 0 < most },
}

impl MemLibrary {
    ghost use Rattle.cpt_io.specs.InMemory.{mem_holds, mem_left, mem_steady, mem_calls, mem_fails, mem_most};

    /// These files, of which the first counts where two have one name, and the numbers of the
    /// calls that fail. It takes no memory.
    pub fn new(files: Vec<(Name, Vec<u8>)>, fail: Vec<u64>) -> MemLibrary
        ensures holds { mem_holds result ≡ Some (held files.items) }
        ensures left { mem_left result ≡ Some [] }
        ensures steady { mem_steady result ≡ (length fail.items == 0) }
        ensures faults { ⟦<MemLibrary as Library>⟧.faults result ≡ 0 }
        ensures calls { mem_calls result ≡ 0 }
        ensures fails { mem_fails result ≡ fail.items }
        ensures most { mem_most result ≡ usize.MAX }
    {
        MemLibrary::with_pieces(files, fail, usize::MAX)
    }

    /// As `new`, but no pull gives more than `most` bytes, at least 1. It takes no memory.
    pub fn with_pieces(files: Vec<(Name, Vec<u8>)>, fail: Vec<u64>, most: usize) -> MemLibrary
        requires { 1 ≤ most }
        ensures holds { mem_holds result ≡ Some (held files.items) }
        ensures left { mem_left result ≡ Some [] }
        ensures steady { mem_steady result ≡ (length fail.items == 0) }
        ensures faults { ⟦<MemLibrary as Library>⟧.faults result ≡ 0 }
        ensures calls { mem_calls result ≡ 0 }
        ensures fails { mem_fails result ≡ fail.items }
        ensures most { mem_most result ≡ most }
    {
        let place = files.len();
        MemLibrary {
            files,
            fail,
            most,
            calls: 0,
            faults: 0,
            told: true,
            place,
            at: 0,
        }
    }
}

impl Library for MemLibrary {
    ghost use Rattle.cpt_io.specs.InMemory.{mem_holds, mem_left, mem_steady, mem_faults, mem_calls, mem_fails, mem_most, IsFailing};

    ghost holds = { mem_holds };

    ghost left = { mem_left };

    ghost faults = { mem_faults };

    ghost steady = { mem_steady };

    ghost tells = { λ m h. refl };

    fn open(&mut self, name: &str) -> Result<(), Failed>
        requires { mem_faults self.old < 2 ^ 64 - 1 }
        ensures same { mem_holds self.new ≡ mem_holds self.old }
        ensures opened { OnOk result (Opens (mem_holds self.old) name.now (mem_left self.new)) }
        ensures held { OnOk result (MayHold (mem_holds self.old) name.now) }
        ensures err { OnErr result (mem_left self.new ≡ mem_left self.old) }
        ensures cause { HasCause (mem_faults self.old) (mem_faults self.new) result }
        ensures steady { IsTrue (mem_steady self.old) → IsTrue (mem_steady self.new) }
        ensures lacking { IsTrue (mem_steady self.old) → OnErr result (Lacks (mem_holds self.old) name.now) }
        ensures raised { OnErr result (mem_faults self.new ≡ mem_faults self.old + 1) }
        ensures fails { OnErr result (IsFailing self.old ⊎ Lacks (mem_holds self.old) name.now) }
        ensures passes { OnOk result (¬ IsFailing self.old) }
        ensures calls { mem_calls self.new ≡ next_call (mem_calls self.old) }
        ensures failing { mem_fails self.new ≡ mem_fails self.old }
        ensures most { mem_most self.new ≡ mem_most self.old }
    {
        let call = self.calls;
        self.calls = call.saturating_add(1);
        if self.fail.contains(&call) {
            self.faults += 1;
            return Err(Failed);
        }
        match place_of(&self.files, name.as_bytes()) {
            Some(place) => {
                self.place = place;
                self.at = 0;
                self.told = true;
                Ok(())
            }
            None => {
                self.faults += 1;
                Err(Failed)
            }
        }
    }

    fn pull(&mut self, piece: &mut [u8]) -> Result<usize, Failed>
        requires { mem_faults self.old < 2 ^ 64 - 1 }
        ensures same { mem_holds self.new ≡ mem_holds self.old }
        ensures bound { IfOk result (λ n. n ≤ length piece.new) }
        ensures bytes { IfOk result (λ n. Pulls (mem_left self.old) (mem_left self.new) n piece.new) }
        ensures err { OnErr result (mem_left self.new ≡ None) }
        ensures cause { HasCause (mem_faults self.old) (mem_faults self.new) result }
        ensures steady { IsTrue (mem_steady self.old) → IsTrue (mem_steady self.new) }
        ensures never { IsTrue (mem_steady self.old) → IsOk result }
        ensures raised { OnErr result (mem_faults self.new ≡ mem_faults self.old + 1) }
        ensures fails { OnErr result (IsFailing self.old) }
        ensures passes { OnOk result (¬ IsFailing self.old) }
        ensures at_most { IfOk result (λ n. n ≤ mem_most self.old) }
        ensures amount { IfSome (mem_left self.old) (λ left. IfOk result (λ n. n ≡ pull_count (length piece.new) (mem_most self.old) left)) }
        ensures calls { mem_calls self.new ≡ next_call (mem_calls self.old) }
        ensures failing { mem_fails self.new ≡ mem_fails self.old }
        ensures most { mem_most self.new ≡ mem_most self.old }
    {
        let call = self.calls;
        self.calls = call.saturating_add(1);
        if self.fail.contains(&call) {
            self.faults += 1;
            self.told = false;
            return Err(Failed);
        }
        let count = fill(piece, rest_of(&self.files, self.place, self.at), self.most);
        self.at += count;
        Ok(count)
    }
}
