//! Objects that count the calls that are made of them.

ghost use Rattle.std.specs.Prelude.{refl};
ghost use Rattle.cpt_io.specs.Meaning.{Files};

use cpt_io::{Failed, Library, MemLibrary, MemSink, Sink};

/// A library that counts its calls.
#[derive(Drop)]
pub struct CountingLibrary {
    pub inner: MemLibrary,
    pub calls: u64,
}

impl Library for CountingLibrary {
    ghost holds = { λ l. ⟦<MemLibrary as Library>⟧.holds l.inner };

    ghost left = { λ l. ⟦<MemLibrary as Library>⟧.left l.inner };

    ghost faults = { λ l. ⟦<MemLibrary as Library>⟧.faults l.inner };

    ghost steady = { λ l. ⟦<MemLibrary as Library>⟧.steady l.inner };

    ghost tells = { λ l h. refl };

    fn open(&mut self, name: &str) -> Result<(), Failed> {
        self.calls = self.calls.saturating_add(1);
        self.inner.open(name)
    }

    fn pull(&mut self, piece: &mut [u8]) -> Result<usize, Failed> {
        self.calls = self.calls.saturating_add(1);
        self.inner.pull(piece)
    }
}

/// An output that counts its calls.
#[derive(Drop)]
pub struct CountingSink {
    pub inner: MemSink,
    pub calls: u64,
}

impl Sink for CountingSink {
    ghost written = { λ s. ⟦<MemSink as Sink>⟧.written s.inner };

    ghost faults = { λ s. ⟦<MemSink as Sink>⟧.faults s.inner };

    fn put(&mut self, piece: &[u8]) -> Result<(), Failed> {
        self.calls = self.calls.saturating_add(1);
        self.inner.put(piece)
    }
}
