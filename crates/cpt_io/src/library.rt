//! Files to read from and an output to write to, by what is known of their bytes.

ghost use Rattle.std.specs.Prelude.{◌≡◌, ◌-◌, ◌^◌, ◌<◌, ◌≤◌, ℕ, List, Bool, Option, None, length, IsTrue, is_some, IsSome, IsOk, OnOk, OnErr, IfOk};
ghost use Rattle.std.specs.Io.KnownBytes.{append_known};
ghost use Rattle.cpt_io.specs.Meaning.{Files, HasCause, Opens, MayHold, Lacks, Pulls, AppendsFront};

/// A read or a write failed.
#[derive(Clone, Copy, Debug, PartialEq, Eq)]
pub struct Failed;

/// Why a file could not be read.
#[derive(Clone, Copy, Debug, PartialEq, Eq)]
pub enum ReadError {
    /// A call on the library failed.
    Failed,
    /// The file has more bytes than were allowed.
    TooLong,
    /// Want of memory.
    Memory,
}

/// Why a text could not be printed.
#[derive(Clone, Copy, Debug, PartialEq, Eq)]
pub enum PrintError {
    /// A call on the sink failed.
    Failed,
    /// Want of memory.
    Memory,
}

/// Named files, of which one at a time is open to be read from its beginning to its end.
///
/// No call changes what is held, or whether that is told. The count of faults never falls.
pub trait Library {
    /// The map from names to bytes, where it is told.
    ghost holds: { Self → Option Files };

    /// The unread bytes of the opened file, where they are told.
    ghost left: { Self → Option (List ℕ) };

    /// How many calls have failed.
    ghost faults: { Self → ℕ };

    /// Whether no call fails but an opening of a name that is not held.
    ghost steady: { Self → Bool };

    /// Opens a file to be read from its beginning.
    ///
    /// `Failed` comes only where the count of faults rose, and a name that is not held raises it.
    /// After `Failed` what is left is as it was. A steady library answers `Failed` exactly where
    /// the name is not held.
    fn open(&mut self, name: &str) -> Result<(), Failed>
        requires { faults self.old < 2 ^ 64 - 1 }
        ensures same { holds self.new ≡ holds self.old }
        ensures opened { OnOk result (Opens (holds self.old) name.now (left self.new)) }
        ensures held { OnOk result (MayHold (holds self.old) name.now) }
        ensures err { OnErr result (left self.new ≡ left self.old) }
        ensures cause { HasCause (faults self.old) (faults self.new) result }
        ensures steady { IsTrue (steady self.old) → IsTrue (steady self.new) }
        ensures lacking { IsTrue (steady self.old) → OnErr result (Lacks (holds self.old) name.now) };

    /// Moves a front of what is left into a front of the piece, and answers its length in bytes.
    ///
    /// Into a piece that is not empty, no bytes come exactly where nothing is left. `Failed` comes
    /// only where the count of faults rose, and then what is left is not told. A steady library
    /// never fails here.
    fn pull(&mut self, piece: &mut [u8]) -> Result<usize, Failed>
        requires { faults self.old < 2 ^ 64 - 1 }
        ensures same { holds self.new ≡ holds self.old }
        ensures bound { IfOk result (λ n. n ≤ length piece.new) }
        ensures bytes { IfOk result (λ n. Pulls (left self.old) (left self.new) n piece.new) }
        ensures err { OnErr result (left self.new ≡ None) }
        ensures cause { HasCause (faults self.old) (faults self.new) result }
        ensures steady { IsTrue (steady self.old) → IsTrue (steady self.new) }
        ensures never { IsTrue (steady self.old) → IsOk result };

    /// A steady library tells its bytes.
    ghost tells: { (lib : Self) → IsTrue (steady lib) → IsSome (holds lib) };
}

/// An output, to which bytes are appended. The count of faults never falls.
pub trait Sink {
    /// What was written, where it is told.
    ghost written: { Self → Option (List ℕ) };

    /// How many calls have failed.
    ghost faults: { Self → ℕ };

    /// Appends the piece, which is not empty.
    ///
    /// After `Failed` a front of the piece was appended, and the count of faults rose.
    fn put(&mut self, piece: &[u8]) -> Result<(), Failed>
        requires some { 0 < length piece.now }
        requires faults { faults self.old < 2 ^ 64 - 1 }
        ensures ok { OnOk result (written self.new ≡ append_known (written self.old) piece.now) }
        ensures err { OnErr result (AppendsFront (written self.old) (written self.new) piece.now) }
        ensures told { is_some (written self.new) ≡ is_some (written self.old) }
        ensures cause { HasCause (faults self.old) (faults self.new) result };
}
