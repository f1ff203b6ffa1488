//! Numbers that are appended to a trail.

ghost use Rattle.std.specs.Prelude.{◌≡◌, ◌≤◌, ◌++◌, length};

use cpt_trail::Trail;

/// Appends these numbers.
pub(crate) fn append_all(trail: &mut Trail, numbers: &[u64])
    requires { length numbers.now ≤ trail.old.cell_room }
    ensures cells { trail.new.cells ≡ trail.old.cells ++ numbers.now }
    ensures marks { trail.new.marks ≡ trail.old.marks }
    ensures entry_room { trail.new.entry_room ≡ trail.old.entry_room }
{
    for number in numbers {
        trail.append(*number);
    }
}
