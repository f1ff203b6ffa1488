//! Files in memory, by their names and bytes.

ghost use Rattle.std.specs.Prelude.{◌≡◌, ◌+◌, ◌<◌, ◌^◌, length, take, drop, Some, None, MatchOption};
ghost use Rattle.cpt_io.specs.Meaning.{Pulls};
ghost use Rattle.cpt_io.specs.Entries.{held, bytes_at, pull_count};

use cpt_task::Name;

// Where the first file of that name stands.
pub(crate) fn place_of(files: &[(Name, Vec<u8>)], name: &[u8]) -> Option<usize>
    ensures { MatchOption result (held files.now name.now ≡ None) (λ place. held files.now name.now ≡ Some (bytes_at files.now place)) }
{
    for (place, file) in files.iter().enumerate() {
        if file.0.as_slice() == name {
            return Some(place);
        }
    }
    None
}

// What stands behind the first `at` bytes of the file at the place.
pub(crate) fn rest_of(files: &[(Name, Vec<u8>)], place: usize, at: usize) -> &[u8]
    ensures rest { result.now ≡ drop at (bytes_at files.now place) }
    ensures fits { at + length result.now < 2 ^ 64 }
{
    if place < files.len() {
        let file = &files[place];
        return rest_after(file.1.as_slice(), at);
    }
    &[]
}

fn rest_after(bytes: &[u8], at: usize) -> &[u8]
    ensures rest { result.now ≡ drop at bytes.now }
    ensures fits { at + length result.now < 2 ^ 64 }
{
    if at < bytes.len() { &bytes[at..] } else { &[] }
}

// Moves a front of the rest into the piece.
pub(crate) fn fill(piece: &mut [u8], rest: &[u8], most: usize) -> usize
    requires { 0 < most }
    ensures count { result ≡ pull_count (length piece.new) most rest.now }
    ensures bytes { Pulls (Some rest.now) (Some (drop result rest.now)) result piece.new }
{
    copy_front(piece, rest, most)
}

fn copy_front(piece: &mut [u8], rest: &[u8], most: usize) -> usize
    ensures count { result ≡ pull_count (length piece.old) most rest.now }
    ensures front { take result piece.new ≡ take result rest.now }
{
    let count = piece.len().min(most).min(rest.len());
    piece[..count].copy_from_slice(&rest[..count]);
    count
}
