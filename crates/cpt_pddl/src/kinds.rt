//! The order of types.

ghost use Rattle.std.specs.Prelude.{◌≡◌, slice_index};
ghost use Rattle.cpt_pddl.specs.Kinds.{is_below};

/// The type at the number, and type 0 past the end.
pub fn kind_at(parents: &[u32], kind: u32) -> u32
    ensures { result ≡ slice_index parents.now kind }
{
    match parents.get(kind as usize) {
        None => 0,
        Some(parent) => *parent,
    }
}

/// Whether the type is the wanted one or below it. `parents` has the parent of each type by its number; type 0 is
/// above all others.
#[tactic(auto, using(crate::proofs::KindLemmas::climb_on), unfolding(crate::specs::Kinds::is_below))]
pub fn is_below(parents: &[u32], kind: u32, wanted: u32) -> bool
    ensures { result ≡ is_below parents.now kind wanted }
{
    let mut here = kind;
    for step in 0..parents.len() {
        if here == wanted {
            return true;
        }
        if here == 0 {
            return false;
        }
        here = kind_at(parents, here);
    }
    here == wanted
}
