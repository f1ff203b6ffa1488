//! Sets of numbers, as increasing lists.

ghost use Rattle.std.specs.Prelude.{◌≡◌, ◌↔◌, ◌<◌, IsTrue, IsSome, IfSome};
ghost use Rattle.std.specs.List.Sorted.{IsStrictlyIncreasing};

use std::marker::Model;

/// A strictly increasing list of numbers.
#[derive(Debug, Drop)]
pub struct Ids {
    items: Vec<u32>,
}

impl Model for Ids {
    ghost use Rattle.std.specs.Prelude.{List, ℕ};
    ghost use Rattle.std.specs.List.Sorted.{IsStrictlyIncreasing};

    ghost Value = { List ℕ };

    ghost view = { λ a. a.items.items };

    ghost invariant = { λ a. IsStrictlyIncreasing a.items.items };
}

fn is_increasing(v: &[u32]) -> bool
    ensures { IsTrue result ↔ IsStrictlyIncreasing v.now }
{
    for (i, x) in v.iter().enumerate() {
        if i + 1 < v.len() && v[i + 1] <= *x {
            return false;
        }
    }
    true
}

impl Ids {
    /// The numbers, where they are strictly increasing.
    pub fn from_vec(v: Vec<u32>) -> Option<Ids>
        ensures made { IsSome result ↔ IsStrictlyIncreasing v.items }
        ensures same { IfSome result (λ ids. ids ≡ v.items) }
    {
        if is_increasing(&v) {
            Some(Ids { items: v })
        } else {
            None
        }
    }

    /// The numbers in order.
    pub fn as_slice(&self) -> &[u32]
        ensures items { result.now ≡ self.now }
        ensures increasing { IsStrictlyIncreasing self.now }
    {
        self.items.as_slice()
    }
}
