//! A parsed text.

ghost use Rattle.std.specs.Prelude.{◌≡◌, ◌≤◌, ◌^◌, length, map, All};
ghost use Rattle.cpt_sexp.specs.Flat.{flat, IsItemOf, Stands};
ghost use Rattle.cpt_sexp.specs.Grammar.{IsForest};
ghost use Rattle.cpt_sexp.specs.Trees.{Trees};

use crate::item::Item;
use std::marker::Model;

/// A parsed text: its words and groups in the order of the text, and its bytes with the letters in lower case.
#[derive(Drop)]
pub struct Forest {
    items: Vec<Item>,
    text: Vec<u8>,
}

impl Model for Forest {
    ghost use Rattle.std.specs.Prelude.{◌≡◌};
    ghost use Rattle.cpt_sexp.specs.Coding.{coded_forest};
    ghost use Rattle.cpt_sexp.specs.Flat.{flat, nested};
    ghost use Rattle.cpt_sexp.specs.Grammar.{ForestShape, IsForest};

    ghost Value = { ForestShape };

    ghost coded = { coded_forest };

    ghost view = { λ f. record { trees = nested f.items.items; text = f.text.items } };

    ghost invariant = { λ f. IsForest (record { trees = nested f.items.items; text = f.text.items }) × (f.items.items ≡ flat 0 (nested f.items.items)) };
}

impl Forest {
    /// The words and groups in the order of the text; a group's items follow it.
    pub fn items(&self) -> &[Item]
        ensures value { result.now ≡ flat 0 self.now.trees }
        ensures stand { Stands result.now 0 (length result.now) self.now.trees }
        ensures of_text { All (IsItemOf self.now.text (length result.now)) result.now }
        ensures forest { IsForest self.now }
    {
        self.items.as_slice()
    }

    /// The bytes of the text, with the letters in lower case.
    pub fn text(&self) -> &[u8]
        ensures value { result.now ≡ self.now.text }
        ensures forest { IsForest self.now }
    {
        self.text.as_slice()
    }
}

/// The forest of these items and this text.
pub fn forest_of(items: Vec<Item>, text: Vec<u8>) -> Forest
    requires forest { (trees : Trees) × (items.items ≡ flat 0 trees) × IsForest (record { trees = trees; text = text.items }) }
    ensures exact { (trees : Trees) → items.items ≡ flat 0 trees → IsForest (record { trees = trees; text = text.items }) → result ≡ record { trees = trees; text = text.items } }
{
    Forest { items, text }
}
