//! A place in a parsed text.

ghost use Rattle.std.specs.Prelude.{◌≡◌, ◌<◌, length, slice_get, IsSome};
ghost use Rattle.std.specs.List.{slice_range};
ghost use Rattle.cpt_pddl.specs.Items.{begun_by, left, said_by, size};

use cpt_sexp::{Forest, Item};

/// A place in a group of a parsed text, or between its outermost items. What is left are the items from the
/// place to the end of the group.
#[derive(Clone, Copy)]
pub struct Cursor<'a> {
    items: &'a [Item],
    text: &'a [u8],
    close: u32,
    at: usize,
    after: usize,
}

/// The first item that is left, with the byte at which it begins.
#[derive(Clone, Copy)]
pub enum Next<'a> {
    /// Nothing is left. The byte of the closing parenthesis, or the length of the text.
    End(u32),
    /// A word, its bytes, and what follows it.
    Word(u32, &'a [u8], Cursor<'a>),
    /// A group, what stands in it, and what follows it.
    Group(u32, Cursor<'a>, Cursor<'a>),
}

/// The bytes from one place up to another, as far as the text has them.
fn bytes_between(text: &[u8], from: usize, to: usize) -> &[u8]
    ensures { result.now ≡ slice_range text.now from to }
{
    let end = to.min(text.len());
    &text[from.min(end)..end]
}

fn item_in(items: &[Item], at: usize) -> Option<Item>
    ensures item { result ≡ slice_get items.now at }
    ensures within { IsSome result → at < length items.now }
{
    items.get(at).copied()
}

impl<'a> Cursor<'a> {
    /// The place before everything that a text says.
    pub fn new(forest: &'a Forest) -> Cursor<'a>
        ensures { left result ≡ said_by forest.now }
    {
        let items = forest.items();
        let text = forest.text();
        Cursor {
            items,
            text,
            close: text.len() as u32,
            at: 0,
            after: items.len(),
        }
    }

    /// The same group from a later place on.
    fn moved(self, at: usize) -> Cursor<'a>
        ensures { result ≡ record self.entry { at = at } }
    {
        Cursor { at, ..self }
    }

    /// The first item that is left.
    pub fn next(self) -> Next<'a>
        ensures { left self.entry ≡ begun_by result }
    {
        if self.at >= self.after {
            return Next::End(self.close);
        }
        match item_in(self.items, self.at) {
            None => Next::End(self.close),
            Some(Item::Word { from, to }) => Next::Word(
                from,
                bytes_between(self.text, from as usize, to as usize),
                self.moved(self.at + 1),
            ),
            Some(Item::Group { from, to, next }) => {
                let inside = Cursor {
                    close: to.saturating_sub(1),
                    at: self.at + 1,
                    after: (next as usize).min(self.after),
                    ..self
                };
                Next::Group(from, inside, self.moved((next as usize).max(self.at + 1)))
            }
        }
    }
}
