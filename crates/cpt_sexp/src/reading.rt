//! Reads a text item by item.

ghost use Rattle.std.specs.Prelude.{◌≡◌, ◌≢◌, ◌<◌, ◌≤◌, ◌^◌, true, length, slice_index, IfOk, IfErr};
ghost use Rattle.cpt_sexp.specs.Bytes.{is_letter, plain};
ghost use Rattle.cpt_sexp.specs.Faults.{IsFault, byte_of};
ghost use Rattle.cpt_sexp.specs.Flat.{flat};
ghost use Rattle.cpt_sexp.specs.Grammar.{SpellsText};
ghost use Rattle.cpt_sexp.specs.Parsing.{Refuses};
ghost use Rattle.cpt_sexp.specs.Progress.{HasRead};
ghost use Rattle.cpt_sexp.specs.Trees.{Trees};

use crate::bytes::{comment_end, is_blank, is_letter, runs_out, word_end};
use crate::item::{Item, SexpError};
use std::alloc::Global;

/// A group that is open: the byte of its parenthesis, and the number of its item.
#[derive(Clone, Copy)]
pub struct Opened {
    from: u32,
    item: u32,
}

/// What has been read of a text: its items, and which of them are groups that are still open.
#[derive(Drop)]
struct Reading {
    items: Vec<Item>,
    opened: Vec<Opened>,
}

impl Reading {
    /// The fault of the text where one stands at the place: an earlier group may be left open.
    fn refusal(&self, text: &[u8], at: usize, fault: SexpError) -> SexpError
        requires small { length text.now ≤ 2 ^ 24 }
        requires read { HasRead text.now self.now.items.items self.now.opened.items at }
        requires stands { IsFault (plain text.now) fault }
        requires here { byte_of fault ≡ at }
        ensures { Refuses text.now result }
    {
        match self.opened.first() {
            None => fault,
            Some(first) => {
                if runs_out(&text[at..], self.opened.len()) {
                    fault
                } else {
                    SexpError::Unclosed(first.from)
                }
            }
        }
    }

    /// Reads the word at the place, and answers the place after it.
    fn read_word(&mut self, text: &[u8], at: usize) -> Result<usize, SexpError>
        requires small { length text.now ≤ 2 ^ 24 }
        requires read { HasRead text.now self.old.items.items self.old.opened.items at }
        requires begun { is_letter (slice_index text.now at) ≡ true }
        ensures ok { IfOk result (λ next. HasRead text.now self.new.items.items self.new.opened.items next × (at < next)) }
        ensures err { IfErr result (Refuses text.now) }
    {
        let end = word_end(text, at);
        self.items.push(Item::Word {
            from: at as u32,
            to: end as u32,
        })?;
        Ok(end)
    }

    /// Opens the group at the place, and answers the place after its parenthesis.
    fn open_group(&mut self, text: &[u8], at: usize) -> Result<usize, SexpError>
        requires small { length text.now ≤ 2 ^ 24 }
        requires read { HasRead text.now self.old.items.items self.old.opened.items at }
        requires opens { slice_index text.now at ≡ 40 }
        ensures ok { IfOk result (λ next. HasRead text.now self.new.items.items self.new.opened.items next × (at < next)) }
        ensures err { IfErr result (Refuses text.now) }
    {
        let from = at as u32;
        if self.opened.len() >= 64 {
            return Err(self.refusal(text, at, SexpError::Deep(from)));
        }
        let item = self.items.len() as u32;
        self.items.push(Item::Group {
            from,
            to: 0,
            next: 0,
        })?;
        self.opened.push(Opened { from, item })?;
        Ok(at + 1)
    }

    /// Closes the innermost open group at the place, and answers the place after its parenthesis.
    fn close_group(&mut self, text: &[u8], at: usize) -> Result<usize, SexpError>
        requires small { length text.now ≤ 2 ^ 24 }
        requires read { HasRead text.now self.old.items.items self.old.opened.items at }
        requires closes { slice_index text.now at ≡ 41 }
        ensures ok { IfOk result (λ next. HasRead text.now self.new.items.items self.new.opened.items next × (at < next)) }
        ensures err { IfErr result (Refuses text.now) }
    {
        let Some(group) = self.opened.pop() else {
            return Err(SexpError::Unopened(at as u32));
        };
        let next = self.items.len() as u32;
        self.items[group.item as usize] = Item::Group {
            from: group.from,
            to: at as u32 + 1,
            next,
        };
        Ok(at + 1)
    }

    /// Reads on from the place over a blank, a comment, a word or a parenthesis, and answers the place after it.
    fn step(&mut self, text: &[u8], at: usize) -> Result<usize, SexpError>
        requires small { length text.now ≤ 2 ^ 24 }
        requires read { HasRead text.now self.old.items.items self.old.opened.items at }
        requires more { at < length text.now }
        ensures ok { IfOk result (λ next. HasRead text.now self.new.items.items self.new.opened.items next × (at < next)) }
        ensures err { IfErr result (Refuses text.now) }
    {
        let b = text[at];
        if is_blank(b) {
            return Ok(at + 1);
        }
        if b == b';' {
            return Ok(comment_end(text, at + 1));
        }
        if b == b'(' {
            return self.open_group(text, at);
        }
        if b == b')' {
            return self.close_group(text, at);
        }
        if is_letter(b) {
            return self.read_word(text, at);
        }
        Err(self.refusal(text, at, SexpError::BadByte(at as u32)))
    }
}

/// The items of the text, or its first fault.
pub fn read(alloc: Global, text: &[u8]) -> Result<Vec<Item>, SexpError>
    requires { length text.now ≤ 2 ^ 24 }
    ensures ok { IfOk result (λ items. (trees : Trees) × SpellsText text.now trees × (items.items ≡ flat 0 trees)) }
    ensures err { IfErr result (Refuses text.now) }
{
    let mut reading = Reading {
        items: Vec::new(alloc),
        opened: Vec::new(alloc),
    };
    let mut at = 0;
    while at < text.len() {
        at = reading.step(text, at)?;
    }
    let Reading { items, opened } = reading;
    if let Some(first) = opened.first() {
        return Err(SexpError::Unclosed(first.from));
    }
    Ok(items)
}
