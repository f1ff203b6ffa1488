//! Small pieces that readers are made of.

ghost use Rattle.std.specs.Prelude.{◌≡◌};
ghost use Rattle.cpt_pddl.specs.Faults.{Gives};
ghost use Rattle.cpt_pddl.specs.Items.{left};
ghost use Rattle.cpt_pddl.specs.Reading.{after_word, group_at, name_at, nothing};

use crate::cursor::{Cursor, Next};
use crate::fault::Fault;
use crate::words::{is_name, is_word};

/// Nothing more may stand here.
pub fn nothing(place: Cursor<'_>) -> Result<(), Fault>
    ensures { Gives (λ _. tt) result (nothing (left place.entry)) }
{
    match place.next() {
        Next::End(_) => Ok(()),
        Next::Word(at, _, _) => Err(Fault::Shape(at)),
        Next::Group(at, _, _) => Err(Fault::Shape(at)),
    }
}

/// This word has to stand here. What follows it is answered.
pub fn after_word<'a>(wanted: &str, place: Cursor<'a>) -> Result<Cursor<'a>, Fault>
    ensures { Gives left result (after_word wanted.now (left place.entry)) }
{
    match place.next() {
        Next::End(close) => Err(Fault::Shape(close)),
        Next::Word(at, bytes, rest) => {
            if is_word(bytes, wanted) {
                Ok(rest)
            } else {
                Err(Fault::Shape(at))
            }
        }
        Next::Group(at, _, _) => Err(Fault::Shape(at)),
    }
}

/// A name has to stand here: the byte where it begins, the name, and what follows it.
pub fn name_at<'a>(place: Cursor<'a>) -> Result<(u32, &'a [u8], Cursor<'a>), Fault>
    ensures { Gives (λ x. (x.0, x.1.now, left x.2)) result (name_at (left place.entry)) }
{
    match place.next() {
        Next::End(close) => Err(Fault::Shape(close)),
        Next::Word(at, bytes, rest) => {
            if is_name(bytes) {
                Ok((at, bytes, rest))
            } else {
                Err(Fault::Shape(at))
            }
        }
        Next::Group(at, _, _) => Err(Fault::Shape(at)),
    }
}

/// A group has to stand here: the byte where it begins, what is in it, and what follows it.
pub fn group_at<'a>(place: Cursor<'a>) -> Result<(u32, Cursor<'a>, Cursor<'a>), Fault>
    ensures { Gives (λ x. (x.0, left x.1, left x.2)) result (group_at (left place.entry)) }
{
    match place.next() {
        Next::End(close) => Err(Fault::Shape(close)),
        Next::Word(at, _, _) => Err(Fault::Shape(at)),
        Next::Group(at, inside, rest) => Ok((at, inside, rest)),
    }
}
