//! Texts with one change.

use std::alloc::{AllocError, Global};

/// A change of lines: of the line at a number, from 1 on.
#[derive(Clone, Copy)]
pub enum Change {
    None,
    Line(usize, &'static str),
    Before(usize, &'static str),
    Without(usize),
}

/// Puts the line and its line feed.
fn put_line(text: &mut Vec<u8>, line: &str) -> Result<(), AllocError> {
    text.extend_from_slice(line.as_bytes())?;
    text.extend_from_slice(b"\n")
}

/// Puts what the change makes of the line at the number.
fn put_changed(
    text: &mut Vec<u8>,
    number: usize,
    line: &str,
    change: Change,
) -> Result<(), AllocError> {
    match change {
        Change::Line(at, new) if at == number => put_line(text, new),
        Change::Before(at, new) if at == number => {
            put_line(text, new)?;
            put_line(text, line)
        }
        Change::Without(at) if at == number => Ok(()),
        _ => put_line(text, line),
    }
}

/// The text of the lines with the change.
pub fn text_of(alloc: Global, lines: &[&str], change: Change) -> Result<Vec<u8>, AllocError> {
    let mut text = Vec::new(alloc);
    let mut number: usize = 1;
    for line in lines {
        put_changed(&mut text, number, line, change)?;
        number = number.saturating_add(1);
    }
    Ok(text)
}
