//! Lines with what they are read as, and texts in pieces.

use cpt_cert::{CertLine, Lines, Run, read_line};
use cpt_task::{Memory, Span};
use std::alloc::{AllocError, Global};
use std::process::Abort;
use std::test::Fail;

/// Whether the line is shown so; "None" for no line.
fn is_shown(alloc: Global, line: &Option<CertLine>, shown: &str) -> Result<bool, AllocError> {
    let text = format!(in alloc; "{line:?}")?;
    Ok(text.as_str() == shown)
}

/// A piece, how many of its bytes are taken, which line ends in it, and whether bytes stand behind the last line end.
type Piece = (&'static [u8], usize, &'static str, bool);

const PIECES: &[Piece] = &[
    (b"cl", 2, "None", true),
    (b"ose\nen", 4, "Some(Node(Close))", false),
    (b"en", 2, "None", true),
    (b"d\n\n", 2, "Some(End)", false),
    (b"\n", 1, "Some(Strange)", false),
];

/// Whether the piece is taken so.
fn takes(alloc: Global, lines: &mut Lines, piece: &Piece) -> Result<bool, Memory> {
    let (taken, line) = lines.feed(piece.0)?;
    let is_so = taken == piece.1 && lines.unfinished() == piece.3;
    Ok(is_so && is_shown(alloc, &line, piece.2)?)
}

fn expect_pieces(rt: &impl Abort, alloc: Global, pieces: &[Piece]) -> Result<(), Fail> {
    let mut lines = Lines::new(alloc)?;
    assert!(rt; !lines.unfinished());
    for (number, piece) in pieces.iter().enumerate() {
        let is_so = takes(alloc, &mut lines, piece)?;
        assert!(rt; is_so, "piece {number}");
    }
    Ok(())
}

#[test]
fn a_text_comes_in_pieces(rt: HostRuntime) -> Result<(), Fail> {
    expect_pieces(&rt, rt.alloc(), PIECES)
}

/// A line, and what it is read as.
type Read = (&'static str, &'static str);

/// Lines of each form.
const READ: &[Read] = &[
    ("cpt 1", "First(One)"),
    ("cpt 2", "First(Two)"),
    ("claim optimal 0", "Claimed(Optimal(0))"),
    ("claim optimal 1000000", "Claimed(Optimal(1000000))"),
    ("claim none-up-to 12", "Claimed(NoneUpTo(12))"),
    ("claim none", "Claimed(Never)"),
    (
        "claim spent 999999 4294967295",
        "Claimed(Spent { refuted: 999999, nodes: 4294967295 })",
    ),
    (
        "task 0 9999999999999999",
        "Sizes { atoms: 0, actions: 9999999999999999 }",
    ),
    ("plan 4294967295", "Plan(4294967295)"),
    ("1 1", "Item { start: 1, act: 1 }"),
    (
        "9999999999999999 4294967296",
        "Item { start: 9999999999999999, act: 4294967296 }",
    ),
    ("pairs", "Pairs"),
    ("dists", "Dists"),
    ("tree 9999999999999999", "Tree(9999999999999999)"),
    ("open-tree 13", "OpenTree(13)"),
    ("end", "End"),
    ("close", "Node(Close)"),
    ("open", "Node(OpenNode)"),
    (
        "child join 2 3 0",
        "Node(Child(Join { tok: 2, pre: 3, by: 0 }))",
    ),
    (
        "child bring 1 3 9",
        "Node(Child(Bring { tok: 1, pre: 3, act: 9 }))",
    ),
    (
        "child before 2 3",
        "Node(Child(Before { first: 2, second: 3 }))",
    ),
    (
        "branch threat 1 2 3",
        "Node(Branch(Threat { tok: 1, pre: 2, foe: 3 }))",
    ),
    (
        "branch open 1 2",
        "Node(Branch(OpenNeed { tok: 1, pre: 2 }))",
    ),
    (
        "branch clash 2 3",
        "Node(Branch(Clash { first: 2, second: 3 }))",
    ),
    (
        "1 0 1 never",
        "Node(Narrow(R1 { first: 0, second: 1, to: Never }))",
    ),
    (
        "2 0 1 9999999999999999",
        "Node(Narrow(R2 { first: 0, second: 1, to: At(9999999999999999) }))",
    ),
    ("3 2 3", "Node(Narrow(R3 { first: 2, second: 3 }))"),
    ("4 1 0 7", "Node(Narrow(R4 { tok: 1, pre: 0, to: At(7) }))"),
    (
        "5 1 0 t4294967295",
        "Node(Narrow(R5 { tok: 1, pre: 0, cand: Tok(4294967295) }))",
    ),
    (
        "5 1 0 o4294967296",
        "Node(Narrow(R5 { tok: 1, pre: 0, cand: Out(4294967295) }))",
    ),
    (
        "6 1 9999999999999999",
        "Node(Narrow(R6 { tok: 1, pre: 4294967295 }))",
    ),
    ("7 1 1 o1", "Node(Narrow(R7 { tok: 1, pre: 1, act: 1 }))"),
    (
        "8 1 2 t3 4",
        "Node(Narrow(R8 { tok: 1, pre: 2, cand: Tok(3), foe: 4 }))",
    ),
    (
        "9 1 2 3 after",
        "Node(Narrow(R9After { tok: 1, pre: 2, foe: 3 }))",
    ),
    (
        "9 1 2 3 ahead",
        "Node(Narrow(R9Ahead { tok: 1, pre: 2, foe: 3 }))",
    ),
    (
        "10 4 2 30",
        "Node(Narrow(R10 { act: 4, pre: 2, to: At(30) }))",
    ),
    (
        "11 1 2 5 after 30",
        "Node(Narrow(R11After { tok: 1, pre: 2, act: 5, to: At(30) }))",
    ),
    (
        "11 1 2 5 ahead never",
        "Node(Narrow(R11Ahead { tok: 1, pre: 2, act: 5, to: Never }))",
    ),
    (
        "12 1 5 after 30",
        "Node(Narrow(R12After { tok: 1, act: 5, to: At(30) }))",
    ),
    (
        "12 1 5 ahead 30",
        "Node(Narrow(R12Ahead { tok: 1, act: 5, to: At(30) }))",
    ),
    (
        "13 1 2 o3 4",
        "Node(Narrow(R13 { tok: 1, pre: 2, cand: Out(3), other: 4 }))",
    ),
    ("d", "DistRow(List { items: [] })"),
];

/// Whether the line is read so.
fn is_read_so(alloc: Global, read: &Read) -> Result<bool, Memory> {
    let line = read_line(alloc, read.0.as_bytes())?;
    let shown = format!(in alloc; "{line:?}")?;
    Ok(shown.as_str() == read.1)
}

fn expect_read(rt: &impl Abort, alloc: Global, lines: &[Read]) -> Result<(), Fail> {
    for read in lines {
        let is_so = is_read_so(alloc, read)?;
        assert!(rt; is_so, "{}", read.0);
    }
    Ok(())
}

#[test]
fn lines_are_read(rt: HostRuntime) -> Result<(), Fail> {
    expect_read(&rt, rt.alloc(), READ)
}

/// Lines of no form.
const STRANGE: &[&str] = &[
    "",
    " ",
    "close ",
    " close",
    "Close",
    "cpt",
    "cpt 0",
    "cpt 3",
    "cpt 1 ",
    "cpt  1",
    "claim",
    "claim optimal",
    "claim optimal 1000001",
    "claim none-up-to 1000001",
    "claim none 0",
    "claim spent 3",
    "claim spent 3 0",
    "claim spent 1000000 1",
    "claim spent 3 4294967296",
    "task 1",
    "task 01 1",
    "task 1 10000000000000000",
    "plan 4294967296",
    "plan -0",
    "0",
    "0*2",
    "14 1 2 3",
    "0 1 2",
    "3 1 2 3",
    "7 1 1 t1",
    "7 1 1 o01",
    "7 1 1 1",
    "9 1 1 1",
    "9 1 1 1 before",
    "5 1 1 t",
    "4 1 1 +1",
    "open 1 2",
    "branch open 1",
    "child",
    "child after 1 2",
    "tree never",
    "h 1*1",
    "h 1*2049",
    "h ",
];

fn is_strange(alloc: Global, text: &str) -> Result<bool, Memory> {
    let line = read_line(alloc, text.as_bytes())?;
    Ok(matches!(&line, CertLine::Strange))
}

fn expect_strange(rt: &impl Abort, alloc: Global, texts: &[&str]) -> Result<(), Fail> {
    for text in texts {
        let is_so = is_strange(alloc, text)?;
        assert!(rt; is_so, "{text}");
    }
    Ok(())
}

#[test]
fn lines_of_no_form_are_strange(rt: HostRuntime) -> Result<(), Fail> {
    expect_strange(&rt, rt.alloc(), STRANGE)
}

const PAIR_ROW: &[Run] = &[
    Run {
        value: Span::At(1),
        count: 1,
    },
    Run {
        value: Span::At(4),
        count: 1,
    },
    Run {
        value: Span::At(4),
        count: 1,
    },
    Run {
        value: Span::Never,
        count: 1,
    },
];

const DIST_ROW: &[Run] = &[
    Run {
        value: Span::At(0),
        count: 2,
    },
    Run {
        value: Span::Never,
        count: 2048,
    },
    Run {
        value: Span::At(999_999_999_999_999),
        count: 1,
    },
];

/// Rows of no form.
const STRANGE_ROWS: &[&str] = &[
    "h 1*2 4 4",
    "h 4 4 1*2",
    "h 1000000000000000",
    "h 1*02",
    "h 1*",
    "h *2",
    "h 1*2*2",
    "h 01",
];

fn is_pair_row(alloc: Global, text: &str, runs: &[Run]) -> Result<bool, Memory> {
    let line = read_line(alloc, text.as_bytes())?;
    match &line {
        CertLine::PairRow(row) => Ok(row.as_slice() == runs),
        _ => Ok(false),
    }
}

fn is_dist_row(alloc: Global, text: &str, runs: &[Run]) -> Result<bool, Memory> {
    let line = read_line(alloc, text.as_bytes())?;
    match &line {
        CertLine::DistRow(row) => Ok(row.as_slice() == runs),
        _ => Ok(false),
    }
}

fn are_rows_read(alloc: Global) -> Result<bool, Memory> {
    let is_read = is_pair_row(alloc, "h 1 4 4 never", PAIR_ROW)?;
    Ok(is_read && is_dist_row(alloc, "d 0*2 never*2048 999999999999999", DIST_ROW)?)
}

#[test]
fn rows_are_read(rt: HostRuntime) -> Result<(), Fail> {
    let is_so = are_rows_read(rt.alloc())?;
    assert!(rt; is_so);
    Ok(())
}

#[test]
fn rows_of_no_form_are_strange(rt: HostRuntime) -> Result<(), Fail> {
    expect_strange(&rt, rt.alloc(), STRANGE_ROWS)
}

/// A row of 32,767 numbers, of 65,536 bytes.
fn longest_row(alloc: Global) -> Result<Vec<u8>, AllocError> {
    let mut text = Vec::new(alloc);
    text.push(b'h')?;
    for _ in 0..32_767 {
        text.extend_from_slice(b" 1")?;
    }
    text.push(b'1')?;
    Ok(text)
}

/// Whether the longest line that has a form is read.
fn reads_row(lines: &mut Lines, row: &[u8]) -> Result<bool, Memory> {
    lines.feed(row)?;
    let (taken, line) = lines.feed(b"\n")?;
    Ok(taken == 1 && matches!(&line, Some(CertLine::PairRow(_))))
}

/// Whether the row is strange with this end behind it, of which so many bytes are taken.
fn is_too_long(lines: &mut Lines, row: &[u8], end: &[u8], due: usize) -> Result<bool, Memory> {
    lines.feed(row)?;
    let (taken, line) = lines.feed(end)?;
    Ok(taken == due && matches!(&line, Some(CertLine::Strange)))
}

/// Whether the row is strange that is twice as long.
fn is_far_too_long(lines: &mut Lines, row: &[u8]) -> Result<bool, Memory> {
    lines.feed(row)?;
    is_too_long(lines, row, b"\n1 2\n", 1)
}

/// Whether the next line is an item of a plan.
fn reads_item(lines: &mut Lines) -> Result<bool, Memory> {
    let (taken, line) = lines.feed(b"1 2\n")?;
    Ok(taken == 4 && matches!(&line, Some(CertLine::Item { start: 1, act: 2 })))
}

/// Whether the longest row is read, longer ones are strange, and so is no line behind them.
fn is_cut_there(lines: &mut Lines, row: &[u8]) -> Result<bool, Memory> {
    let is_read = reads_row(lines, row)?;
    let is_strange = is_too_long(lines, row, b"1\n1 2\n", 2)?;
    let is_far = is_far_too_long(lines, row)?;
    Ok(is_read && is_strange && is_far && reads_item(lines)?)
}

fn are_long_lines_strange(alloc: Global) -> Result<bool, Memory> {
    let row = longest_row(alloc)?;
    let mut lines = Lines::new(alloc)?;
    is_cut_there(&mut lines, row.as_slice())
}

#[test]
fn long_lines_are_strange(rt: HostRuntime) -> Result<(), Fail> {
    let is_so = are_long_lines_strange(rt.alloc())?;
    assert!(rt; is_so);
    Ok(())
}
