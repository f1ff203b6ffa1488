//! A certificate in both versions, its length, and puts that fail.

ghost use Rattle.std.specs.Prelude.{◌≡◌, [], ◌∷◌, IfSome, IfOk};
ghost use Rattle.cpt_tables.specs.Spans.{IsBelow};
ghost use Rattle.cpt_tables.specs.Shapes.{FitsPairs, FitsDists};
ghost use Rattle.cpt_sheet.specs.Gaps.{FitsTask};
ghost use Rattle.cpt_cert_print.specs.Whole.{IsWhole};

use cpt_cert::{Cert, Claim, Version, cert_len, print_cert};
use cpt_io::{MemSink, Sink};
use cpt_sheet::{NodeLine, Tree};
use cpt_tables::{DistTable, PairTable, Tables};
use cpt_task::{List, Span, Task};
use cpt_task_text::read_task;
use std::alloc::Global;
use std::process::Abort;
use std::test::Fail;

/// A key that one action makes and two others use up.
const KEY_TASK: &str = "task 3 3
atom (k)
atom (g1)
atom (g2)
action (u) 1
pre
add 0
del
action (v1) 2
pre 0
add 1
del 0
action (v2) 2
pre 0
add 2
del 0
init
goal 1 2
";

/// The task that the text spells.
fn task_of(alloc: Global, text: &str) -> Option<Task> {
    let bytes = text.as_bytes();
    if bytes.len() > 4096 {
        return None;
    }
    read_task(alloc, bytes).ok()
}

fn put_pair(task: &Task, pairs: &mut PairTable, p: u32, q: u32, n: u64)
    requires fits { FitsPairs task.now pairs.old }
    requires small { IsBelow 1000000000000000 (Span.At n) }
    ensures { FitsPairs task.now pairs.new }
{
    if p < pairs.atoms() && q < pairs.atoms() {
        pairs.set(p, q, Span::At(n));
    }
}

fn put_dist(task: &Task, dists: &mut DistTable, act: u32, atom: u32, n: u64)
    requires fits { FitsDists task.now dists.old }
    requires small { IsBelow 1000000000000000 (Span.At n) }
    ensures { FitsDists task.now dists.new }
{
    if act < dists.actions() && atom < dists.atoms() {
        dists.set(act, atom, Span::At(n));
    }
}

fn key_pairs(alloc: Global, task: &Task) -> Option<PairTable>
    ensures { IfSome result (FitsPairs task.now) }
{
    let count = task.atoms().len();
    if count > 2048 {
        return None;
    }
    let mut pairs = PairTable::filled(alloc, count as u32, Span::At(3)).ok()?;
    put_pair(task, &mut pairs, 0, 0, 1);
    put_pair(task, &mut pairs, 0, 1, 4);
    put_pair(task, &mut pairs, 0, 2, 4);
    put_pair(task, &mut pairs, 1, 2, 6);
    Some(pairs)
}

fn key_dists(alloc: Global, task: &Task) -> Option<DistTable>
    ensures { IfSome result (FitsDists task.now) }
{
    let rows = task.actions().len();
    let count = task.atoms().len();
    if rows > 4096 || count > 2048 {
        return None;
    }
    let mut dists = DistTable::filled(alloc, rows as u32, count as u32, Span::At(0)).ok()?;
    put_dist(task, &mut dists, 1, 0, 1);
    put_dist(task, &mut dists, 2, 0, 1);
    Some(dists)
}

fn key_tables(alloc: Global, task: &Task) -> Option<Tables>
    ensures { IfSome result (FitsTask task.now) }
{
    let pairs = key_pairs(alloc, task)?;
    let dists = key_dists(alloc, task)?;
    Some(Tables { pairs, dists })
}

fn closed_tree(alloc: Global) -> Option<Tree>
    ensures { IfSome result (λ tree. tree.lines ≡ NodeLine.Close ∷ []) }
{
    let mut lines = Vec::new(alloc);
    lines.push(NodeLine::Close).ok()?;
    Some(Tree {
        lines: List::from_vec(lines),
    })
}

fn refutation<'a>(task: &Task, tables: &'a Tables, tree: &'a Tree) -> Cert<'a>
    requires fits { FitsTask task.now tables.now }
    requires closed { tree.now.lines ≡ NodeLine.Close ∷ [] }
    ensures { IsWhole task.now result }
{
    Cert {
        claim: Claim::NoneUpTo(5),
        plan: &[],
        tables: Some(tables),
        tree: Some(tree),
        partial: None,
    }
}

/// A version, the puts that fail, whether the whole text is put, and what is written.
#[derive(Drop)]
struct Put<'a> {
    version: Version,
    fail: &'a [u64],
    is_whole: bool,
    text: &'a str,
}

/// Whether the whole certificate is put.
fn puts(alloc: Global, task: &Task, cert: &Cert, version: Version, out: &mut MemSink) -> bool
    requires whole { IsWhole task.now cert.now }
    requires faults { ⟦<MemSink as Sink>⟧.faults out.old ≡ 0 }
{
    print_cert(alloc, task, cert, version, out).is_ok()
}

/// Whether the certificate has this length.
fn has_length(task: &Task, cert: &Cert, version: Version, length: usize) -> bool
    requires whole { IsWhole task.now cert.now }
{
    cert_len(task, cert, version) == length as u64
}

fn sink(alloc: Global, fail: &[u64]) -> Option<MemSink>
    ensures { IfSome result (λ out. ⟦<MemSink as Sink>⟧.faults out ≡ 0) }
{
    MemSink::new(alloc, 4096, Vec::from_slice(alloc, fail).ok()?).ok()
}

/// Whether the certificate is put so, and has the length of the text where that is the whole.
fn is_put(alloc: Global, task: &Task, cert: &Cert, put: &Put) -> Option<bool>
    requires whole { IsWhole task.now cert.now }
{
    let mut out = sink(alloc, put.fail)?;
    let is_whole = puts(alloc, task, cert, put.version, &mut out);
    let is_so = is_whole == put.is_whole && out.written() == put.text.as_bytes();
    Some(is_so && (!is_whole || has_length(task, cert, put.version, put.text.len())))
}

/// Whether the refutation by these tables is put so.
fn is_refutation_put(alloc: Global, task: &Task, tables: &Tables, put: &Put) -> Option<bool>
    requires fits { FitsTask task.now tables.now }
{
    let tree = closed_tree(alloc)?;
    is_put(alloc, task, &refutation(task, tables, &tree), put)
}

/// Whether the refutation is put so.
fn is_printed(alloc: Global, put: &Put) -> Option<bool> {
    let task = task_of(alloc, KEY_TASK)?;
    let tables = key_tables(alloc, &task)?;
    is_refutation_put(alloc, &task, &tables, put)
}

/// Whether the whole text is put, with these puts failing.
fn expect_whole(
    rt: &impl Abort,
    alloc: Global,
    version: Version,
    fail: &[u64],
    text: &str,
) -> Result<(), Fail> {
    let put = Put {
        version,
        fail,
        is_whole: true,
        text,
    };
    assert!(rt; is_printed(alloc, &put) == Some(true));
    Ok(())
}

/// Where the put of this number fails, this text is written in the first version, and no more.
fn expect_front(rt: &impl Abort, alloc: Global, number: usize, text: &str) -> Result<(), Fail> {
    let put = Put {
        version: Version::One,
        fail: &[number as u64],
        is_whole: false,
        text,
    };
    assert!(rt; is_printed(alloc, &put) == Some(true), "put {number}");
    Ok(())
}

const ONE: &[&str] = &[
    "cpt 1\n",
    "claim none-up-to 5\n",
    "task 3 3\n",
    "pairs\n",
    "h 1 4 4\n",
    "h 3 6\n",
    "h 3\n",
    "dists\n",
    "d 0 0 0\n",
    "d 1 0 0\n",
    "d 1 0 0\n",
    "tree 5\n",
    "close\n",
    "end\n",
];

const TWO: &str =
    "cpt 2\nclaim none-up-to 5\ntask 3 3\npairs\nh 1 4*2\nh 3 6\nh 3\ndists\nd 0*3\nd 1 0*2\nd 1 0*2\ntree 5\nclose\nend\n";

#[test]
fn a_certificate_has_a_text_in_each_version(rt: HostRuntime) -> Result<(), Fail> {
    expect_whole(&rt, rt.alloc(), Version::Two, &[], TWO)
}

/// The put of each line fails in turn, and none behind them is made.
fn expect_lines(rt: &impl Abort, alloc: Global, lines: &[&str]) -> Result<(), Fail> {
    let mut before = String::new(alloc);
    for (number, line) in lines.iter().enumerate() {
        expect_front(rt, alloc, number, before.as_str())?;
        before.push_str(line)?;
    }
    expect_whole(rt, alloc, Version::One, &[14], before.as_str())
}

#[test]
fn a_line_is_put_in_one_call(rt: HostRuntime) -> Result<(), Fail> {
    expect_lines(&rt, rt.alloc(), ONE)
}
