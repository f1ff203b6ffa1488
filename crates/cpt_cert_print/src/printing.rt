//! Certificates as their texts.

ghost use Rattle.std.specs.Prelude.{◌≡◌, ◌-◌, ◌^◌, ◌<◌, ◌≤◌, ◌++◌, ◌∷◌, [], length, min, IsSome, OnOk, OnErr, IsErrOf};
ghost use Rattle.std.specs.List.{flat_map};
ghost use Rattle.std.specs.Fmt.{decimal};
ghost use Rattle.std.specs.Io.KnownBytes.{append_known};
ghost use Rattle.cpt_io.specs.Meaning.{AppendsFront, HasCause};
ghost use Rattle.cpt_cert_form.specs.Forms.{spelled};
ghost use Rattle.cpt_cert_form.specs.Text.{text_of, sections, cert_lines, cert_text};
ghost use Rattle.cpt_cert_print.specs.Items.{line_of, IsItem, IsThere, item_text, section_lines};
ghost use Rattle.cpt_cert_print.specs.Whole.{IsWhole, AsksTables, AsksTree, tables_in, lines_in, parts_of};

use crate::cert::Cert;
use crate::items::{Item, Row, Section, section_item, section_len};
use crate::rendering::{Line, push_claim, push_field, push_node, push_number};
use crate::values::push_row;
use cpt_cert_form::{CertLine, Claim, Version};
use cpt_io::{Failed, PrintError, Sink};
use cpt_sheet::Tree;
use cpt_tables::Tables;
use cpt_task::{Occ, Task};
use std::alloc::Global;

fn push_sizes(line: &mut Line, atoms: u64, actions: u64)
    requires { length line.old.bytes ≤ 100 }
    ensures text { line.new.bytes ≡ line.old.bytes ++ spelled (line_of (Item.Sizes atoms actions)) }
    ensures short { length line.new.bytes ≤ 43900 }
{
    line.push_str("task");
    push_field(line, atoms);
    push_field(line, actions);
}

fn push_occurrence(line: &mut Line, o: Occ)
    requires { length line.old.bytes ≤ 100 }
    ensures text { line.new.bytes ≡ line.old.bytes ++ spelled (line_of (Item.Occurrence o)) }
    ensures short { length line.new.bytes ≤ 43900 }
{
    push_number(line, o.start);
    push_field(line, u64::from(o.act));
}

fn push_head(line: &mut Line, word: &str, n: u64)
    requires room { length line.old.bytes ≤ 100 }
    requires word { length word.now ≤ 16 }
    ensures text { line.new.bytes ≡ line.old.bytes ++ (word.now ++ 32 ∷ decimal n) }
    ensures short { length line.new.bytes ≤ 43900 }
{
    line.push_str(word);
    push_field(line, n);
}

fn push_version(line: &mut Line, version: Version)
    requires { length line.old.bytes ≤ 100 }
    ensures text { line.new.bytes ≡ line.old.bytes ++ spelled (line_of (Item.First version)) }
    ensures short { length line.new.bytes ≤ 43900 }
{
    match version {
        Version::One => line.push_str("cpt 1"),
        Version::Two => line.push_str("cpt 2"),
    }
}

fn push_pair_row(line: &mut Line, version: Version, row: Row)
    requires there { IsThere row }
    requires empty { line.old.bytes ≡ [] }
    ensures text { line.new.bytes ≡ spelled (line_of (Item.PairRow version row.entry)) }
    ensures short { length line.new.bytes ≤ 43900 }
{
    line.push_str("h");
    push_row(line, version, row);
}

fn push_dist_row(line: &mut Line, version: Version, row: Row)
    requires there { IsThere row }
    requires empty { line.old.bytes ≡ [] }
    ensures text { line.new.bytes ≡ spelled (line_of (Item.DistRow version row.entry)) }
    ensures short { length line.new.bytes ≤ 43900 }
{
    line.push_str("d");
    push_row(line, version, row);
}

fn push_claimed(line: &mut Line, claim: Claim)
    requires { length line.old.bytes ≤ 100 }
    ensures text { line.new.bytes ≡ line.old.bytes ++ spelled (line_of (Item.Claimed claim)) }
    ensures short { length line.new.bytes ≤ 43900 }
{
    line.push_str("claim");
    push_claim(line, claim);
}

/// Appends what the item says to an empty line.
fn push_item(line: &mut Line, item: Item)
    requires item { IsItem item }
    requires empty { line.old.bytes ≡ [] }
    ensures text { line.new.bytes ≡ spelled (line_of item.entry) }
    ensures short { length line.new.bytes ≤ 43900 }
{
    match item {
        Item::First(version) => push_version(line, version),
        Item::Claimed(claim) => push_claimed(line, claim),
        Item::Sizes(atoms, actions) => push_sizes(line, atoms, actions),
        Item::Plan(count) => push_head(line, "plan", count),
        Item::Occurrence(o) => push_occurrence(line, o),
        Item::Pairs => line.push_str("pairs"),
        Item::PairRow(version, row) => push_pair_row(line, version, row),
        Item::Dists => line.push_str("dists"),
        Item::DistRow(version, row) => push_dist_row(line, version, row),
        Item::Tree(bound) => push_head(line, "tree", bound),
        Item::OpenTree(bound) => push_head(line, "open-tree", bound),
        Item::Node(node) => push_node(line, node),
        Item::End => line.push_str("end"),
    }
}

/// Makes the line the item's, with its line feed.
fn render(line: &mut Line, item: Item)
    requires { IsItem item }
    ensures text { line.new.bytes ≡ item_text item.entry }
    ensures some { 0 < length line.new.bytes }
{
    line.clear();
    push_item(line, item);
    line.push_str("\n");
}

fn put_line<K: Sink>(line: &Line, out: &mut K) -> Result<(), Failed>
    requires some { 0 < length line.now.bytes }
    requires faults { K.faults out.old < 2 ^ 64 - 1 }
    ensures ok { OnOk result (K.written out.new ≡ append_known (K.written out.old) line.now.bytes) }
    ensures err { OnErr result (AppendsFront (K.written out.old) (K.written out.new) line.now.bytes) }
    ensures cause { HasCause (K.faults out.old) (K.faults out.new) result }
{
    out.put(line.as_str().as_bytes())
}

/// Puts the lines of the section, each in one call.
fn put_section<K: Sink>(line: &mut Line, section: Section, out: &mut K) -> Result<(), Failed>
    requires { K.faults out.old < 2 ^ 64 - 1 }
    ensures ok { OnOk result (K.written out.new ≡ append_known (K.written out.old) (text_of (section_lines section.entry))) }
    ensures err { OnErr result (AppendsFront (K.written out.old) (K.written out.new) (text_of (section_lines section.entry))) }
    ensures cause { HasCause (K.faults out.old) (K.faults out.new) result }
{
    for k in 0..section_len(section) {
        render(line, section_item(section, k));
        match put_line(line, out) {
            Ok(()) => {}
            Err(failed) => return Err(failed),
        }
    }
    Ok(())
}

fn put_sections<K: Sink>(sections: &[Section], out: &mut K) -> Result<(), Failed>
    requires { K.faults out.old < 2 ^ 64 - 1 }
    ensures ok { OnOk result (K.written out.new ≡ append_known (K.written out.old) (text_of (flat_map section_lines sections.now))) }
    ensures err { OnErr result (AppendsFront (K.written out.old) (K.written out.new) (text_of (flat_map section_lines sections.now))) }
    ensures cause { HasCause (K.faults out.old) (K.faults out.new) result }
{
    let mut line = Line::new();
    for section in sections {
        match put_section(&mut line, *section, out) {
            Ok(()) => {}
            Err(failed) => return Err(failed),
        }
    }
    Ok(())
}

/// The length of the section's text, or 2^64 - 1 where it is longer.
fn section_size(line: &mut Line, section: Section) -> u64
    ensures { result ≡ min (length (text_of (section_lines section.entry))) (2 ^ 64 - 1) }
{
    let mut size = 0u64;
    for k in 0..section_len(section) {
        render(line, section_item(section, k));
        size = size.saturating_add(line.len() as u64);
    }
    size
}

fn sections_size(sections: &[Section]) -> u64
    ensures { result ≡ min (length (text_of (flat_map section_lines sections.now))) (2 ^ 64 - 1) }
{
    let mut line = Line::new();
    let mut size = 0u64;
    for section in sections {
        size = size.saturating_add(section_size(&mut line, *section));
    }
    size
}

fn given_tables<'a>(tables: Option<&'a Tables>) -> &'a Tables
    requires { IsSome tables }
    ensures { result.now ≡ tables_in tables.entry }
{
    match tables {
        Some(tables) => tables,
        None => unreachable!(),
    }
}

fn given_tree<'a>(tree: Option<&'a Tree>) -> &'a Tree
    requires { IsSome tree }
    ensures { result.now.lines ≡ lines_in tree.entry }
{
    match tree {
        Some(tree) => tree,
        None => unreachable!(),
    }
}

fn optimal_sections<'a>(
    cert: &Cert<'a>,
    version: Version,
    makespan: u64,
    head: Section<'a>,
) -> [Section<'a>; 7]
    requires tables { AsksTables (Claim.Optimal makespan) → IsSome cert.now.tables }
    requires tree { AsksTree (Claim.Optimal makespan) → IsSome cert.now.tree }
    ensures { flat_map section_lines result ≡ section_lines head.entry ++ (sections version (Claim.Optimal makespan) (parts_of cert.now) ++ CertLine.End ∷ []) }
{
    let plan = Section::Plan(cert.plan);
    let none = Section::Nothing;
    if makespan == 0 {
        return [head, plan, none, none, none, none, Section::End];
    }
    let tables = given_tables(cert.tables);
    [
        head,
        plan,
        Section::Pairs(version, &tables.pairs),
        Section::Dists(version, &tables.dists),
        Section::Tree(makespan - 1, given_tree(cert.tree)),
        none,
        Section::End,
    ]
}

fn refuted_sections<'a>(
    cert: &Cert<'a>,
    version: Version,
    bound: u64,
    head: Section<'a>,
) -> [Section<'a>; 7]
    requires tables { IsSome cert.now.tables }
    requires tree { IsSome cert.now.tree }
    ensures { flat_map section_lines result ≡ section_lines head.entry ++ (sections version (Claim.NoneUpTo bound) (parts_of cert.now) ++ CertLine.End ∷ []) }
{
    let tables = given_tables(cert.tables);
    let none = Section::Nothing;
    [
        head,
        Section::Pairs(version, &tables.pairs),
        Section::Dists(version, &tables.dists),
        Section::Tree(bound, given_tree(cert.tree)),
        none,
        none,
        Section::End,
    ]
}

fn never_sections<'a>(cert: &Cert<'a>, version: Version, head: Section<'a>) -> [Section<'a>; 7]
    requires tables { IsSome cert.now.tables }
    ensures { flat_map section_lines result ≡ section_lines head.entry ++ (sections version Claim.Never (parts_of cert.now) ++ CertLine.End ∷ []) }
{
    let tables = given_tables(cert.tables);
    let none = Section::Nothing;
    [
        head,
        Section::Pairs(version, &tables.pairs),
        none,
        none,
        none,
        none,
        Section::End,
    ]
}

fn spent_sections<'a>(
    cert: &Cert<'a>,
    version: Version,
    refuted: u64,
    nodes: u64,
    head: Section<'a>,
) -> [Section<'a>; 7]
    requires tables { IsSome cert.now.tables }
    requires tree { IsSome cert.now.tree }
    requires partial { IsSome cert.now.partial }
    requires refuted { refuted ≤ 999999 }
    ensures { flat_map section_lines result ≡ section_lines head.entry ++ (sections version (Claim.Spent refuted nodes) (parts_of cert.now) ++ CertLine.End ∷ []) }
{
    let _ = nodes;
    let tables = given_tables(cert.tables);
    [
        head,
        Section::Pairs(version, &tables.pairs),
        Section::Dists(version, &tables.dists),
        Section::Tree(refuted, given_tree(cert.tree)),
        Section::OpenTree(refuted + 1, given_tree(cert.partial)),
        Section::Nothing,
        Section::End,
    ]
}

/// The sections of a whole certificate.
#[tactic(auto, using(crate::proofs::WholeLemmas::tables_given, crate::proofs::WholeLemmas::tree_given))]
fn sections_of<'a>(task: &Task, cert: &Cert<'a>, version: Version) -> [Section<'a>; 7]
    requires { IsWhole task.now cert.now }
    ensures { flat_map section_lines result ≡ cert_lines version task.now (parts_of cert.now) }
{
    let atoms = task.atoms().len() as u64;
    let actions = task.actions().len() as u64;
    let head = Section::Head(version, cert.claim, atoms, actions);
    match cert.claim {
        Claim::Optimal(makespan) => optimal_sections(cert, version, makespan, head),
        Claim::NoneUpTo(bound) => refuted_sections(cert, version, bound, head),
        Claim::Never => never_sections(cert, version, head),
        Claim::Spent { refuted, nodes } => spent_sections(cert, version, refuted, nodes, head),
    }
}

/// The length of the text of a certificate in bytes, or 2^64 - 1 where it is longer. It takes no memory.
pub fn cert_len(task: &Task, cert: &Cert, version: Version) -> u64
    requires { IsWhole task.now cert.now }
    ensures { result ≡ min (length (cert_text version task.now (parts_of cert.now))) (2 ^ 64 - 1) }
{
    sections_size(&sections_of(task, cert, version))
}

/// Puts the text of a certificate, each line in one call. It takes no memory.
///
/// After `Failed` a front of the text was put, and the sink's count of faults rose.
pub fn print_cert<K: Sink>(
    alloc: Global,
    task: &Task,
    cert: &Cert,
    version: Version,
    out: &mut K,
) -> Result<(), PrintError>
    requires whole { IsWhole task.now cert.now }
    requires faults { K.faults out.old < 2 ^ 64 - 1 }
    ensures ok { OnOk result (K.written out.new ≡ append_known (K.written out.old) (cert_text version task.now (parts_of cert.now))) }
    ensures memory { IsErrOf result PrintError.Memory → ⊥ }
    ensures failed { IsErrOf result PrintError.Failed → AppendsFront (K.written out.old) (K.written out.new) (cert_text version task.now (parts_of cert.now)) }
    // `Failed` has its cause in the sink, and nothing else adds to its faults.
    ensures cause { IsErrOf result PrintError.Failed → K.faults out.old < K.faults out.new }
    ensures kept { (IsErrOf result PrintError.Failed → ⊥) → K.faults out.new ≡ K.faults out.old }
{
    let _ = alloc;
    match put_sections(&sections_of(task, cert, version), out) {
        Ok(()) => Ok(()),
        Err(_) => Err(PrintError::Failed),
    }
}
