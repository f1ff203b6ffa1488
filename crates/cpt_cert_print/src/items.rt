//! The lines of a certificate one by one, without a copy of what they say.

ghost use Rattle.std.specs.Prelude.{◌≡◌, ◌+◌, ◌<◌, ◌≤◌, length, slice_get, Some};
ghost use Rattle.cpt_tables.specs.Shapes.{pair_at};
ghost use Rattle.cpt_cert_form.specs.Text.{pair_row, dist_row, plan_lines, pair_lines, dist_lines, tree_lines, open_lines};
ghost use Rattle.cpt_cert_print.specs.Items.{row_values, IsThere, line_of, IsItem, section_lines};

use cpt_cert_form::{Claim, Version};
use cpt_sheet::{NodeLine, Tree};
use cpt_tables::{DistTable, PairTable};
use cpt_task::{Occ, Span};

/// A row of a table.
#[derive(Clone, Copy)]
pub(crate) enum Row<'a> {
    /// The values of the atom and each atom from it on.
    OfAtom(&'a PairTable, u32),
    /// The values of the action and each atom.
    OfAction(&'a DistTable, u32),
}

/// What a line says.
#[derive(Clone, Copy)]
pub(crate) enum Item<'a> {
    First(Version),
    Claimed(Claim),
    Sizes(u64, u64),
    Plan(u64),
    Occurrence(Occ),
    Pairs,
    PairRow(Version, Row<'a>),
    Dists,
    DistRow(Version, Row<'a>),
    Tree(u64),
    OpenTree(u64),
    Node(NodeLine),
    End,
}

/// Lines that stand together.
#[derive(Clone, Copy)]
pub(crate) enum Section<'a> {
    /// No line.
    Nothing,
    /// The version, the claim, and how many atoms and actions there are.
    Head(Version, Claim, u64, u64),
    Plan(&'a [Occ]),
    Pairs(Version, &'a PairTable),
    Dists(Version, &'a DistTable),
    Tree(u64, &'a Tree),
    OpenTree(u64, &'a Tree),
    End,
}

#[tactic(auto, using(crate::proofs::RowLemmas::pair_row_length))]
fn pair_row_len(pairs: &PairTable, p: u32) -> u32
    ensures len { result ≡ length (pair_row pairs.now p) }
    ensures few { result ≤ 2048 }
{
    pairs.atoms().saturating_sub(p)
}

#[tactic(auto, using(crate::proofs::RowLemmas::dist_row_length))]
fn dist_row_len(dists: &DistTable, act: u32) -> u32
    ensures len { result ≡ length (dist_row dists.now act) }
    ensures few { result ≤ 2048 }
{
    let _ = act;
    dists.atoms()
}

/// How many values the row has.
pub(crate) fn row_len(row: Row) -> u32
    ensures len { result ≡ length (row_values row.entry) }
    ensures few { result ≤ 2048 }
{
    match row {
        Row::OfAtom(pairs, p) => pair_row_len(pairs, p),
        Row::OfAction(dists, a) => dist_row_len(dists, a),
    }
}

/// The value of an atom and the atom that is so far from it.
fn value_from(pairs: &PairTable, p: u32, i: u32) -> Span
    requires { p + i < pairs.now.atoms }
    ensures { result ≡ pair_at pairs.now p (p + i) }
{
    let _few = pairs.atoms();
    pairs.get(p, p + i)
}

#[tactic(auto, using(crate::proofs::RowLemmas::pair_within, crate::proofs::RowLemmas::pair_gives))]
fn pair_row_value(pairs: &PairTable, p: u32, i: u32) -> Span
    requires { i < length (pair_row pairs.now p) }
    ensures { slice_get (pair_row pairs.now p) i ≡ Some result }
{
    value_from(pairs, p, i)
}

#[tactic(auto, using(crate::proofs::RowLemmas::dist_within, crate::proofs::RowLemmas::dist_gives))]
fn dist_row_value(dists: &DistTable, act: u32, i: u32) -> Span
    requires there { act < dists.now.actions }
    requires within { i < length (dist_row dists.now act) }
    ensures { slice_get (dist_row dists.now act) i ≡ Some result }
{
    dists.get(act, i)
}

/// A value of the row.
pub(crate) fn row_value(row: Row, i: u32) -> Span
    requires there { IsThere row }
    requires within { i < length (row_values row) }
    ensures { slice_get (row_values row.entry) i ≡ Some result }
{
    match row {
        Row::OfAtom(pairs, p) => pair_row_value(pairs, p, i),
        Row::OfAction(dists, a) => dist_row_value(dists, a, i),
    }
}

#[tactic(auto, using(crate::proofs::RowLemmas::pair_lines_length))]
fn pairs_len(version: Version, pairs: &PairTable) -> usize
    ensures { result ≡ length (pair_lines version pairs.now) }
{
    let _ = version;
    pairs.atoms() as usize + 1
}

#[tactic(auto, using(crate::proofs::RowLemmas::dist_lines_length))]
fn dists_len(version: Version, dists: &DistTable) -> usize
    ensures { result ≡ length (dist_lines version dists.now) }
{
    let _ = version;
    dists.actions() as usize + 1
}

/// How many lines the section has.
pub(crate) fn section_len(section: Section) -> usize
    ensures { result ≡ length (section_lines section.entry) }
{
    match section {
        Section::Nothing => 0,
        Section::Head(..) => 3,
        Section::Plan(plan) => plan.len() + 1,
        Section::Pairs(v, pairs) => pairs_len(v, pairs),
        Section::Dists(v, dists) => dists_len(v, dists),
        Section::Tree(_, tree) => tree.lines.as_slice().len() + 1,
        Section::OpenTree(_, tree) => tree.lines.as_slice().len() + 1,
        Section::End => 1,
    }
}

fn head_item<'a>(version: Version, claim: Claim, atoms: u64, actions: u64, k: usize) -> Item<'a>
    requires { k < 3 }
    ensures line { slice_get (section_lines (Section.Head version claim atoms actions)) k ≡ Some (line_of result) }
    ensures item { IsItem result }
{
    match k {
        0 => Item::First(version),
        1 => Item::Claimed(claim),
        _ => Item::Sizes(atoms, actions),
    }
}

#[tactic(auto, using(crate::proofs::RowLemmas::plan_gives))]
fn plan_item<'a>(plan: &[Occ], k: usize) -> Item<'a>
    requires { k < length (plan_lines plan.now) }
    ensures line { slice_get (plan_lines plan.now) k ≡ Some (line_of result) }
    ensures item { IsItem result }
{
    if k == 0 {
        return Item::Plan(plan.len() as u64);
    }
    Item::Occurrence(plan[k - 1])
}

#[tactic(auto, using(crate::proofs::RowLemmas::pairs_within, crate::proofs::RowLemmas::pairs_give))]
fn pairs_item<'a>(version: Version, pairs: &'a PairTable, k: usize) -> Item<'a>
    requires { k < length (pair_lines version pairs.now) }
    ensures line { slice_get (pair_lines version pairs.now) k ≡ Some (line_of result) }
    ensures item { IsItem result }
{
    let _few = pairs.atoms();
    if k == 0 {
        return Item::Pairs;
    }
    Item::PairRow(version, Row::OfAtom(pairs, (k - 1) as u32))
}

#[tactic(auto, using(crate::proofs::RowLemmas::dists_within, crate::proofs::RowLemmas::dists_give))]
fn dists_item<'a>(version: Version, dists: &'a DistTable, k: usize) -> Item<'a>
    requires { k < length (dist_lines version dists.now) }
    ensures line { slice_get (dist_lines version dists.now) k ≡ Some (line_of result) }
    ensures item { IsItem result }
{
    let _few = dists.actions();
    if k == 0 {
        return Item::Dists;
    }
    Item::DistRow(version, Row::OfAction(dists, (k - 1) as u32))
}

#[tactic(auto, using(crate::proofs::RowLemmas::tree_gives))]
fn tree_item<'a>(bound: u64, tree: &[NodeLine], k: usize) -> Item<'a>
    requires { k < length (tree_lines bound tree.now) }
    ensures line { slice_get (tree_lines bound tree.now) k ≡ Some (line_of result) }
    ensures item { IsItem result }
{
    if k == 0 {
        return Item::Tree(bound);
    }
    Item::Node(tree[k - 1])
}

#[tactic(auto, using(crate::proofs::RowLemmas::open_gives))]
fn open_item<'a>(bound: u64, tree: &[NodeLine], k: usize) -> Item<'a>
    requires { k < length (open_lines bound tree.now) }
    ensures line { slice_get (open_lines bound tree.now) k ≡ Some (line_of result) }
    ensures item { IsItem result }
{
    if k == 0 {
        return Item::OpenTree(bound);
    }
    Item::Node(tree[k - 1])
}

/// A line of the section.
pub(crate) fn section_item<'a>(section: Section<'a>, k: usize) -> Item<'a>
    requires { k < length (section_lines section) }
    ensures line { slice_get (section_lines section.entry) k ≡ Some (line_of result) }
    ensures item { IsItem result }
{
    match section {
        Section::Nothing => unreachable!(),
        Section::Head(v, c, atoms, actions) => head_item(v, c, atoms, actions, k),
        Section::Plan(plan) => plan_item(plan, k),
        Section::Pairs(v, pairs) => pairs_item(v, pairs, k),
        Section::Dists(v, dists) => dists_item(v, dists, k),
        Section::Tree(b, tree) => tree_item(b, tree.lines.as_slice(), k),
        Section::OpenTree(b, tree) => open_item(b, tree.lines.as_slice(), k),
        Section::End => Item::End,
    }
}
