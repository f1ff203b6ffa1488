//! The laws: their contracts are what they say, and their bodies are empty.

ghost use Rattle.cpt_cert_laws.specs.Fronts.{FaultsStand};
ghost use Rattle.cpt_cert_laws.specs.Lines.{WholeLinesInForm};
ghost use Rattle.cpt_cert_laws.specs.Trees.{StepsAreShort, TreesAreNodes, TreesAreShort};

/// The lines of a tree over a sheet are those of one node.
pub fn trees_are_nodes()
    ensures { TreesAreNodes }
{}

/// Each number of a step that is legal at a formed sheet has at most 16 digits, where the sheet has fewer than 2^32 - 1
/// tokens.
pub fn steps_are_short()
    ensures { StepsAreShort }
{}

/// A tree over the root of a bound is a node whose numbers have at most 16 digits, where fewer than 2^32 - 2 nodes are
/// closed or branched.
pub fn trees_are_short()
    ensures { TreesAreShort }
{}

/// A fault that stands at one of some lines, read as a text of their own, is the first one whatever lines come behind
/// them.
pub fn faults_stand()
    ensures { FaultsStand }
{}

/// Each line of a whole certificate has a form and at most 65,536 bytes, where the task has at most 2,048 atoms.
pub fn whole_lines_in_form()
    ensures { WholeLinesInForm }
{}
