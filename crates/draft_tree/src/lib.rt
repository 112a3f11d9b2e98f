// Whether the nodes of a draft stand in a tree, told without a walk from the root: every container's entries are right, every node but the root is
// an entry, and parents lead to the root. A draft keeps 20 and 21 exactly if it stands, with its definitions in order. All is read in the order of
// the tables, but for the nodes of entries and of parents.
// The work words are lent by C's caller: no heap is used.
#![tactic(auto)]

pub mod listed; // listed.rt: nodes that are entries, by marks in work words
pub mod rooted; // rooted.rt: whether parents lead from every container to the root

ghost use Rattle.std.specs.Prelude.{◌≡◌};
ghost use Rattle.laws.specs.Refusal.{passes, ◌▸◌};
ghost use Rattle.draft.specs.Source.{drafted, draft_of};
ghost use Rattle.draft.specs.Draft.{reach_rule, shape_rule};
ghost use Rattle.draft_tree.specs.Testing.{Testable};

use draft::source::{Draft, Source};
use draft::{shape, source};

// Whether the draft keeps 20 and 21, told by its tables: it stands in a tree, and its definitions and their items are in order. The first words, one a
// node, are written.
pub fn stands(draft: Draft, work: &mut [u32], source: Source) -> bool
    requires { Testable (drafted source.version draft)
        work.old }
    ensures { let s = drafted source.version draft.entry in
        result ≡ passes (reach_rule s ▸ shape_rule s) }
{
    if !records::root_right(source::node_at(draft.nodes, 0, source)) {
        return false;
    }
    if !shape::entries_right(
        draft.nodes,
        draft.children,
        draft.named,
        draft.strings,
        source,
    ) {
        return false;
    }
    if shape::orders_rule(draft.definitions, draft.items, draft.strings).is_err() {
        return false;
    }
    if !listed::all_listed(draft.nodes, draft.children, draft.named, work, source) {
        return false;
    }
    rooted::all_rooted(draft.nodes, work, source)
}
