// Whether parents lead from every container to the root. Each climb ends where an earlier one has been, so that no node is passed twice.
ghost use Rattle.std.specs.Prelude.{◌≡◌, ◌↔◌, [], true, ◌&&◌, eqb, length, get_or, ℕ, ◌≤◌, ◌<◌};
ghost use Rattle.words.specs.Words.{NONE};
ghost use Rattle.image.specs.Sections.{node_count, is_container};
ghost use Rattle.draft.specs.Source.{draft_of};
ghost use Rattle.draft_tree.specs.Standing.{Rooted, Climbable, ClimbAnswer};
ghost use Rattle.draft_tree.specs.Climbing.{AllMarked};

use crate::listed::LISTED;
use draft::source;
use draft::source::Source;
use image::tag::CONTAINER;
use image::{NONE, NodeRecord};

// Climbs by parents from node `i` to the first node that is not marked 1, and marks the nodes on the way with a number of its own. Whether that
// node was known to lead to the root: it is not where it has the climb's own mark, for then the parents turn in a circle.
// A `while`: the way goes up the tree.
fn climb(nodes: &[u32], work: &mut [u32], i: usize, source: Source) -> bool
    requires fact { let s = draft_of source.version nodes.now [] [] [] [] [] [] in Climbable s i work.old × (i < node_count s) }
    requires i_nonzero { (0 < i) × (i < NONE) }
    ensures { let s = draft_of source.version nodes.now [] [] [] [] [] [] in
        ClimbAnswer s i work.old work.new result }
{
    let own = i as u32 + 1;
    let mut at = i;
    while work[at] == LISTED {
        work[at] = own;
        at = source::node_word(nodes, at, NodeRecord::PARENT, source) as usize;
    }
    work[at] != own
}

// Whether node `i` is a container that no climb has come to.
fn is_open(nodes: &[u32], work: &[u32], i: usize, source: Source) -> bool
    requires { let s = draft_of source.version nodes.now [] [] [] [] [] [] in (i < node_count s) × (i < length work.now) }
    ensures { let s = draft_of source.version nodes.now [] [] [] [] [] [] in
        result ≡ (is_container s i && eqb (get_or work.now i 0) 1) }
{
    if source::node_word(nodes, i, NodeRecord::TAG, source) != CONTAINER {
        return false;
    }
    work[i] == LISTED
}

// Whether parents lead from every container to the root, where all nodes but the root are marked 1, and there are no more nodes than entries can
// name.
pub fn all_rooted(nodes: &[u32], work: &mut [u32], source: Source) -> bool
    requires { let s = draft_of source.version nodes.now [] [] [] [] [] [] in AllMarked s work.old }
    ensures { let s = draft_of source.version nodes.now [] [] [] [] [] [] in
        (result ≡ true) ↔ ((node_count s ≤ NONE) × ((i : ℕ) → i < node_count s → is_container s i ≡ true → Rooted s i)) }
{
    let count = source::node_count(nodes, source);
    if (NONE as usize) < count {
        return false;
    }
    work[0] = 0;
    for i in 0..count {
        if is_open(nodes, work, i, source) {
            if !climb(nodes, work, i, source) {
                return false;
            }
        }
    }
    true
}
