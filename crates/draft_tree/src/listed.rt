// Whether every node but the root is an entry: one pass over the ordered children and the named entries marks their nodes in work words.
ghost use Rattle.std.specs.Prelude.{◌≡◌, ◌↔◌, true, [], ℕ, ◌+◌, ◌*◌, ◌/◌, ◌≤◌, ◌<◌, length, get_or};
ghost use Rattle.image.specs.Sections.{text_entry_words};
ghost use Rattle.draft.specs.Source.{draft_of};
ghost use Rattle.draft_tree.specs.Standing.{MarkedAmong};
ghost use Rattle.draft_tree.specs.Listing.{Markable, AllListed};

use draft::source;
use draft::source::Source;
use image::ImageView;

// The mark of a node that is an entry.
pub const LISTED: u32 = 1;

// Marks the ordered children.
fn mark_children(children: &[u32], work: &mut [u32])
    requires { (j : ℕ) → j < length children.now → get_or children.now j 0 < length work.old }
    ensures { let xs = children.now in MarkedAmong (length xs) (λ j. get_or xs j 0) work.old work.new }
{
    for child in children {
        work[*child as usize] = LISTED;
    }
}

// Marks the nodes of the named entries.
fn mark_named(named: &[u32], work: &mut [u32])
    requires { (j : ℕ) → j < length named.now / text_entry_words → get_or named.now (j * text_entry_words + 2) 0 < length work.old }
    ensures { let xs = named.now in
        MarkedAmong (length xs / text_entry_words) (λ j. get_or xs (j * text_entry_words + 2) 0) work.old work.new }
{
    let count = named.len() / ImageView::TEXT_ENTRY_WORDS;
    for j in 0..count {
        work[named[j * ImageView::TEXT_ENTRY_WORDS + 2] as usize] = LISTED;
    }
}

// Whether all of the first `count` words but the root's are marked.
fn all_ones(work: &[u32], count: usize) -> bool
    requires { count ≤ length work.now }
    ensures { (result ≡ true) ↔ ((i : ℕ) → 0 < i → i < count → get_or work.now i 0 ≡ 1) }
{
    for i in 1..count {
        if work[i] != LISTED {
            return false;
        }
    }
    true
}

// Whether every node but the root is an entry; the first words, one for each node, then hold 1 for those that are, 0 for others.
pub fn all_listed(
    nodes: &[u32],
    children: &[u32],
    named: &[u32],
    work: &mut [u32],
    source: Source,
) -> bool
    requires { Markable (draft_of source.version nodes.now children.now named.now [] [] [] []) work.old }
    ensures { AllListed (draft_of source.version nodes.now children.now named.now [] [] [] [])
        work.old work.new result }
{
    let count = source::node_count(nodes, source);
    tree::clear(work, count);
    mark_children(children, work);
    mark_named(named, work);
    all_ones(work, count)
}
