// How many targets name each node, counted into a word a node.
ghost use Rattle.std.specs.Prelude.{◌≡◌, [], ◌++◌, true, ◌≤◌, ◌<◌, ◌/◌, length, get_or, drop};
ghost use Rattle.words.specs.Words.{NONE as none, words_of};
ghost use Rattle.image.specs.Sections.{node_words};
ghost use Rattle.draft.specs.Source.{draft_of};
ghost use Rattle.target_counts.specs.Summary.{points_at, pointed_at, words_hold, summary_of};
ghost use Rattle.target_counts.specs.Step.{counted_one};

use draft::source;
use draft::source::Source;
use image::NONE;

// Takes the word of a target up by 1. NONE has no word.
fn add(summary: &mut [u32], count: usize, target: u32)
    requires { (count ≤ length summary.old) × (target < count → get_or summary.old target 0 < none) }
    ensures { summary.new ≡ counted_one summary.old count target }
{
    if target == NONE {
        return;
    }
    let at = target as usize;
    if count <= at {
        return;
    }
    summary[at] += 1;
}

// Counts the nodes of an image, whose bytes are lent.
pub fn image_nodes(part: &[u8], version: u32, count: usize, summary: &mut [u32])
    requires { (count ≡ length (words_of part.now) / node_words version) × (count ≤ length summary.old) × (count ≤ none) }
    ensures { summary.new ≡ summary_of (draft_of version (words_of part.now) [] [] [] [] [] []) ++ drop count summary.old }
{
    tree::clear(summary, count);
    for i in 0..count {
        let node = image::node_record(part, version, i);
        add(summary, count, records::target_of(node));
    }
}

// 1 if the target is node `n`.
fn points_at(target: u32, n: usize) -> usize
    ensures { result ≡ points_at target n }
{
    if target == NONE {
        return 0;
    }
    if target as usize == n { 1 } else { 0 }
}

// How many targets name node `n`, of a draft whose node words are lent.
fn pointed_at(nodes: &[u32], n: usize, source: Source) -> usize
    ensures { result ≡ pointed_at (draft_of source.version nodes.now [] [] [] [] [] []) n }
{
    let count = source::node_count(nodes, source);
    let mut pointed = 0;
    for i in 0..count {
        pointed += points_at(records::target_of(source::node_at(nodes, i, source)), n);
    }
    pointed
}

// Whether a word can be counted up to what names its node, for each node. It can wherever no node is numbered beyond a word; a draft with
// more nodes is gone through once for each of them.
pub fn words_hold(nodes: &[u32], source: Source) -> bool
    ensures { result ≡ words_hold (draft_of source.version nodes.now [] [] [] [] [] []) }
{
    let count = source::node_count(nodes, source);
    if count <= NONE as usize {
        return true;
    }
    for n in 0..count {
        if (NONE as usize) < pointed_at(nodes, n, source) {
            return false;
        }
    }
    true
}

// Counts the nodes of a draft, whose words are lent.
// Over words; its twin over bytes is `image_nodes`.
pub fn draft_nodes(nodes: &[u32], count: usize, summary: &mut [u32], source: Source)
    requires { (count ≡ length nodes.now / node_words source.version) × (count ≤ length summary.old)
        × (words_hold (draft_of source.version nodes.now [] [] [] [] [] []) ≡ true) }
    ensures { summary.new ≡ summary_of (draft_of source.version nodes.now [] [] [] [] [] []) ++ drop count summary.old }
{
    tree::clear(summary, count);
    for i in 0..count {
        let node = source::node_at(nodes, i, source);
        add(summary, count, records::target_of(node));
    }
}
