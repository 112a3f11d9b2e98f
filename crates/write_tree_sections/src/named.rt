// Section 2: the named children of the image's nodes, each a text and a node by its number in the image.
ghost use Rattle.std.specs.Prelude.{◌≡◌, ◌+◌, ◌*◌, ◌/◌, ◌≤◌, length};
ghost use Rattle.words.specs.Output.{put_at};
ghost use Rattle.write_tree_sections.specs.Held.{named_words, NamedFit, named_in_order};
ghost use Rattle.image.specs.Sections.{node_words, text_entry_size};
ghost use Rattle.write_tree_sections.specs.Put.{NamedPut};

use crate::kinds::if_container;
use draft::layout::Layout;
use draft::source::{Source, node_at, node_count, word};
use image::ImageView;
use words::output::put_words;
use write_numbering::numbers::new_number;

// Writes at `at` the named children of one node: `count` entries of the draft from `first` on. The offsets of their texts are the
// words from `text` on.
fn put_named_of(
    named: &[u32],
    work: &[u32],
    new: usize,
    text: usize,
    first: u32,
    count: u32,
    out: &mut [u8],
    at: usize,
)
    requires { (new ≤ length work.now) × (text ≤ length work.now) × (at + text_entry_size * count ≤ length out.old) }
    ensures { out.new ≡ put_at out.old at (named_words named.now work.now new text first count) }
{
    let start = first as usize;
    let all = count as usize;
    let mut place = at;
    for j in 0..all {
        let entry = (start + j) * ImageView::TEXT_ENTRY_WORDS;
        let node = new_number(work, new, word(named, entry + 2));
        let words = [word(work, text + j), word(named, entry + 1), node];
        put_words(out, place, &words);
        place += ImageView::TEXT_ENTRY_BYTES;
    }
}

// Writes the section at the start of the output. The offsets of its texts begin at `offsets`.
pub fn put_named(
    nodes: &[u32],
    named: &[u32],
    work: &[u32],
    layout: Layout,
    offsets: usize,
    out: &mut [u8],
    source: Source,
)
    requires named_fit { NamedFit source.version nodes.now work.now layout offsets }
    requires count_in_bounds { let count = length nodes.now / node_words source.version in
        text_entry_size * named_in_order source.version nodes.now work.now layout.order count ≤ length out.old }
    ensures { NamedPut source.version nodes.now named.now work.now layout offsets
        out.old out.new }
{
    let order = layout.order;
    let count = node_count(nodes, source);
    let mut text = offsets;
    let mut at = 0;
    for j in 0..count {
        let node = node_at(nodes, word(work, order + j) as usize, source);
        let own = if_container(node, node.f6);
        put_named_of(named, work, layout.new, text, node.f5, own, out, at);
        text += own as usize;
        at += ImageView::TEXT_ENTRY_BYTES * own as usize;
    }
}
