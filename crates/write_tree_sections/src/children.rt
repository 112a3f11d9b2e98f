// Section 1: the ordered children of the image's nodes, by their numbers in the image.
ghost use Rattle.std.specs.Prelude.{◌≡◌, ◌+◌, ◌*◌, ◌/◌, ◌≤◌, length};
ghost use Rattle.words.specs.Output.{put_at};
ghost use Rattle.write_tree_sections.specs.Held.{child_words, OrderFits, children_in_order};
ghost use Rattle.image.specs.Sections.{node_words, child_size};
ghost use Rattle.write_tree_sections.specs.Put.{ChildrenPut};

use crate::kinds::if_container;
use draft::layout::Layout;
use draft::source::{Source, node_at, node_count, word};
use image::ImageView;
use words::put_word;
use write_numbering::numbers::new_number;

// Writes at `at` the children of one node: `count` entries of the draft from `first` on.
fn put_children_of(
    children: &[u32],
    work: &[u32],
    new: usize,
    first: u32,
    count: u32,
    out: &mut [u8],
    at: usize,
)
    requires { (new ≤ length work.now) × (at + child_size * count ≤ length out.old) }
    ensures { out.new ≡ put_at out.old at (child_words children.now work.now new first count) }
{
    let start = first as usize;
    let all = count as usize;
    let mut place = at;
    for j in 0..all {
        let old = word(children, start + j);
        let child = new_number(work, new, old);
        put_word(out, place, child);
        place += ImageView::WORD_BYTES;
    }
}

// Writes the section at the start of the output.
pub fn put_children(
    nodes: &[u32],
    children: &[u32],
    work: &[u32],
    layout: Layout,
    out: &mut [u8],
    source: Source,
)
    requires order_fits { OrderFits source.version nodes.now work.now layout }
    requires count_in_bounds { let count = length nodes.now / node_words source.version in
        child_size * children_in_order source.version nodes.now work.now layout.order count ≤ length out.old }
    ensures { ChildrenPut source.version nodes.now children.now work.now layout
        out.old out.new }
{
    let order = layout.order;
    let count = node_count(nodes, source);
    let mut at = 0;
    for j in 0..count {
        let node = node_at(nodes, word(work, order + j) as usize, source);
        let own = if_container(node, node.f4);
        put_children_of(children, work, layout.new, node.f3, own, out, at);
        at += ImageView::WORD_BYTES * own as usize;
    }
}
