// Section 0: the records of the image's nodes.
ghost use Rattle.std.specs.Prelude.{◌≡◌, ◌+◌, ◌*◌, ◌/◌, ◌≤◌, ◌<◌, length};
ghost use Rattle.words.specs.Output.{put_at};
ghost use Rattle.write_tree_sections.specs.Encoded.{record_words};
ghost use Rattle.write_tree_sections.specs.Summed.{StartsFit, starts_after, NodesFit};
ghost use Rattle.image.specs.Sections.{node_words, node_size};
ghost use Rattle.write_tree_sections.specs.Put.{NodesPut};

use crate::kinds::{Starts, encode_kind};
use crate::texts_used::texts_of;
use draft::layout::Layout;
use draft::source::{Source, node_at, node_count, node_words, word};
use image::{ImageView, NodeRecord, tag};
use words::output::put_words;

// Writes a record's words at `at`.
fn put_record(node: NodeRecord, out: &mut [u8], at: usize, source: Source)
    requires { at + node_size source.version ≤ length out.old }
    ensures { out.new ≡ put_at out.old at (record_words source.version node) }
{
    let words = [
        node.parent,
        node.place,
        node.tag,
        node.f0,
        node.f1,
        node.f2,
        node.f3,
        node.f4,
        node.f5,
        node.f6,
    ];
    put_words(out, at, &words);
}

// The starts of the node after this one.
fn after(starts: Starts, node: NodeRecord) -> Starts
    requires { StartsFit starts node }
    ensures { result ≡ starts_after starts node }
{
    let kind = node.tag;
    match kind {
        tag::CONTAINER => Starts {
            children: starts.children + node.f4,
            named: starts.named + node.f6,
            ..starts
        },
        tag::LIST_VALUE => Starts {
            payload: starts.payload + node.f1,
            ..starts
        },
        _ => starts,
    }
}

// Writes the section at the start of the output, and gives the word at which the offsets of the texts that follow begin.
pub fn put_nodes(
    nodes: &[u32],
    payload: &[u8],
    work: &[u32],
    layout: Layout,
    out: &mut [u8],
    source: Source,
) -> usize
    requires nodes_fit { NodesFit source.version nodes.now payload.now work.now layout }
    requires version_in_bounds { length nodes.now / node_words source.version * node_size source.version ≤ length out.old }
    ensures { NodesPut source.version nodes.now payload.now work.now layout
        out.old out.new result }
{
    let order = layout.order;
    let count = node_count(nodes, source);
    let size = ImageView::WORD_BYTES * node_words(source);
    let mut next_text = layout.offsets;
    let mut starts = Starts {
        children: 0,
        named: 0,
        payload: 0,
    };
    let mut at = 0;
    for j in 0..count {
        let node = node_at(nodes, word(work, order + j) as usize, source);
        put_record(
            encode_kind(node, work, layout.new, next_text, starts),
            out,
            at,
            source,
        );
        next_text += texts_of(node, payload);
        starts = after(starts, node);
        at += size;
    }
    next_text
}
