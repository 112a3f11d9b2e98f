// Sections 0 to 2 of an image: nodes, ordered children, named children.
ghost use Rattle.std.specs.Prelude.{◌≡◌, List, ℕ, length};
ghost use Rattle.draft.specs.Source.{draft_of};
ghost use Rattle.words.specs.Output.{over};
ghost use Rattle.write_image.specs.Given.{DraftPlanned, TreeReady, tree_out, definitions_at};

use draft::layout::Layout;
use draft::source::{Source, node_count};
use image::ImageView;
use image::encoding::nodes_length;
use write_tree_sections::children::put_children;
use write_tree_sections::named::put_named;
use write_tree_sections::nodes::put_nodes;

// Writes the sections at the start of the output, and gives the word at which the offsets of the definitions' texts begin.
pub fn put_tree(
    nodes: &[u32],
    children: &[u32],
    named: &[u32],
    payload: &[u8],
    work: &[u32],
    layout: Layout,
    out: &mut [u8],
    source: Source,
) -> usize
    requires { TreeReady source.version nodes.now children.now named.now payload.now work.now layout (length out.old) }
    ensures { (definitions items strings : List ℕ) → let s =
        draft_of source.version nodes.now children.now named.now definitions items payload.now strings in
        DraftPlanned s work.now layout → (out.new ≡ over (tree_out s) out.old) × (result ≡ definitions_at s layout) }
{
    let text = put_nodes(nodes, payload, work, layout, out, source);
    let at_children = nodes_length(source.version, node_count(nodes, source));
    put_children(
        nodes,
        children,
        work,
        layout,
        &mut out[at_children..],
        source,
    );
    let at_named = at_children + children.len() * ImageView::WORD_BYTES;
    put_named(
        nodes,
        named,
        work,
        layout,
        text,
        &mut out[at_named..],
        source,
    );
    text + named.len() / ImageView::TEXT_ENTRY_WORDS
}
