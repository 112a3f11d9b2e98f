// An image written into the output: header, sections, checksum.
#![tactic(auto)]

pub mod size; // size.rt: how long an image is
pub mod tree_part; // tree_part.rt: sections 0 to 2
pub mod list_part; // list_part.rt: sections 3 to 5
pub mod text_part; // text_part.rt: sections 6 and 7

ghost use Rattle.std.specs.Prelude.{◌≡◌, ◌+◌, ◌≤◌, length};
ghost use Rattle.words.specs.Words.{NONE};
ghost use Rattle.draft.specs.Source.{drafted, draft_of};
ghost use Rattle.image.specs.Counted.{length_by};
ghost use Rattle.image.specs.Encoding.{body_of};
ghost use Rattle.draft_image.specs.Written.{written};
ghost use Rattle.draft_image.specs.Encode.{image_for};
ghost use Rattle.words.specs.Output.{over};
ghost use Rattle.write_image.specs.Length.{places_by, image_length};
ghost use Rattle.write_image.specs.Given.{Ready, Sectioned};

use crate::list_part::put_lists;
use crate::text_part::put_texts;
use crate::tree_part::put_tree;
use draft::layout::Layout;
use draft::source::{Draft, Source};
use image::encoding::{nodes_length, put_checksum, put_header};
use image::{EntryCounts, ImageView};

// Where the sections that hold lists begin behind the header, where those that hold texts, and where they end.
#[derive(Clone, Copy)]
struct Places {
    lists: usize,
    texts: usize,
    end: usize,
}

// The same by the counts.
fn places_of(counts: EntryCounts, source: Source) -> Places
    requires { length_by source.version counts ≤ NONE }
    ensures { result ≡ places_by source.version counts }
{
    let lists = nodes_length(source.version, counts.nodes)
        + counts.children * ImageView::WORD_BYTES
        + counts.named * ImageView::TEXT_ENTRY_BYTES;
    let texts = lists
        + counts.definitions * ImageView::DEFINITION_BYTES
        + counts.items * ImageView::TEXT_ENTRY_BYTES
        + counts.index * ImageView::TEXT_ENTRY_BYTES;
    Places {
        lists,
        texts,
        end: texts + counts.payload + counts.strings,
    }
}

// Writes the sections at the start of the output; the index has `count` entries.
fn put_sections(
    draft: Draft,
    work: &[u32],
    layout: Layout,
    count: usize,
    places: Places,
    out: &mut [u8],
    source: Source,
)
    requires { let s =
        drafted source.version draft in
        Sectioned s work.now layout count places (length out.old) }
    ensures { let s =
        drafted source.version draft.entry in
        out.new ≡ over (body_of (written s)) out.old }
{
    let at_lists = places.lists;
    let at_texts = places.texts;
    let text = put_tree(
        draft.nodes,
        draft.children,
        draft.named,
        draft.payload,
        work,
        layout,
        out,
        source,
    );
    put_lists(
        draft.definitions,
        draft.items,
        work,
        layout,
        text,
        count,
        &mut out[at_lists..],
    );
    put_texts(
        draft.nodes,
        draft.payload,
        draft.strings,
        work,
        layout,
        &mut out[at_texts..],
        source,
    );
}

// Writes the image of a draft at the start of the output.
pub fn fill(
    ink: u32,
    draft: Draft,
    work: &[u32],
    layout: Layout,
    counts: EntryCounts,
    out: &mut [u8],
    source: Source,
)
    requires fact { let s =
        drafted source.version draft in
        Ready s work.now layout counts }
    requires s_in_bounds { let s =
        drafted source.version draft in
        image_length s ≤ length out.old }
    ensures { let s =
        drafted source.version draft.entry in
        out.new ≡ over (image_for ink s) out.old }
{
    put_header(source.version, ink, counts, out);
    let places = places_of(counts, source);
    let header = ImageView::HEADER_LENGTH;
    let end = header + places.end;
    put_sections(
        draft,
        work,
        layout,
        counts.index,
        places,
        &mut out[header..],
        source,
    );
    put_checksum(&mut out[..end]);
}
