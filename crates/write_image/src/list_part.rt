// Sections 3 to 5 of an image: definitions, items, index.
ghost use Rattle.std.specs.Prelude.{◌≡◌, List, ℕ, length};
ghost use Rattle.draft.specs.Source.{draft_of};
ghost use Rattle.words.specs.Output.{over};
ghost use Rattle.write_image.specs.Given.{DraftPlanned, definitions_at, Indexed, ListsReady, lists_out};

use draft::layout::Layout;
use image::ImageView;
use write_list_sections::definition_sections::{put_definitions, put_items};
use write_paths::path_index::put_index;

// Writes the sections at the start of the output. The offsets of the definitions' texts begin at `text`; `count` is that of the paths.
pub fn put_lists(
    definitions: &[u32],
    items: &[u32],
    work: &[u32],
    layout: Layout,
    text: usize,
    count: usize,
    out: &mut [u8],
)
    requires { ListsReady definitions.now items.now work.now layout text count (length out.old) }
    ensures { (version : ℕ) (nodes children named payload strings : List ℕ) → let s =
        draft_of version nodes children named definitions.now items.now payload strings in
        DraftPlanned s work.now layout → text ≡ definitions_at s layout → Indexed s work.now layout count
        → out.new ≡ over (lists_out s) out.old }
{
    put_definitions(definitions, work, text, out);
    let at_items = definitions.len() / ImageView::DEFINITION_WORDS * ImageView::DEFINITION_BYTES;
    put_items(definitions, items, work, text, &mut out[at_items..]);
    let at_index = at_items
        + items.len() / ImageView::TEXT_ENTRY_WORDS * ImageView::TEXT_ENTRY_BYTES;
    put_index(work, layout, count, &mut out[at_index..]);
}
