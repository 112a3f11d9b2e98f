// How many words calls need.
ghost use Rattle.std.specs.Prelude.{◌≡◌, [], length, leb};
ghost use Rattle.image.specs.Header.{version};
ghost use Rattle.draft.specs.Source.{draft_of};
ghost use Rattle.story_image.specs.Exported.{view_length};
ghost use Rattle.story_image.specs.Needed.{words_to_load, words_to_write};

use crate::VIEW_WORDS;
use draft::source::{Draft, Source};
use image::ImageView;

// The largest number of a size.
const LARGEST_SIZE: usize = 18446744073709551615;

// Whether these are the words of a view, and not too few.
#[unsafe(no_mangle)]
pub extern "C" fn story_image_view_whole(view: &[u32]) -> bool
    ensures { result ≡ leb view_length (length view.now) }
{
    VIEW_WORDS <= view.len()
}

// Work words that suffice to load the bytes, whatever they are: nodes + children + named + 1 where the header passes, else none.
#[unsafe(no_mangle)]
pub extern "C" fn story_image_load_words(bytes: &[u8]) -> usize
    ensures { result ≡ words_to_load bytes.now }
{
    load::needed::load_words(bytes)
}

// Work words that suffice to write a draft: 16 a node, 4 for each other entry and payload byte; or the largest size, where that is less.
#[unsafe(no_mangle)]
pub extern "C" fn story_image_write_words(
    nodes: &[u32],
    children: &[u32],
    named: &[u32],
    definitions: &[u32],
    items: &[u32],
    payload: &[u8],
) -> usize
    ensures { let s = draft_of version nodes.now children.now named.now definitions.now
        items.now payload.now [] in result ≡ words_to_write s }
{
    let source = Source {
        version: ImageView::VERSION,
    };
    let draft = Draft {
        nodes,
        children,
        named,
        definitions,
        items,
        payload,
        strings: b"",
    };
    let counts = draft::entry_counts(draft, source);
    match draft::work_words_fit(counts, LARGEST_SIZE) {
        None => LARGEST_SIZE,
        Some(words) => words,
    }
}
