// Sections 3 and 4: definitions and their items. The offsets of their texts are words one after the other, each definition's before
// those of its items.
ghost use Rattle.std.specs.Prelude.{◌≡◌, ◌+◌, ◌*◌, ◌/◌, ◌≤◌, length};
ghost use Rattle.laws.specs.Counted.{join_of};
ghost use Rattle.words.specs.Output.{put_at};
ghost use Rattle.write_list_sections.specs.Entered.{texts_before, items_before_in, item_words};
ghost use Rattle.write_list_sections.specs.Put.{DefinitionsPut, ItemsPut};
ghost use Rattle.image.specs.Sections.{definition_words, text_entry_size, definition_size};

use draft::source::{definition_at, word};
use image::ImageView;
use words::output::put_words;

// Writes the definitions at the start of the output.
pub fn put_definitions(definitions: &[u32], w: &[u32], offsets: usize, out: &mut [u8])
    requires definition_words_in_bounds { offsets + texts_before definitions.now (length definitions.now / definition_words) ≤ length w.now }
    requires definition_words_in_bounds_2 { definition_size * (length definitions.now / definition_words) ≤ length out.old }
    ensures { DefinitionsPut definitions.now w.now offsets out.old out.new }
{
    let count = definitions.len() / ImageView::DEFINITION_WORDS;
    let mut k = offsets;
    let mut at = 0;
    for d in 0..count {
        let definition = definition_at(definitions, d);
        let offset = word(w, k);
        let words = [offset, definition.len, definition.first, definition.count];
        put_words(out, at, &words);
        at += ImageView::DEFINITION_BYTES;
        k += 1 + definition.count as usize;
    }
}

// Writes at `at` so many items, from the first on: the offset of its text is word `text`.
fn put_items_from(
    items: &[u32],
    first: u32,
    count: u32,
    w: &[u32],
    text: usize,
    out: &mut [u8],
    at: usize,
)
    requires { (text + count ≤ length w.now) × (at + text_entry_size * count ≤ length out.old) }
    ensures { out.new ≡ put_at out.old at (join_of count (item_words items.now w.now text first)) }
{
    let start = first as usize;
    let end = count as usize;
    let mut place = at;
    for i in 0..end {
        let item = (start + i) * ImageView::TEXT_ENTRY_WORDS;
        let offset = word(w, text + i);
        let len = word(items, item + 1);
        let value = word(items, item + 2);
        let words = [offset, len, value];
        put_words(out, place, &words);
        place += ImageView::TEXT_ENTRY_BYTES;
    }
}

// Writes the items of all definitions at the start of the output.
pub fn put_items(definitions: &[u32], items: &[u32], w: &[u32], offsets: usize, out: &mut [u8])
    requires definition_words_in_bounds { offsets + texts_before definitions.now (length definitions.now / definition_words) ≤ length w.now }
    requires definition_words_in_bounds_2 { text_entry_size * items_before_in definitions.now (length definitions.now / definition_words) ≤ length out.old }
    ensures { ItemsPut definitions.now items.now w.now offsets out.old out.new }
{
    let count = definitions.len() / ImageView::DEFINITION_WORDS;
    let mut k = offsets;
    let mut at = 0;
    for d in 0..count {
        let definition = definition_at(definitions, d);
        put_items_from(items, definition.first, definition.count, w, k + 1, out, at);
        at += ImageView::TEXT_ENTRY_BYTES * definition.count as usize;
        k += 1 + definition.count as usize;
    }
}
