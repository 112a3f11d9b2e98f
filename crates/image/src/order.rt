// Text order: of an entry's text and that of the entry before it.
ghost use Rattle.std.specs.Prelude.{◌≡◌, ◌+◌, ◌*◌, ◌≤◌, length};
ghost use Rattle.words.specs.Words.{words_of};
ghost use Rattle.texts.specs.Text.{before, rising};
ghost use Rattle.image.specs.Sections.{text_entry_size, definition_size, part_at};
ghost use Rattle.image.specs.Entries.{entry_text_from, definition_text_in};

use crate::{definition_at, text_bytes, text_entry};
use texts::comes_before;

// Whether the second of two texts of the strings comes after the first, each by its offset and length.
pub fn texts_rise(strings: &[u8], a: u32, m: u32, b: u32, n: u32) -> bool
    ensures { result ≡ before (part_at strings.now a m) (part_at strings.now b n) }
{
    comes_before(text_bytes(strings, a, m), text_bytes(strings, b, n))
}

// Whether the text of an entry, the `place`-th from entry `first` on, comes after that of the entry before it.
pub fn entry_rises(entries: &[u8], strings: &[u8], first: usize, place: usize) -> bool
    requires { text_entry_size * (first + place) + text_entry_size ≤ length entries.now }
    ensures { result ≡ rising (entry_text_from (words_of entries.now) strings.now first) place }
{
    if place == 0 {
        return true;
    }
    let last = text_entry(entries, first + (place - 1));
    let entry = text_entry(entries, first + place);
    texts_rise(strings, last.offset, last.len, entry.offset, entry.len)
}

// Whether the text of definition `d` comes after that of the definition before it.
pub fn definition_rises(definitions: &[u8], strings: &[u8], d: usize) -> bool
    requires { definition_size * d + definition_size ≤ length definitions.now }
    ensures { result ≡ rising (definition_text_in (words_of definitions.now) strings.now) d }
{
    if d == 0 {
        return true;
    }
    let last = definition_at(definitions, d - 1);
    let definition = definition_at(definitions, d);
    texts_rise(
        strings,
        last.offset,
        last.len,
        definition.offset,
        definition.len,
    )
}
