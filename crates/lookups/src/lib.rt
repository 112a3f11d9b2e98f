// Named children by name, and what a look-up of a list item answers (list_items has the search). Texts rise, so each range of entries is
// halved.
#![tactic(auto)]

ghost use Rattle.std.specs.Prelude.{◌≡◌, ℕ, List, ◌+◌, ◌*◌, ◌/◌, ◌≤◌, ◌<◌, length};
ghost use Rattle.std.specs.declared.cmp.Ordering.{Ordering};
ghost use Rattle.texts.specs.Text.{order_of};
ghost use Rattle.words.specs.Words.{words_of};
ghost use Rattle.image.specs.Header.{sections_by};
ghost use Rattle.image.specs.Sections.{text_entry_size};
ghost use Rattle.lookups.specs.Lookup.{halving, found_place, entry_text, searched, named_by, find_named};

use image::{ImageView, NodeRecord};
use std::cmp::Ordering;
use views::entries::container_of;

// An item found by name: its definition, which is its origin, its number among all items, and its value.
#[derive(Clone, Copy)]
pub struct ListItem {
    pub definition: usize,
    pub item: usize,
    pub value: i32,
}

// The place of a name among `count` texts that rise, by how each of them and the name are ordered: the range is halved.
// A `while`: both ends move. Not `binary_search_by`: the entries lie as bytes or words, and no slice of entries can be lent.
pub fn halve<C: Fn(usize) -> Ordering>(count: usize, order: C) -> Option<usize>
    requires { (k : ℕ) → k < count → C.pre order k }
    ensures { (t : ℕ → List ℕ) (name : List ℕ) → ((k : ℕ) (o : Ordering) → k < count → C.post order k o → o ≡ order_of (t k) name)
        → found_place result ≡ halving t name count 0 count }
{
    let mut lo = 0;
    let mut hi = count;
    while lo < hi {
        let middle = lo + (hi - lo) / 2;
        match order(middle) {
            Ordering::Less => {
                lo = middle + 1;
            }
            Ordering::Equal => {
                return Some(middle);
            }
            Ordering::Greater => {
                hi = middle;
            }
        }
    }
    None
}

// How the text of entry k of a section of texts and the name are ordered.
fn order_at(part: &[u8], strings: &[u8], k: usize, name: &[u8]) -> Ordering
    requires { k < length part.now / text_entry_size }
    ensures { result ≡ order_of (entry_text (words_of part.now) strings.now k) name.now }
{
    let entry = image::text_entry(part, k);
    texts::compare(image::text_part(strings, entry.offset, entry.len), name)
}

// The place of the name among `count` entries, from entry `from` of a section of texts on.
fn find(part: &[u8], strings: &[u8], from: usize, count: usize, name: &[u8]) -> Option<usize>
    requires { from + count ≤ length part.now / text_entry_size }
    ensures { found_place result ≡ searched (words_of part.now) strings.now from count name.now }
{
    halve(count, |k| order_at(part, strings, from + k, name))
}

// The node of the container's named entry that bears the name.
fn named_by(container: NodeRecord, named: &[u8], strings: &[u8], name: &[u8]) -> Option<u32>
    ensures { result ≡ named_by (words_of named.now) strings.now container.f5 container.f6 name.now }
{
    let from = container.f5 as usize;
    let count = container.f6 as usize;
    if named.len() / ImageView::TEXT_ENTRY_BYTES < from + count {
        return None;
    }
    let j = find(named, strings, from, count, name)?;
    Some(image::part_word(named, (from + j) * ImageView::TEXT_ENTRY_WORDS + 2))
}

// The named child of a container that bears the name.
pub fn find_named_child(bytes: &[u8], view: ImageView, id: u32, name: &[u8]) -> Option<u32>
    ensures { result ≡ find_named (sections_by bytes.now view) id name.now }
{
    let container = container_of(bytes, view, id)?;
    named_by(
        container,
        image::section_part(bytes, view.named, ImageView::NAMED_SIZE),
        image::section_part(bytes, view.strings, ImageView::STRINGS_SIZE),
        name,
    )
}
