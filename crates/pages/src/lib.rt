// A page of nodes: many nodes in one call, in slots of twelve words, and the view of a slot's words.
#![tactic(auto)]

mod viewed; // viewed.rt: whether a record has a view

ghost use Rattle.std.specs.Prelude.{◌≡◌, ◌≤◌, ◌++◌, length, drop};
ghost use Rattle.image.specs.Sections.{common_words};
ghost use Rattle.image.specs.Header.{sections_by};
ghost use Rattle.image.specs.Refusals.{refusal_in};
ghost use Rattle.pages.specs.Page.{slot_words, node_slot, no_slot, slot_of, slot_record, slot_view, page_rule, page_after};

use image::refusal::Refusal;
use image::{ImageView, NodeRecord};
use viewed::has_kind;
use views::NodeView;

// Words of a slot: those of a node, then two zeros.
pub const SLOT_WORDS: usize = 12;

// Words of a slot that are a node's: f6 is the last.
const RECORD_WORDS: usize = NodeRecord::F6 + 1;

// The slot of a node that has a view: parent, place, tag and f0 to f6, then 0 and 0.
fn node_slot(node: NodeRecord) -> [u32; 12]
    ensures { result ≡ node_slot node }
{
    [
        node.parent,
        node.place,
        node.tag,
        node.f0,
        node.f1,
        node.f2,
        node.f3,
        node.f4,
        node.f5,
        node.f6,
        0,
        0,
    ]
}

// The slot of a node without a view: 18 and eleven zeros.
fn no_slot() -> [u32; 12]
    ensures { result ≡ no_slot }
{
    [Refusal::NotFound.number(), 0, 0, 0, 0, 0, 0, 0, 0, 0, 0, 0]
}

// Writes a slot at the start of words that hold it.
fn put_words(slot: &[u32; 12], out: &mut [u32])
    requires { (length slot.now ≡ slot_words) × (slot_words ≤ length out.old) }
    ensures { out.new ≡ slot.now ++ drop slot_words out.old }
{
    // Not `copy_from_slice`: the slot would be made in memory first and read again, which takes longer than all the rest.
    for (i, word) in slot.iter().enumerate() {
        out[i] = *word;
    }
}

// Writes the slot of node `id` at the start of words that hold it. The node's words are copied first, all at once; that a node has no view
// is rare.
fn put_slot(bytes: &[u8], view: ImageView, id: u32, out: &mut [u32])
    requires { slot_words ≤ length out.old }
    ensures { out.new ≡ slot_of (sections_by bytes.now view) id ++ drop slot_words out.old }
{
    match views::entries::node_of(bytes, view, id) {
        None => {
            put_words(&no_slot(), out);
        }
        Some(node) => {
            put_words(&node_slot(node), out);
            let payload = image::section_part(bytes, view.payload, ImageView::PAYLOAD_SIZE);
            let strings = image::section_part(bytes, view.strings, ImageView::STRINGS_SIZE);
            if !has_kind(node, payload.len(), strings) {
                put_words(&no_slot(), out);
            }
        }
    }
}

// Writes the slot of each number, one behind the other; words after the last slot stay. 24, and nothing is written, where fewer than
// twelve words a number are lent: that is tested before any node.
pub fn page(
    bytes: &[u8],
    view: ImageView,
    numbers: &[u32],
    slots: &mut [u32],
) -> Result<(), Refusal>
    ensures answer { refusal_in result ≡ page_rule (length numbers.now) (length slots.old) }
    ensures written { slots.new ≡ page_after (sections_by bytes.now view) numbers.now slots.old }
{
    if slots.len() / SLOT_WORDS < numbers.len() {
        return Err(Refusal::TooFewSlots);
    }
    for (k, number) in numbers.iter().enumerate() {
        put_slot(bytes, view, *number, &mut slots[SLOT_WORDS * k..]);
    }
    Ok(())
}

// The node that a slot's words are.
fn slot_record(slot: &[u32]) -> NodeRecord
    requires { common_words ≤ length slot.now }
    ensures { result ≡ slot_record slot.now }
{
    NodeRecord {
        parent: slot[NodeRecord::PARENT],
        place: slot[NodeRecord::PLACE],
        tag: slot[NodeRecord::TAG],
        f0: slot[NodeRecord::F0],
        f1: slot[NodeRecord::F1],
        f2: slot[NodeRecord::F2],
        f3: slot[NodeRecord::F3],
        f4: slot[NodeRecord::F4],
        f5: slot[NodeRecord::F5],
        f6: slot[NodeRecord::F6],
    }
}

// The view of a slot's words: of a slot that `page` wrote, what `node_view` answers for its number. Nothing under ten words.
pub fn slot_view(bytes: &[u8], view: ImageView, slot: &[u32]) -> Option<NodeView>
    ensures { result ≡ slot_view (sections_by bytes.now view) slot.now }
{
    if slot.len() < RECORD_WORDS {
        return None;
    }
    let payload = image::section_part(bytes, view.payload, ImageView::PAYLOAD_SIZE);
    let strings = image::section_part(bytes, view.strings, ImageView::STRINGS_SIZE);
    views::view::record_view(slot_record(slot), payload.len(), strings)
}
