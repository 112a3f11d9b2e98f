// A node's view in eight words: parent, place, kind, 1 where there is a text, 1 where there is a variable, target, value, flags. They are made
// of the words that the technician is given of the node's record.
// The functions `put_..` that answer a number answer that of the C interface: 0, or NOT_FOUND.
ghost use Rattle.std.specs.Prelude.{◌≡◌, ◌∷◌, ◌++◌, not, ◌≤◌, length, drop};
ghost use Rattle.words.specs.Words.{is_none};
ghost use Rattle.views.specs.View.{record_view};
ghost use Rattle.answers.specs.AnswerWords.{Answered, bit_if};
ghost use Rattle.notes.specs.Notes.{hide_in};
ghost use Rattle.sleeper.specs.Reader.{sleeper_sections};
ghost use Rattle.sleeper.specs.Seen.{view_seen, sleeper_view};
ghost use Rattle.sleeper.specs.NodeWords.{node_answer};
ghost use Rattle.sleeper.specs.RecordWords.{note_words, hidden_words, text_given, six_of};

use crate::SleeperView;
use crate::sections::{node_of, part, payload_length, with_places};
use answers::NOT_FOUND;
use answers::node::KindWords;
use image::{ImageView, NONE, NodeRecord, tag};

// Words of a node's view.
pub const NODE_VIEW_WORDS: usize = 8;

// Whether the words are those of a note to the technician.
fn is_note(kind: KindWords, strings: &[u8]) -> bool
    ensures { result ≡ note_words strings.now kind }
{
    if kind.tag != tag::TAG {
        return false;
    }
    let text = kind.text;
    notes::is_note(image::text_part(strings, text.offset, text.len))
}

// The words, of a note those of a void.
fn hide_note(kind: KindWords, strings: &[u8]) -> KindWords
    ensures { result ≡ hidden_words strings.now kind }
{
    if is_note(kind, strings) {
        answers::node::value_alone(tag::VOID, 0)
    } else {
        kind
    }
}

// 1 for an offset that is not NONE.
fn given(offset: u32) -> u32
    ensures { result ≡ bit_if (not (is_none offset)) 1 }
{
    if offset == NONE { 0 } else { 1 }
}

// 1 where there is a text. What a list has is in the payload.
fn text_given(tag: u32, offset: u32) -> u32
    ensures { result ≡ bit_if (text_given tag offset) 1 }
{
    if tag == tag::LIST_VALUE {
        0
    } else {
        given(offset)
    }
}

// Writes the eight words at the start of a slice that holds them.
fn put_eight(parent: u32, place: u32, kind: KindWords, out: &mut [u32])
    requires { 8 ≤ length out.old }
    ensures { out.new ≡ (parent ∷ place ∷ six_of kind) ++ drop 8 out.old }
{
    out[0] = parent;
    out[1] = place;
    out[2] = kind.tag;
    out[3] = text_given(kind.tag, kind.text.offset);
    out[4] = given(kind.variable.offset);
    out[5] = kind.target;
    out[6] = kind.value;
    out[7] = kind.flags;
}

// The words of a record's view, beside a payload of so many bytes and the strings.
fn put_record_view(node: NodeRecord, payload: usize, strings: &[u8], answer: &mut [u32]) -> u32
    ensures { let s = strings.now in
        Answered (node_answer (view_seen (hide_in s (record_view s payload node)))) answer.old answer.new result }
{
    if answer.len() < NODE_VIEW_WORDS {
        return NOT_FOUND;
    }
    match answers::node::kind_words(node, payload, strings) {
        None => NOT_FOUND,
        Some(kind) => {
            put_eight(node.parent, node.place, hide_note(kind, strings), answer);
            0
        }
    }
}

// The words of a node's view.
pub fn put_node_view(bytes: &[u8], view: SleeperView, id: u32, answer: &mut [u32]) -> u32
    ensures { let a = node_answer (sleeper_view (sleeper_sections bytes.now view) id) in
        Answered a answer.old answer.new result }
{
    let whole = with_places(bytes.len(), view);
    match node_of(bytes, whole, id) {
        None => NOT_FOUND,
        Some(node) => {
            let strings = part(bytes, whole.strings, ImageView::STRINGS_SIZE);
            put_record_view(node, payload_length(whole), strings, answer)
        }
    }
}
