// A node's view in ten words: parent, place, kind, text, text_length, variable, variable_length, target, value, flags. They are taken
// straight from the node's record, by one decision over its tag; laws say that they are the words of the view.
// The functions `put_..` answer the number that the C interface gives: 0, or NOT_FOUND.
ghost use Rattle.std.specs.Prelude.{◌≡◌, not, ◌≤◌, ◌∷◌, ◌++◌, eqb, length, drop};
ghost use Rattle.image.specs.Header.{sections_by};
ghost use Rattle.records.specs.Fields.{kind_of};
ghost use Rattle.views.specs.View.{kind_view, record_view, node_view};
ghost use Rattle.views.specs.Shown.{container_view, divert_view, list_view, with_name, text_kind};
ghost use Rattle.answers.specs.AnswerWords.{Answered, bit_if};
ghost use Rattle.answers.specs.NodeViewWords.{node_answer};
ghost use Rattle.answers.specs.RecordWords.{eight_of, words_found, words_of_kind, text_alone, value_alone, number_found, fields_of};

use crate::{NOT_FOUND, no_span, span_or};
use image::{ImageView, NONE, NodeRecord, tag};
use views::Span;

// Words of a node's view.
pub const NODE_VIEW_WORDS: usize = 10;

// The words of a node's view from the third on.
#[derive(Clone, Copy)]
pub struct KindWords {
    pub tag: u32,
    pub text: Span,
    pub variable: Span,
    pub target: u32,
    pub value: u32,
    pub flags: u32,
}

// A kind that has no second text.
pub fn text_alone(tag: u32, text: Span, target: u32, value: u32, flags: u32) -> KindWords
    ensures { result ≡ text_alone tag text target value flags }
{
    KindWords {
        tag,
        text,
        variable: no_span(),
        target,
        value,
        flags,
    }
}

// A kind with a value alone, or with nothing.
pub fn value_alone(tag: u32, value: u32) -> KindWords
    ensures { result ≡ value_alone tag value }
{
    text_alone(tag, no_span(), NONE, value, 0)
}

// 1 for a word that is not 0.
fn bit_of(word: u32) -> u32
    ensures { result ≡ bit_if (not (eqb word 0)) 1 }
{
    if word == 0 { 0 } else { 1 }
}

// Name and flags.
fn container(node: NodeRecord, strings: usize) -> Option<KindWords>
    ensures { words_found result ≡ words_of_kind (container_view strings node) }
{
    let name = span_or(views::view::optional_text(strings, node.f0, node.f1));
    Some(text_alone(tag::CONTAINER, name, NONE, 0, node.f2))
}

// Path, variable, target, number of arguments, flags; none where the push type is unknown.
fn divert(node: NodeRecord, strings: usize) -> Option<KindWords>
    ensures { words_found result ≡ words_of_kind (divert_view strings node) }
{
    if 2 < node.f6 / 8 {
        return None;
    }
    let text = span_or(views::view::optional_text(strings, node.f0, node.f1));
    let variable = span_or(views::view::optional_text(strings, node.f3, node.f4));
    Some(KindWords {
        tag: tag::DIVERT,
        text,
        variable,
        target: node.f2,
        value: node.f5,
        flags: node.f6,
    })
}

// A command or operator, by the number of its name.
fn numbered(tag: u32, number: Option<u8>) -> Option<KindWords>
    ensures { result ≡ number_found tag number }
{
    let known = number?;
    Some(value_alone(tag, known as u32))
}

// The place of a list value, where it is inside the payload.
fn list(payload: usize, start: u32, len: u32) -> Option<KindWords>
    ensures { words_found result ≡ words_of_kind (list_view payload start len) }
{
    if start as usize + len as usize <= payload {
        Some(text_alone(tag::LIST_VALUE, Span { offset: start, len }, NONE, 0, 0))
    } else {
        None
    }
}

// A kind that is made of its text, by the tag and the fields that it may have. They are taken one by one, so that a record need not be
// laid down in memory for the call.
fn with_name(tag: u32, f2: u32, f4: u32, name: Span, strings: &[u8]) -> Option<KindWords>
    ensures { words_found result ≡ words_of_kind (with_name tag strings.now (fields_of tag 0 0 f2 f4) name) }
{
    let text = image::text_part(strings, name.offset, name.len);
    match tag {
        tag::COMMAND => numbered(tag::COMMAND, names::control_command::command_number(text)),
        tag::OPERATOR => numbered(
            tag::OPERATOR,
            names::native_function_call::operator_number(text),
        ),
        tag::TAG | tag::STRING_VALUE | tag::TARGET_VALUE => Some(text_alone(tag, name, NONE, 0, 0)),
        tag::POINTER_VALUE => Some(text_alone(tag::POINTER_VALUE, name, NONE, f2, 0)),
        tag::ASSIGNMENT => Some(text_alone(tag::ASSIGNMENT, name, NONE, 0, f2 % 4)),
        _ => Some(text_alone(tag::REFERENCE, name, f4, 0, 0)),
    }
}

// The same, where the text is present and inside.
fn text_kind(tag: u32, f0: u32, f1: u32, f2: u32, f4: u32, strings: &[u8]) -> Option<KindWords>
    ensures { words_found result ≡ words_of_kind (text_kind tag strings.now (fields_of tag f0 f1 f2 f4)) }
{
    let name = views::view::optional_text(strings.len(), f0, f1)?;
    with_name(tag, f2, f4, name, strings)
}

// The words of a record's kind: one decision over the tag's number. Kinds made of a text share one arm, so that the strings are not laid
// down in memory for a call.
pub fn kind_words(node: NodeRecord, payload: usize, strings: &[u8]) -> Option<KindWords>
    ensures { words_found result ≡ words_of_kind (kind_view strings.now payload node (kind_of node.tag)) }
{
    let tag = node.tag;
    match tag {
        tag::CONTAINER => container(node, strings.len()),
        tag::CHOICE => Some(text_alone(tag::CHOICE, no_span(), node.f2, 0, node.f3)),
        tag::DIVERT => divert(node, strings.len()),
        tag::GLUE => Some(value_alone(tag::GLUE, 0)),
        tag::BOOL_VALUE => Some(value_alone(tag::BOOL_VALUE, bit_of(node.f0))),
        tag::INT_VALUE => Some(value_alone(tag::INT_VALUE, node.f0)),
        tag::FLOAT_VALUE => Some(value_alone(tag::FLOAT_VALUE, node.f0)),
        tag::LIST_VALUE => list(payload, node.f0, node.f1),
        tag::COMMAND
        | tag::OPERATOR
        | tag::TAG
        | tag::STRING_VALUE
        | tag::TARGET_VALUE
        | tag::POINTER_VALUE
        | tag::ASSIGNMENT
        | tag::REFERENCE => { text_kind(tag, node.f0, node.f1, node.f2, node.f4, strings) }
        tag::VOID => Some(value_alone(tag::VOID, 0)),
        _ => None,
    }
}

// Writes the ten words at the start of a slice that holds them.
fn put_ten(parent: u32, place: u32, kind: KindWords, out: &mut [u32])
    requires { 10 ≤ length out.old }
    ensures { out.new ≡ (parent ∷ place ∷ eight_of kind) ++ drop 10 out.old }
{
    out[0] = parent;
    out[1] = place;
    out[2] = kind.tag;
    out[3] = kind.text.offset;
    out[4] = kind.text.len;
    out[5] = kind.variable.offset;
    out[6] = kind.variable.len;
    out[7] = kind.target;
    out[8] = kind.value;
    out[9] = kind.flags;
}

// The words of a record's view, beside a payload of so many bytes and the strings.
fn put_record_view(node: NodeRecord, payload: usize, strings: &[u8], answer: &mut [u32]) -> u32
    ensures { Answered (node_answer (record_view strings.now payload node)) answer.old answer.new result }
{
    if answer.len() < NODE_VIEW_WORDS {
        return NOT_FOUND;
    }
    match kind_words(node, payload, strings) {
        None => NOT_FOUND,
        Some(kind) => {
            put_ten(node.parent, node.place, kind, answer);
            0
        }
    }
}

// The words of a node's view.
pub fn put_node_view(bytes: &[u8], view: ImageView, id: u32, answer: &mut [u32]) -> u32
    ensures { Answered (node_answer (node_view (sections_by bytes.now view) id)) answer.old answer.new result }
{
    match views::entries::node_of(bytes, view, id) {
        None => NOT_FOUND,
        Some(node) => {
            let payload = image::section_part(bytes, view.payload, ImageView::PAYLOAD_SIZE);
            let strings = image::section_part(bytes, view.strings, ImageView::STRINGS_SIZE);
            put_record_view(node, payload.len(), strings, answer)
        }
    }
}
