// The view of a node: a function of its record and of the bounds of payload and strings.
ghost use Rattle.std.specs.Prelude.{◌≡◌};
ghost use Rattle.std.specs.Float.{binary32};
ghost use Rattle.std.specs.Float.Ieee.{of_bits};
ghost use Rattle.records.specs.Fields.{kind_of};
ghost use Rattle.image.specs.Header.{sections_by};
ghost use Rattle.views.specs.View.{signed, shown, optional_text, optional_word, push_type, kind_view, record_view, node_view};
ghost use Rattle.views.specs.Shown.{text_kind, with_name, container_view, divert_view, command_view, operator_view, list_view};

use crate::entries::node_of;
use crate::{NodeKindView, NodeView, PushPopType, Span, ValueView};
use image::{ImageView, NONE, NodeRecord, tag};

// The number that these bits are, taken as signed.
pub fn signed_of(word: u32) -> i32
    ensures { result ≡ signed word }
{
    if word < 2147483648 {
        word as i32
    } else {
        let rest = 4294967295 - word;
        !(rest as i32)
    }
}

// The number that these bits stand for; every pattern of a NaN gives the one NaN.
fn float_of(bits: u32) -> f32
    ensures { result ≡ of_bits binary32 bits }
{
    if 2139095040 < bits % 2147483648 {
        0.0 / 0.0
    } else {
        f32::from_bits(bits)
    }
}

// Whether a text is present and inside strings of so many bytes. Whether it is UTF-8 is not asked.
pub fn is_shown(strings: usize, offset: u32, len: u32) -> bool
    ensures { result ≡ shown strings offset len }
{
    if offset == NONE {
        return false;
    }
    if len == NONE {
        return false;
    }
    offset as usize + len as usize <= strings
}

// A text, if it is present and inside.
pub fn optional_text(strings: usize, offset: u32, len: u32) -> Option<Span>
    ensures { result ≡ optional_text strings offset len }
{
    if is_shown(strings, offset, len) {
        Some(Span { offset, len })
    } else {
        None
    }
}

// A word, if it is present.
fn optional_word(word: u32) -> Option<u32>
    ensures { result ≡ optional_word word }
{
    if word == NONE { None } else { Some(word) }
}

// What a divert pushes, by the number in its flags.
fn push_type(n: u32) -> PushPopType
    ensures { result ≡ push_type n }
{
    match n {
        0 => PushPopType::Tunnel,
        1 => PushPopType::Function,
        _ => PushPopType::FunctionEvaluationFromGame,
    }
}

// A container by its record: its optional name and its flags.
fn container(node: NodeRecord, strings: usize) -> Option<NodeKindView>
    ensures { result ≡ container_view strings node }
{
    let count_flags = signed_of(node.f2);
    let name = optional_text(strings, node.f0, node.f1);
    Some(NodeKindView::Container { count_flags, name })
}

// A divert by its record: where it leads, and what its flags say.
fn divert(node: NodeRecord, strings: usize) -> Option<NodeKindView>
    ensures { result ≡ divert_view strings node }
{
    let flags = node.f6;
    let stack = flags / 8;
    if 2 < stack {
        return None;
    }
    let path = optional_text(strings, node.f0, node.f1);
    let target = optional_word(node.f2);
    let variable_name = optional_text(strings, node.f3, node.f4);
    let stack_push_type = push_type(stack);
    Some(NodeKindView::Divert {
        path,
        target,
        variable_name,
        external_args: node.f5,
        conditional: flags % 2 != 0,
        external: flags / 2 % 2 != 0,
        pushes_to_stack: flags / 4 % 2 != 0,
        stack_push_type,
    })
}

// The command that a text names.
fn command(name: &[u8]) -> Option<NodeKindView>
    ensures { result ≡ command_view name.now }
{
    let command = names::control_command::new_from_name(name)?;
    Some(NodeKindView::ControlCommand(command))
}

// The operator that a text names.
fn operator(name: &[u8]) -> Option<NodeKindView>
    ensures { result ≡ operator_view name.now }
{
    let op = names::native_function_call::new_from_name(name)?;
    Some(NodeKindView::NativeFunction(op))
}

// A list value, if its payload is inside.
fn list(payload: usize, start: u32, len: u32) -> Option<NodeKindView>
    ensures { result ≡ list_view payload start len }
{
    if start as usize + len as usize <= payload {
        Some(NodeKindView::Value(ValueView::List(Span { offset: start, len })))
    } else {
        None
    }
}

// A kind that is made of its text, by the tag.
fn with_name(node: NodeRecord, name: Span, strings: &[u8]) -> Option<NodeKindView>
    ensures { result ≡ with_name node.tag strings.now node name }
{
    let node_tag = node.tag;
    let flags = node.f2;
    match node_tag {
        tag::COMMAND => command(image::text_part(strings, name.offset, name.len)),
        tag::OPERATOR => operator(image::text_part(strings, name.offset, name.len)),
        tag::TAG => Some(NodeKindView::Tag(name)),
        tag::STRING_VALUE => Some(NodeKindView::Value(ValueView::String(name))),
        tag::TARGET_VALUE => Some(NodeKindView::Value(ValueView::DivertTarget(name))),
        tag::POINTER_VALUE => Some(NodeKindView::Value(ValueView::VariablePointer {
            name,
            context_index: signed_of(flags),
        })),
        tag::ASSIGNMENT => Some(NodeKindView::VariableAssignment {
            name,
            global: flags % 2 != 0,
            new_declaration: flags / 2 % 2 != 0,
        }),
        _ => Some(NodeKindView::VariableReference {
            name,
            count_target: optional_word(node.f4),
        }),
    }
}

// The same, where the text is present and inside.
fn text_kind(node: NodeRecord, strings: &[u8]) -> Option<NodeKindView>
    ensures { result ≡ text_kind node.tag strings.now node }
{
    let name = optional_text(strings.len(), node.f0, node.f1)?;
    with_name(node, name, strings)
}

// The kind that a record gives: one decision over the tag's number.
fn kind_view(node: NodeRecord, payload: usize, strings: &[u8]) -> Option<NodeKindView>
    ensures { result ≡ kind_view strings.now payload node (kind_of node.tag) }
{
    let node_tag = node.tag;
    match node_tag {
        tag::CONTAINER => container(node, strings.len()),
        tag::CHOICE => Some(NodeKindView::ChoicePoint {
            flags: signed_of(node.f3),
            target: optional_word(node.f2),
        }),
        tag::DIVERT => divert(node, strings.len()),
        tag::GLUE => Some(NodeKindView::Glue),
        tag::COMMAND | tag::STRING_VALUE | tag::TARGET_VALUE => text_kind(node, strings),
        tag::OPERATOR..=tag::TAG => text_kind(node, strings),
        tag::BOOL_VALUE => Some(NodeKindView::Value(ValueView::Bool(node.f0 != 0))),
        tag::INT_VALUE => Some(NodeKindView::Value(ValueView::Int(signed_of(node.f0)))),
        tag::FLOAT_VALUE => Some(NodeKindView::Value(ValueView::Float {
            bits: node.f0,
            value: float_of(node.f0),
        })),
        tag::LIST_VALUE => list(payload, node.f0, node.f1),
        tag::POINTER_VALUE => text_kind(node, strings),
        tag::ASSIGNMENT..=tag::REFERENCE => text_kind(node, strings),
        tag::VOID => Some(NodeKindView::Void),
        _ => None,
    }
}

// The view of a node, beside a payload of so many bytes and the strings.
pub fn record_view(node: NodeRecord, payload: usize, strings: &[u8]) -> Option<NodeView>
    ensures { result ≡ record_view strings.now payload node }
{
    let kind = kind_view(node, payload, strings)?;
    let parent = optional_word(node.parent);
    let child_index = optional_word(node.place);
    Some(NodeView {
        parent,
        child_index,
        kind,
    })
}

// Node `id` as a reader sees it: its parent, its place and its kind.
pub fn node_view(bytes: &[u8], view: ImageView, id: u32) -> Option<NodeView>
    ensures { result ≡ node_view (sections_by bytes.now view) id }
{
    let node = node_of(bytes, view, id)?;
    let payload = image::section_part(bytes, view.payload, ImageView::PAYLOAD_SIZE);
    let strings = image::section_part(bytes, view.strings, ImageView::STRINGS_SIZE);
    record_view(node, payload.len(), strings)
}
