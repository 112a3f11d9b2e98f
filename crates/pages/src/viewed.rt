// Whether a record has a view. What the view shows is not made, so that a page costs little more than copying its nodes' words.
ghost use Rattle.std.specs.Prelude.{◌≡◌, ◌+◌, ◌/◌, leb};
ghost use Rattle.records.specs.Fields.{kind_of};
ghost use Rattle.views.specs.View.{kind_view};
ghost use Rattle.views.specs.Shown.{command_view, operator_view};
ghost use Rattle.pages.specs.Viewed.{has_kind, fits_tag, text_fits};

use image::{NodeRecord, tag};
use views::view::is_shown;

// A divert's flags name a push type.
fn push_type_known(flags: u32) -> bool
    ensures { result ≡ leb (flags / 8) 2 }
{
    flags / 8 <= 2
}

// A list value lies inside a payload of so many bytes.
fn list_inside(payload: usize, start: u32, len: u32) -> bool
    ensures { result ≡ leb (start + len) payload }
{
    start as usize + len as usize <= payload
}

fn is_command(text: &[u8]) -> bool
    ensures { result ≡ has_kind (command_view text.now) }
{
    names::control_command::new_from_name(text).is_some()
}

fn is_operator(text: &[u8]) -> bool
    ensures { result ≡ has_kind (operator_view text.now) }
{
    names::native_function_call::new_from_name(text).is_some()
}

// A text that a kind may be made of: of a command and of an operator its name.
fn fits_tag(tag: u32, text: &[u8]) -> bool
    ensures { result ≡ fits_tag tag text.now }
{
    match tag {
        tag::COMMAND => is_command(text),
        tag::OPERATOR => is_operator(text),
        _ => true,
    }
}

// The same, where the text is present and inside.
fn text_fits(tag: u32, offset: u32, len: u32, strings: &[u8]) -> bool
    ensures { result ≡ text_fits tag offset len strings.now }
{
    if is_shown(strings.len(), offset, len) {
        fits_tag(tag, image::text_part(strings, offset, len))
    } else {
        false
    }
}

// One decision over the tag's number.
pub fn has_kind(node: NodeRecord, payload: usize, strings: &[u8]) -> bool
    ensures { result ≡ has_kind (kind_view strings.now payload node (kind_of node.tag)) }
{
    let tag = node.tag;
    match tag {
        tag::CONTAINER => true,
        tag::CHOICE => true,
        tag::DIVERT => push_type_known(node.f6),
        tag::GLUE => true,
        tag::BOOL_VALUE => true,
        tag::INT_VALUE => true,
        tag::FLOAT_VALUE => true,
        tag::LIST_VALUE => list_inside(payload, node.f0, node.f1),
        tag::COMMAND
        | tag::OPERATOR
        | tag::TAG
        | tag::STRING_VALUE
        | tag::TARGET_VALUE
        | tag::POINTER_VALUE
        | tag::ASSIGNMENT
        | tag::REFERENCE => { text_fits(tag, node.f0, node.f1, strings) }
        tag::VOID => true,
        _ => false,
    }
}
