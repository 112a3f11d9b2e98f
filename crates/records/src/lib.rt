// The record rules, over a record by value: load and writer use the same functions.
#![tactic(auto)]

mod list; // list.rt: a list's payload

ghost use Rattle.std.specs.Prelude.{◌≡◌, true, ◌||◌, ◌<◌, leb};
ghost use Rattle.laws.specs.Refusal.{unless};
ghost use Rattle.image.specs.Refusals.{refusal_in};
ghost use Rattle.words.specs.Words.{is_none};
ghost use Rattle.texts.specs.Text.{holds};
ghost use Rattle.names.specs.Names.{commands, operators};
ghost use Rattle.image.specs.Sections.{good_bytes, inside_among};
ghost use Rattle.image.specs.Refusals.{bad_tag};
ghost use Rattle.records.specs.Fields.{kind_of};
ghost use Rattle.records.specs.Records.{target_in};
ghost use Rattle.records.specs.Shown.{container_among, starts_next};
ghost use Rattle.records.specs.Shown.{container_rule, choice_rule, divert_rule, text_rule, target_rule, assignment_rule, reference_rule, list_rule};
ghost use Rattle.records.specs.Shown.{fields_by, parent_by, root_by, sums_after, used_up_by};

use image::refusal::Refusal;
use image::{EntryCounts, NONE, NodeRecord, is_inside, tag};

// Sums over the nodes before a node: ordered children, named children, bytes of payload, containers.
#[derive(Clone, Copy)]
pub struct Sums {
    pub children: usize,
    pub named: usize,
    pub payload: usize,
    pub containers: usize,
}

// The node that the record's target field names, NONE for a kind that has no target.
pub fn target_of(node: NodeRecord) -> u32
    ensures { result ≡ target_in node (kind_of node.tag) }
{
    let node_tag = node.tag;
    match node_tag {
        tag::CHOICE | tag::DIVERT | tag::TARGET_VALUE => node.f2,
        tag::REFERENCE => node.f4,
        _ => NONE,
    }
}

// Whether a word is absent or a node.
pub fn is_optional_node(nodes: usize, word: u32) -> bool
    ensures { result ≡ (is_none word || inside_among nodes word) }
{
    if word == NONE {
        true
    } else {
        is_inside(nodes, word)
    }
}

// Whether a node number is in the table and the tag, which is that node's, is a container's.
pub fn is_container(nodes: usize, n: u32, node_tag: u32) -> bool
    ensures { result ≡ container_among nodes n node_tag }
{
    if node_tag != tag::CONTAINER {
        return false;
    }
    is_inside(nodes, n)
}

// Whether a word is absent or a container.
pub fn is_optional_container(nodes: usize, word: u32, node_tag: u32) -> bool
    ensures { result ≡ (is_none word || container_among nodes word node_tag) }
{
    if word == NONE {
        return true;
    }
    is_container(nodes, word, node_tag)
}

// Whether a range begins where those before it end, and ends inside its section.
fn is_next(start: u32, count: u32, before: usize, all: usize) -> bool
    ensures { result ≡ starts_next start count before all }
{
    let from = start as usize;
    if all < from + count as usize {
        return false;
    }
    from == before
}

// A word that is at most so much.
pub fn at_most(word: u32, most: u32) -> Result<(), Refusal>
    ensures { refusal_in result ≡ unless (leb word most) bad_tag }
{
    if word <= most {
        Ok(())
    } else {
        Err(Refusal::BadTag)
    }
}

// The rules by kind. `whole` says that the strings are known to be good as a whole, as `image::good_within` takes it.

// A container: an optional name, then its ranges of ordered and of named children.
pub fn container(
    node: NodeRecord,
    counts: EntryCounts,
    sums: Sums,
    strings: &[u8],
    whole: bool,
) -> Result<(), Refusal>
    requires { whole ≡ true → good_bytes strings.now ≡ true }
    ensures { refusal_in result ≡ container_rule node counts sums strings.now }
{
    if !image::good_optional(strings, node.f0, node.f1, whole) {
        return Err(Refusal::BadText);
    }
    if !is_next(node.f3, node.f4, sums.children, counts.children) {
        return Err(Refusal::BadRange);
    }
    if !is_next(node.f5, node.f6, sums.named, counts.named) {
        return Err(Refusal::BadRange);
    }
    Ok(())
}

// A choice: an optional path, then the container that it leads to.
pub fn choice(
    node: NodeRecord,
    nodes: usize,
    target_tag: u32,
    strings: &[u8],
    whole: bool,
) -> Result<(), Refusal>
    requires { whole ≡ true → good_bytes strings.now ≡ true }
    ensures { refusal_in result ≡ choice_rule node nodes target_tag strings.now }
{
    if !image::good_optional(strings, node.f0, node.f1, whole) {
        return Err(Refusal::BadText);
    }
    if !is_container(nodes, node.f2, target_tag) {
        return Err(Refusal::BadNode);
    }
    Ok(())
}

// A divert: an optional path, an optional node, an optional variable, flags.
pub fn divert(node: NodeRecord, nodes: usize, strings: &[u8], whole: bool) -> Result<(), Refusal>
    requires { whole ≡ true → good_bytes strings.now ≡ true }
    ensures { refusal_in result ≡ divert_rule node nodes strings.now }
{
    if !image::good_optional(strings, node.f0, node.f1, whole) {
        return Err(Refusal::BadText);
    }
    if !is_optional_node(nodes, node.f2) {
        return Err(Refusal::BadNode);
    }
    if !image::good_optional(strings, node.f3, node.f4, whole) {
        return Err(Refusal::BadText);
    }
    at_most(node.f6, 23)
}

// Whether the text is the known name of a command.
fn is_command(name: &[u8]) -> bool
    ensures { result ≡ holds commands name.now }
{
    names::control_command::command_number(name).is_some()
}

// Whether the text is the known name of an operator.
fn is_operator(name: &[u8]) -> bool
    ensures { result ≡ holds operators name.now }
{
    names::native_function_call::operator_number(name).is_some()
}

// A kind that is a text alone: of a command or an operator, by the tag, its known name.
pub fn text_only(
    text_tag: u32,
    offset: u32,
    len: u32,
    strings: &[u8],
    whole: bool,
) -> Result<(), Refusal>
    requires { whole ≡ true → good_bytes strings.now ≡ true }
    ensures { refusal_in result ≡ text_rule text_tag offset len strings.now }
{
    if !image::good_within(strings, offset, len, whole) {
        return Err(Refusal::BadText);
    }
    let name = image::text_part(strings, offset, len);
    if text_tag == tag::COMMAND {
        if is_command(name) {
            return Ok(());
        }
        return Err(Refusal::BadTag);
    }
    if text_tag == tag::OPERATOR {
        if is_operator(name) {
            return Ok(());
        }
        return Err(Refusal::BadTag);
    }
    Ok(())
}

// A divert target: a text, then a node.
pub fn target_value(
    node: NodeRecord,
    nodes: usize,
    strings: &[u8],
    whole: bool,
) -> Result<(), Refusal>
    requires { whole ≡ true → good_bytes strings.now ≡ true }
    ensures { refusal_in result ≡ target_rule node nodes strings.now }
{
    if !image::good_within(strings, node.f0, node.f1, whole) {
        return Err(Refusal::BadText);
    }
    if !is_inside(nodes, node.f2) {
        return Err(Refusal::BadNode);
    }
    Ok(())
}

// An assignment: a text, then flags.
pub fn assignment(node: NodeRecord, strings: &[u8], whole: bool) -> Result<(), Refusal>
    requires { whole ≡ true → good_bytes strings.now ≡ true }
    ensures { refusal_in result ≡ assignment_rule node strings.now }
{
    if !image::good_within(strings, node.f0, node.f1, whole) {
        return Err(Refusal::BadText);
    }
    at_most(node.f2, 3)
}

// A reference: a name, an optional path, an optional container.
pub fn reference(
    node: NodeRecord,
    nodes: usize,
    target_tag: u32,
    strings: &[u8],
    whole: bool,
) -> Result<(), Refusal>
    requires { whole ≡ true → good_bytes strings.now ≡ true }
    ensures { refusal_in result ≡ reference_rule node nodes target_tag strings.now }
{
    if !image::good_within(strings, node.f0, node.f1, whole) {
        return Err(Refusal::BadText);
    }
    if !image::good_optional(strings, node.f2, node.f3, whole) {
        return Err(Refusal::BadText);
    }
    if !is_optional_container(nodes, node.f4, target_tag) {
        return Err(Refusal::BadNode);
    }
    Ok(())
}

// A list value: its payload begins where those before it end, and keeps its rules.
pub fn list_value(
    node: NodeRecord,
    sums: Sums,
    payload: &[u8],
    strings: &[u8],
) -> Result<(), Refusal>
    ensures { refusal_in result ≡ list_rule node sums payload.now strings.now }
{
    let start = node.f0 as usize;
    if start != sums.payload {
        return Err(Refusal::BadRange);
    }
    list::payload_rule(payload, strings, node.f0, node.f1)
}

// The refusal of the first field rule that the node breaks. The tag is that of the node's target, 0 where there is none.
pub fn fields_rule(
    node: NodeRecord,
    counts: EntryCounts,
    sums: Sums,
    target_tag: u32,
    payload: &[u8],
    strings: &[u8],
) -> Result<(), Refusal>
    ensures { refusal_in result ≡ fields_by (kind_of node.tag) node counts sums target_tag payload.now strings.now }
{
    let node_tag = node.tag;
    match node_tag {
        tag::CONTAINER => container(node, counts, sums, strings, false),
        tag::CHOICE => choice(node, counts.nodes, target_tag, strings, false),
        tag::DIVERT => divert(node, counts.nodes, strings, false),
        tag::GLUE | tag::VOID => Ok(()),
        tag::COMMAND | tag::STRING_VALUE | tag::POINTER_VALUE => {
            text_only(node_tag, node.f0, node.f1, strings, false)
        }
        tag::OPERATOR..=tag::TAG => text_only(node_tag, node.f0, node.f1, strings, false),
        tag::BOOL_VALUE => at_most(node.f0, 1),
        tag::INT_VALUE..=tag::FLOAT_VALUE => Ok(()),
        tag::LIST_VALUE => list_value(node, sums, payload, strings),
        tag::TARGET_VALUE => target_value(node, counts.nodes, strings, false),
        tag::ASSIGNMENT => assignment(node, strings, false),
        tag::REFERENCE => reference(node, counts.nodes, target_tag, strings, false),
        _ => Err(Refusal::BadTag),
    }
}

// The root is a container that has no parent and no place.
pub fn root_right(root: NodeRecord) -> bool
    ensures { result ≡ root_by root }
{
    if root.parent != NONE {
        return false;
    }
    if root.place != NONE {
        return false;
    }
    root.tag == tag::CONTAINER
}

// The refusal of the parent's rule, where node `i` of so many breaks it. The tag is that of the node in the parent word, 0 where there is none.
pub fn parent_rule(node: NodeRecord, i: usize, nodes: usize, parent_tag: u32) -> Result<(), Refusal>
    ensures { refusal_in result ≡ parent_by i node nodes parent_tag }
{
    if i == 0 {
        return Ok(());
    }
    if !is_container(nodes, node.parent, parent_tag) {
        return Err(Refusal::BadNode);
    }
    if node.parent as usize == i {
        return Err(Refusal::BadNode);
    }
    Ok(())
}

// The sums before the node after this one, whose field rules pass.
pub fn add(sums: Sums, node: NodeRecord) -> Sums
    requires { sums.containers < 18446744073709551615 }
    ensures { result ≡ sums_after sums node }
{
    let node_tag = node.tag;
    match node_tag {
        tag::CONTAINER => Sums {
            children: node.f3 as usize + node.f4 as usize,
            named: node.f5 as usize + node.f6 as usize,
            payload: sums.payload,
            containers: sums.containers + 1,
        },
        tag::LIST_VALUE => Sums {
            children: sums.children,
            named: sums.named,
            payload: node.f0 as usize + node.f1 as usize,
            containers: sums.containers,
        },
        _ => sums,
    }
}

// Nothing is left over in children, named children and payload.
pub fn used_up(sums: Sums, counts: EntryCounts) -> bool
    ensures { result ≡ used_up_by sums counts }
{
    if sums.children != counts.children {
        return false;
    }
    if sums.named != counts.named {
        return false;
    }
    sums.payload == counts.payload
}
