// Row 19: a draft's tables. Every record rule holds, every text is good, and every number that should be a node's is one. The strings are tested as
// a whole first: `whole` says that they are good, and the texts of nodes and named entries are then tested by their ends.
ghost use Rattle.std.specs.Prelude.{◌≡◌, [], true, ◌||◌, eqb};
ghost use Rattle.laws.specs.Refusal.{unless, ◌▸◌, first_of};
ghost use Rattle.image.specs.Refusals.{refusal_in};
ghost use Rattle.image.specs.Sections.{inside_among, node_count, child_count, named_count, definition_count, item_count, good_bytes, good_in};
ghost use Rattle.image.specs.Refusals.{bad_draft};
ghost use Rattle.records.specs.Fields.{kind_of};
ghost use Rattle.records.specs.Records.{target_in, used_up};
ghost use Rattle.records.specs.Shown.{tag_in, starts_next, fields_by};
ghost use Rattle.definitions.specs.Definitions.{items_used_up};
ghost use Rattle.draft.specs.Source.{drafted, draft_of};
ghost use Rattle.draft.specs.Draft.{whole_entries, draft_child_rule, draft_named_rule, draft_definition_rule, draft_item_rule, tables_rule};
ghost use Rattle.draft.specs.PathList.{path_node_rule, path_tables_rule};
ghost use Rattle.draft.specs.PathEntries.{follower_right, record_right};

use crate::path_list::WINDOW_WORDS;
use crate::source::{Draft, Source};
use crate::{entry_counts, path_list, source};
use image::refusal::Refusal;
use image::{Definition, EntryCounts, ImageView, NodeRecord, TextEntry, tag};
use records::Sums;

// Whether each section is whole entries, and there is a node.
fn whole_entries(
    nodes: &[u32],
    named: &[u32],
    definitions: &[u32],
    items: &[u32],
    source: Source,
) -> bool
    ensures { let s = draft_of source.version nodes.now [] named.now definitions.now items.now [] [] in
        result ≡ whole_entries s }
{
    if nodes.len() % source::node_words(source) != 0 {
        return false;
    }
    if named.len() % ImageView::TEXT_ENTRY_WORDS != 0 {
        return false;
    }
    if definitions.len() % ImageView::DEFINITION_WORDS != 0 {
        return false;
    }
    if items.len() % ImageView::TEXT_ENTRY_WORDS != 0 {
        return false;
    }
    source::node_count(nodes, source) != 0
}

// Whether the fields of a node that follows a path are right, its target aside.
fn follower_right(node: NodeRecord, strings: &[u8], whole: bool) -> bool
    requires { whole ≡ true → good_bytes strings.now ≡ true }
    ensures { result ≡ follower_right node strings.now }
{
    let node_tag = node.tag;
    match node_tag {
        tag::CHOICE => image::good_optional(strings, node.f0, node.f1, whole),
        tag::DIVERT => {
            if !image::good_optional(strings, node.f0, node.f1, whole) {
                return false;
            }
            node.f6 <= 23
        }
        tag::REFERENCE => {
            if !image::good_within(strings, node.f0, node.f1, whole) {
                return false;
            }
            image::good_optional(strings, node.f2, node.f3, whole)
        }
        _ => image::good_within(strings, node.f0, node.f1, whole),
    }
}

// The rules of the fields of a node that follows no path: the tag of its target is read only for a kind that asks for it.
fn own_rule(
    nodes: &[u32],
    payload: &[u8],
    strings: &[u8],
    counts: EntryCounts,
    sums: Sums,
    node: NodeRecord,
    source: Source,
    whole: bool,
) -> Result<(), Refusal>
    requires { whole ≡ true → good_bytes strings.now ≡ true }
    ensures { refusal_in result ≡ fields_by (kind_of node.tag) node counts sums
        (tag_in (draft_of source.version nodes.now [] [] [] [] [] []) (target_in node (kind_of node.tag)))
        payload.now strings.now }
{
    let node_tag = node.tag;
    match node_tag {
        tag::CONTAINER => records::container(node, counts, sums, strings, whole),
        tag::CHOICE => records::choice(
            node,
            counts.nodes,
            source::tag_at(nodes, node.f2, source),
            strings,
            whole,
        ),
        tag::DIVERT => records::divert(node, counts.nodes, strings, whole),
        tag::GLUE | tag::VOID => Ok(()),
        tag::COMMAND | tag::STRING_VALUE | tag::POINTER_VALUE => {
            records::text_only(node_tag, node.f0, node.f1, strings, whole)
        }
        tag::OPERATOR..=tag::TAG => records::text_only(node_tag, node.f0, node.f1, strings, whole),
        tag::BOOL_VALUE => records::at_most(node.f0, 1),
        tag::INT_VALUE..=tag::FLOAT_VALUE => Ok(()),
        tag::LIST_VALUE => records::list_value(node, sums, payload, strings),
        tag::TARGET_VALUE => records::target_value(node, counts.nodes, strings, whole),
        tag::ASSIGNMENT => records::assignment(node, strings, whole),
        tag::REFERENCE => records::reference(
            node,
            counts.nodes,
            source::tag_at(nodes, node.f4, source),
            strings,
            whole,
        ),
        _ => Err(Refusal::BadTag),
    }
}

// Whether the fields of a node are right, the target aside if it follows a path.
fn fields_right(
    nodes: &[u32],
    payload: &[u8],
    strings: &[u8],
    counts: EntryCounts,
    sums: Sums,
    node: NodeRecord,
    follow: bool,
    source: Source,
    whole: bool,
) -> bool
    requires { whole ≡ true → good_bytes strings.now ≡ true }
    ensures { result ≡ record_right follow node counts sums
        (tag_in (draft_of source.version nodes.now [] [] [] [] [] []) (target_in node (kind_of node.tag)))
        payload.now strings.now }
{
    if follow {
        return follower_right(node, strings, whole);
    }
    own_rule(nodes, payload, strings, counts, sums, node, source, whole).is_ok()
}

// The rules of node `i`: those of its fields, the target aside if it follows a path, and that its parent is a node, the root aside.
fn node_rule(
    nodes: &[u32],
    payload: &[u8],
    strings: &[u8],
    counts: EntryCounts,
    sums: Sums,
    i: usize,
    node: NodeRecord,
    follow: bool,
    source: Source,
    whole: bool,
) -> Result<(), Refusal>
    requires { whole ≡ true → good_bytes strings.now ≡ true }
    ensures { refusal_in result ≡ (unless (record_right follow node counts sums
        (tag_in (draft_of source.version nodes.now [] [] [] [] [] []) (target_in node (kind_of node.tag)))
        payload.now strings.now) bad_draft
        ▸ unless (eqb i 0 || inside_among counts.nodes node.parent) bad_draft) }
{
    if !fields_right(
        nodes, payload, strings, counts, sums, node, follow, source, whole,
    ) {
        return Err(Refusal::BadDraft);
    }
    if i == 0 {
        return Ok(());
    }
    if image::is_inside(counts.nodes, node.parent) {
        Ok(())
    } else {
        Err(Refusal::BadDraft)
    }
}

// The rules of every node, and that they use up the ordered children, the named ones and the payload.
fn nodes_rule(draft: Draft, paths: &[u32], source: Source, whole: bool) -> Result<(), Refusal>
    requires { whole ≡ true → good_bytes draft.strings.now ≡ true }
    ensures { let s = drafted source.version draft.entry in
        refusal_in result ≡ (first_of (node_count s) (path_node_rule s paths.now) ▸ unless (used_up s) bad_draft) }
{
    let counts = entry_counts(draft, source);
    let mut sums = Sums {
        children: 0,
        named: 0,
        payload: 0,
        containers: 0,
    };
    let mut hint = path_list::first_hint(paths);
    let mut window = [0; WINDOW_WORDS];
    for i in 0..counts.nodes {
        path_list::window_for(paths, i, hint.rises, &mut window);
        let node = source::node_at(draft.nodes, i, source);
        let follow = path_list::follows(paths, i, hint, &window, node);
        node_rule(
            draft.nodes,
            draft.payload,
            draft.strings,
            counts,
            sums,
            i,
            node,
            follow,
            source,
            whole,
        )?;
        sums = records::add(sums, node);
        let next = path_list::next_hint(paths, i, hint);
        hint.next = next;
    }
    if records::used_up(sums, counts) {
        Ok(())
    } else {
        Err(Refusal::BadDraft)
    }
}

// Every ordered child is a node.
fn children_rule(nodes: &[u32], children: &[u32], source: Source) -> Result<(), Refusal>
    ensures { let s = draft_of source.version nodes.now children.now [] [] [] [] [] in
        refusal_in result ≡ first_of (child_count s) (draft_child_rule s) }
{
    let count = source::node_count(nodes, source);
    for child in children {
        if !image::is_inside(count, *child) {
            return Err(Refusal::BadDraft);
        }
    }
    Ok(())
}

// A named entry, where there are so many nodes: its text is good, and it names a node.
fn entry_rule(entry: TextEntry, nodes: usize, strings: &[u8], whole: bool) -> Result<(), Refusal>
    requires { whole ≡ true → good_bytes strings.now ≡ true }
    ensures { refusal_in result ≡ (unless (good_in strings.now entry.offset entry.len) bad_draft
        ▸ unless (inside_among nodes entry.value) bad_draft) }
{
    if !image::good_within(strings, entry.offset, entry.len, whole) {
        return Err(Refusal::BadDraft);
    }
    if image::is_inside(nodes, entry.value) {
        Ok(())
    } else {
        Err(Refusal::BadDraft)
    }
}

// The rules of every named entry.
fn named_rule(
    nodes: &[u32],
    named: &[u32],
    strings: &[u8],
    source: Source,
    whole: bool,
) -> Result<(), Refusal>
    requires { whole ≡ true → good_bytes strings.now ≡ true }
    ensures { let s = draft_of source.version nodes.now [] named.now [] [] [] strings.now in
        refusal_in result ≡ first_of (named_count s) (draft_named_rule s) }
{
    let nodes = source::node_count(nodes, source);
    let count = named.len() / ImageView::TEXT_ENTRY_WORDS;
    for j in 0..count {
        entry_rule(source::entry_at(named, j), nodes, strings, whole)?;
    }
    Ok(())
}

// A definition, where the ones before it use so many of all the items: its text is good, and its items follow theirs.
fn definition_rule(
    definition: Definition,
    used: usize,
    items: usize,
    strings: &[u8],
) -> Result<(), Refusal>
    ensures { refusal_in result ≡ (unless (good_in strings.now definition.offset definition.len) bad_draft
        ▸ unless (starts_next definition.first definition.count used items) bad_draft) }
{
    if !image::good_text(strings, definition.offset, definition.len) {
        return Err(Refusal::BadDraft);
    }
    let first = definition.first as usize;
    if items < first + definition.count as usize {
        return Err(Refusal::BadDraft);
    }
    if first == used {
        Ok(())
    } else {
        Err(Refusal::BadDraft)
    }
}

// The rules of every definition, and that they use up the items.
fn definitions_rule(definitions: &[u32], items: &[u32], strings: &[u8]) -> Result<(), Refusal>
    ensures { let s = draft_of 0 [] [] [] definitions.now items.now [] strings.now in
        refusal_in result ≡ (first_of (definition_count s) (draft_definition_rule s) ▸ unless (items_used_up s) bad_draft) }
{
    let count = definitions.len() / ImageView::DEFINITION_WORDS;
    let all = items.len() / ImageView::TEXT_ENTRY_WORDS;
    let mut used = 0;
    for d in 0..count {
        let definition = source::definition_at(definitions, d);
        definition_rule(definition, used, all, strings)?;
        used = definition.first as usize + definition.count as usize;
    }
    if used == all {
        Ok(())
    } else {
        Err(Refusal::BadDraft)
    }
}

// The text of every item is good.
fn items_rule(items: &[u32], strings: &[u8]) -> Result<(), Refusal>
    ensures { let s = draft_of 0 [] [] [] [] items.now [] strings.now in refusal_in result ≡ first_of (item_count s) (draft_item_rule s) }
{
    let count = items.len() / ImageView::TEXT_ENTRY_WORDS;
    for j in 0..count {
        let item = source::entry_at(items, j);
        if !image::good_text(strings, item.offset, item.len) {
            return Err(Refusal::BadDraft);
        }
    }
    Ok(())
}

// Row 19; of the nodes that follow a path of the list, the target is not tested.
pub fn tables_rule(draft: Draft, paths: &[u32], source: Source) -> Result<(), Refusal>
    ensures { let s = drafted source.version draft.entry in
        refusal_in result ≡ path_tables_rule s paths.now }
{
    if !whole_entries(
        draft.nodes,
        draft.named,
        draft.definitions,
        draft.items,
        source,
    ) {
        return Err(Refusal::BadDraft);
    }
    let whole = image::good_bytes(draft.strings);
    nodes_rule(draft, paths, source, whole)?;
    children_rule(draft.nodes, draft.children, source)?;
    named_rule(draft.nodes, draft.named, draft.strings, source, whole)?;
    definitions_rule(draft.definitions, draft.items, draft.strings)?;
    items_rule(draft.items, draft.strings)
}

// Row 19 of a draft with no list of paths.
pub fn plain_tables_rule(draft: Draft, source: Source) -> Result<(), Refusal>
    ensures { let s =
        drafted source.version draft.entry in
        refusal_in result ≡ tables_rule s }
{
    tables_rule(draft, &draft.nodes[..0], source)
}
