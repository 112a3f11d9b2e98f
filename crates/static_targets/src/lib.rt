// Targets found from paths: the nodes of a draft that follow a path of the list beside it get the node at its end as their target.
#![tactic(auto)]

ghost use Rattle.std.specs.Prelude.{◌≡◌, true, ◌/◌, length};
ghost use Rattle.laws.specs.Refusal.{◌▸◌};
ghost use Rattle.image.specs.Refusals.{refusal_in};
ghost use Rattle.image.specs.Header.{version};
ghost use Rattle.image.specs.Sections.{node_count};
ghost use Rattle.draft.specs.Source.{drafted, draft_of};
ghost use Rattle.draft.specs.Draft.{write_words, reach_rule, shape_rule};
ghost use Rattle.draft.specs.PathList.{list_right, path_tables_rule};
ghost use Rattle.draft_image.specs.Encode.{encode_work_after};
ghost use Rattle.walks.specs.Walk.{component_words};
ghost use Rattle.target_finding.specs.Targets.{resolve_rule, nodes_after, path_list};
ghost use Rattle.static_targets.specs.Late.{Late};

use draft::source::{Draft, Source};
use draft::{path_list, shape, source, tables};
use image::ImageView;
use image::header::ink_right;
use image::refusal::Refusal;
use target_finding::targets_rule;
use target_setting::set_targets;
use walks::COMPONENT_WORDS;

// Rules 20 and 21 of a draft whose tables are right, in exactly the work words that it needs: told at once where the draft stands in a tree, else
// by the writer's walk and its rule of the shape.
fn tree_rule(draft: Draft, paths: &[u32], work: &mut [u32], source: Source) -> Result<(), Refusal>
    requires { let s =
        drafted source.version draft in
        (path_tables_rule s paths.now ≡ 0) × (length work.old ≡ write_words s) }
    ensures { let s =
        drafted source.version draft.entry in
        refusal_in result ≡ (reach_rule s ▸ shape_rule s) }
{
    if draft_tree::stands(draft, work, source) {
        return Ok(());
    }
    let base = work.len() - 2 * source::node_count(draft.nodes, source);
    if !write_numbering::number(draft.nodes, draft.children, draft.named, work, base, source) {
        return Err(Refusal::DraftUnreached);
    }
    shape::shape_rule(draft, source)
}

// Rules 20, 21, 25 and 26 of a draft whose list and tables are right, in exactly the work words that it needs; if it keeps them, its targets
// are set.
fn resolve(
    nodes: &mut [u32],
    children: &[u32],
    named: &[u32],
    definitions: &[u32],
    items: &[u32],
    payload: &[u8],
    strings: &[u8],
    paths: &[u32],
    components: &[u32],
    names: &[u8],
    work: &mut [u32],
    source: Source,
) -> Result<(), Refusal>
    requires fact { let s =
        draft_of source.version nodes.old children.now named.now definitions.now items.now payload.now strings.now in
        (path_tables_rule s paths.now ≡ 0) × (list_right (node_count s) (length components.now / component_words) paths.now ≡ true) }
    requires work_value { let s =
        draft_of source.version nodes.old children.now named.now definitions.now items.now payload.now strings.now in
        length work.old ≡ write_words s }
    ensures { let s =
        draft_of source.version nodes.old children.now named.now definitions.now
        items.now payload.now strings.now in
        Late s (path_list paths.now components.now names.now) nodes.new (refusal_in result) }
{
    let draft = Draft {
        nodes: &*nodes,
        children,
        named,
        definitions,
        items,
        payload,
        strings,
    };
    tree_rule(draft, paths, work, source)?;
    targets_rule(
        nodes, children, named, strings, paths, components, names, work, source,
    )?;
    set_targets(nodes, work, paths, source);
    Ok(())
}

// Gives every node of a draft that follows a path of the list the target that the path leads to, or answers the number of the first rule that is
// broken: 3, 19, 7, 20, 21, and for the first node in number order that fails, 25 or 26. A refused draft is unchanged. 3, 19 and 7 leave the
// work words, otherwise as many as the writer needs are 0 on return.
pub fn resolve_static_targets(
    ink: u32,
    nodes: &mut [u32],
    children: &[u32],
    named: &[u32],
    definitions: &[u32],
    items: &[u32],
    payload: &[u8],
    strings: &[u8],
    paths: &[u32],
    components: &[u32],
    names: &[u8],
    work: &mut [u32],
) -> Result<(), Refusal>
    ensures answer { let s =
        draft_of version nodes.old children.now named.now definitions.now items.now
        payload.now strings.now in
        let p = path_list paths.now components.now names.now in
        refusal_in result ≡ resolve_rule ink s p (length work.old) }
    ensures draft { let s =
        draft_of version nodes.old children.now named.now definitions.now items.now
        payload.now strings.now in
        let p = path_list paths.now components.now names.now in
        nodes.new ≡ nodes_after (resolve_rule ink s p (length work.old)) s p }
    ensures words { let s =
        draft_of version nodes.old children.now named.now definitions.now items.now
        payload.now strings.now in
        let p = path_list paths.now components.now names.now in
        work.new ≡ encode_work_after (write_words s) (resolve_rule ink s p (length work.old)) work.old }
{
    if !ink_right(ink) {
        return Err(Refusal::BadInkVersion);
    }
    let source = Source {
        version: ImageView::VERSION,
    };
    let count = source::node_count(nodes, source);
    if !path_list::list_right(paths, count, components.len() / COMPONENT_WORDS) {
        return Err(Refusal::BadDraft);
    }
    let draft = Draft {
        nodes: &*nodes,
        children,
        named,
        definitions,
        items,
        payload,
        strings,
    };
    tables::tables_rule(draft, paths, source)?;
    let counts = draft::entry_counts(draft, source);
    match draft::work_words_fit(counts, work.len()) {
        None => Err(Refusal::TooFewWords),
        Some(needed) => {
            let answer = resolve(
                nodes,
                children,
                named,
                definitions,
                items,
                payload,
                strings,
                paths,
                components,
                names,
                &mut work[..needed],
                source,
            );
            tree::clear(work, needed);
            answer
        }
    }
}
