// One target of a draft changed, and the summary beside it (`target_counts`) kept right.
#![tactic(auto)]

mod steps; // steps.rt: the words of the old and the new node
mod target_field; // target_field.rt: what may be a target, and its word

ghost use Rattle.std.specs.Prelude.{◌≡◌, []};
ghost use Rattle.image.specs.Refusals.{refusal_in};
ghost use Rattle.image.specs.Header.{version};
ghost use Rattle.draft.specs.Source.{draft_of};
ghost use Rattle.target_changes.specs.Change.{set_target_rule, nodes_after_set, summary_after_set};
ghost use Rattle.target_changes.specs.Steps.{Summarised, Moved};

use draft::source::{Draft, Source};
use draft::{source, tables};
use image::ImageView;
use image::refusal::Refusal;

// Sets the target of a node, of a draft whose targets are nodes, and takes the words of the old and the new node one step; or gives 18, or 27
// for a word that cannot take its step.
fn move_target(
    nodes: &mut [u32],
    summary: &mut [u32],
    node: u32,
    target: u32,
    source: Source,
) -> Result<(), Refusal>
    requires { Summarised (draft_of source.version nodes.old [] [] [] [] [] []) summary.old }
    ensures { Moved (draft_of source.version nodes.old [] [] [] [] [] []) summary.old node target
        nodes.new summary.new (refusal_in result) }
{
    let count = source::node_count(nodes, source);
    if !image::is_inside(count, node) {
        return Err(Refusal::NotFound);
    }
    let record = source::node_at(nodes, node as usize, source);
    let target_tag = source::tag_at(nodes, target, source);
    if !target_field::is_allowed(record.tag, count, target, target_tag) {
        return Err(Refusal::NotFound);
    }
    let old = records::target_of(record);
    steps::step_rule(summary, old, target)?;
    target_field::put_target(
        nodes,
        node as usize * source::node_words(source),
        record.tag,
        target,
    );
    steps::step(summary, old, target);
    Ok(())
}

// Sets the target of a draft's node, or clears it with NONE, and takes the words of the old and the new node one step. Refused are a broken
// draft (19), a short summary (27), what is no node or no target of it (18) and a word that cannot take its step (27); then draft and summary stay.
pub fn set_target(
    nodes: &mut [u32],
    children: &[u32],
    named: &[u32],
    definitions: &[u32],
    items: &[u32],
    payload: &[u8],
    strings: &[u8],
    summary: &mut [u32],
    node: u32,
    target: u32,
) -> Result<(), Refusal>
    ensures number { let s =
        draft_of version nodes.old children.now named.now definitions.now items.now
        payload.now strings.now in
        refusal_in result ≡ set_target_rule s summary.old node target }
    ensures draft { let s =
        draft_of version nodes.old children.now named.now definitions.now items.now
        payload.now strings.now in
        nodes.new ≡ nodes_after_set (set_target_rule s summary.old node target) s node target }
    ensures words { let s =
        draft_of version nodes.old children.now named.now definitions.now items.now
        payload.now strings.now in
        summary.new ≡ summary_after_set (set_target_rule s summary.old node target) s summary.old node target }
{
    let source = Source {
        version: ImageView::VERSION,
    };
    let draft = Draft {
        nodes: &*nodes,
        children,
        named,
        definitions,
        items,
        payload,
        strings,
    };
    tables::plain_tables_rule(draft, source)?;
    if summary.len() < source::node_count(nodes, source) {
        return Err(Refusal::BadSummary);
    }
    move_target(nodes, summary, node, target, source)
}
