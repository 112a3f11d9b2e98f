// Who points at a node: targets counted, one target of a draft changed.
ghost use Rattle.std.specs.Prelude.{◌≡◌, length};
ghost use Rattle.image.specs.Header.{version};
ghost use Rattle.draft.specs.Source.{draft_of};
ghost use Rattle.target_counts.specs.Summary.{draft_count_rule, summary_after};
ghost use Rattle.target_changes.specs.Change.{set_target_rule, nodes_after_set, summary_after_set};
ghost use Rattle.story_image.specs.Queries.{count_number, count_written};

use crate::{VIEW_WORDS, view_of};
use answers::NOT_FOUND;
use draft::source::Draft;
use image::refusal::number_of;

// How many targets of an image name each node, one word a node; words past the nodes stay. 27 where fewer words than nodes are lent.
#[unsafe(no_mangle)]
pub extern "C" fn story_image_count_targets(bytes: &[u8], view: &[u32], summary: &mut [u32]) -> u32
    ensures number { result ≡ count_number bytes.now view.now (length summary.old) }
    ensures words { summary.new ≡ count_written bytes.now view.now summary.old }
{
    if view.len() < VIEW_WORDS {
        return NOT_FOUND;
    }
    number_of(target_counts::count_targets(bytes, view_of(view), summary))
}

// The same of a draft; 19 before 27, and 27 also for a word that cannot be counted up so far.
#[unsafe(no_mangle)]
pub extern "C" fn story_image_count_draft_targets(
    nodes: &[u32],
    children: &[u32],
    named: &[u32],
    definitions: &[u32],
    items: &[u32],
    payload: &[u8],
    strings: &[u8],
    summary: &mut [u32],
) -> u32
    ensures number { let s =
        draft_of version nodes.now children.now named.now definitions.now items.now
        payload.now strings.now in
        result ≡ draft_count_rule s (length summary.old) }
    ensures words { let s =
        draft_of version nodes.now children.now named.now definitions.now items.now
        payload.now strings.now in
        summary.new ≡ summary_after (draft_count_rule s (length summary.old)) s summary.old }
{
    let draft = Draft {
        nodes,
        children,
        named,
        definitions,
        items,
        payload,
        strings,
    };
    number_of(target_counts::count_draft_targets(draft, summary))
}

// Sets the target of a draft's node, or clears it with NONE: the old node's word goes down by 1, the new one's up by 1. 19, 27 for too few
// words, 18, or last 27 for a word that cannot take its step: then draft and words stay.
#[unsafe(no_mangle)]
pub extern "C" fn story_image_set_target(
    nodes: &mut [u32],
    children: &[u32],
    named: &[u32],
    definitions: &[u32],
    items: &[u32],
    payload: &[u8],
    strings: &[u8],
    summary: &mut [u32],
    node: u32,
    target: u32,
) -> u32
    ensures number { let s =
        draft_of version nodes.old children.now named.now definitions.now items.now
        payload.now strings.now in
        result ≡ set_target_rule s summary.old node target }
    ensures draft { let s =
        draft_of version nodes.old children.now named.now definitions.now items.now
        payload.now strings.now in
        nodes.new ≡ nodes_after_set (set_target_rule s summary.old node target) s node target }
    ensures words { let s =
        draft_of version nodes.old children.now named.now definitions.now items.now
        payload.now strings.now in
        summary.new ≡ summary_after_set (set_target_rule s summary.old node target) s summary.old node target }
{
    number_of(target_changes::set_target(
        nodes,
        children,
        named,
        definitions,
        items,
        payload,
        strings,
        summary,
        node,
        target,
    ))
}
