// Rules 25 and 26: where the paths lead. The target of each node goes into the work words, nothing of the draft is written.
// The work words are lent by C's caller: no heap is used.
#![tactic(auto)]

ghost use Rattle.std.specs.Prelude.{◌≡◌, List, ℕ, ◌+◌, ◌*◌, ◌/◌, ◌≤◌, ◌<◌, length};
ghost use Rattle.image.specs.Refusals.{refusal_in};
ghost use Rattle.image.specs.Refusals.{numbered};
ghost use Rattle.image.specs.Sections.{node_words};
ghost use Rattle.draft.specs.Source.{draft_of};
ghost use Rattle.walks.specs.Walk.{component_words};
ghost use Rattle.target_finding.specs.Targets.{last_is_index, needs_container, path_list};
ghost use Rattle.target_finding.specs.Finding.{ComponentsInside, OriginsInside, OriginsApart, NoneBelow, end_of, due_of, end_target, entry_answer, AllFound};

use draft::path_list::PathEntry;
use draft::source::Source;
use draft::{path_list, source};
use image::refusal::Refusal;
use image::tag::{CHOICE, CONTAINER, DIVERT, REFERENCE};
use image::{NONE, NodeRecord};
use walks::{COMPONENT_WORDS, INDEX};

// Whether the last of so many components, from component `first` on, is an index.
fn ends_in_index(components: &[u32], first: u32, count: u32) -> bool
    ensures { result ≡ last_is_index components.now first count }
{
    if count == 0 {
        return false;
    }
    let last = first as usize + count as usize - 1;
    source::word(components, COMPONENT_WORDS * last) == INDEX
}

// Whether the path of a node of this tag, so many components from component `first` on, has to lead to a container.
fn needs_container(tag: u32, components: &[u32], first: u32, count: u32) -> bool
    ensures { result ≡ needs_container tag (last_is_index components.now first count) }
{
    if tag == CHOICE {
        return true;
    }
    if tag == REFERENCE {
        return true;
    }
    if tag != DIVERT {
        return false;
    }
    !ends_in_index(components, first, count)
}

// The target of a node of this tag whose path the entry tells.
fn follow(
    nodes: &[u32],
    children: &[u32],
    named: &[u32],
    strings: &[u8],
    tag: u32,
    entry: PathEntry,
    components: &[u32],
    names: &[u8],
    source: Source,
) -> Result<u32, Refusal>
    requires { component_words * (entry.first + entry.count) ≤ length components.now }
    ensures { (definitions items payload : List ℕ) → let s = draft_of source.version nodes.now children.now
        named.now definitions items payload strings.now in
        numbered result ≡ end_target s (due_of components.now tag entry) (end_of s components.now names.now entry) }
{
    let from = COMPONENT_WORDS * entry.first as usize;
    let to = from + COMPONENT_WORDS * entry.count as usize;
    match draft_walks::resolve_path(
        nodes,
        children,
        named,
        strings,
        entry.node,
        entry.relative == 1,
        &components[from..to],
        names,
        source,
    ) {
        None => Err(Refusal::NoTarget),
        Some(n) => {
            if !needs_container(tag, components, entry.first, entry.count) {
                return Ok(n);
            }
            if source::word_of(nodes, n, NodeRecord::TAG, source) != CONTAINER {
                return Err(Refusal::NoContainer);
            }
            Ok(n)
        }
    }
}

// The target of the node that an entry is of: a node that may not follow a path is passed over.
fn entry_target(
    nodes: &[u32],
    children: &[u32],
    named: &[u32],
    strings: &[u8],
    entry: PathEntry,
    components: &[u32],
    names: &[u8],
    source: Source,
) -> Result<u32, Refusal>
    requires { (entry.node < length nodes.now / node_words source.version)
        × (component_words * (entry.first + entry.count) ≤ length components.now) }
    ensures { (definitions items payload : List ℕ) → let s = draft_of source.version nodes.now children.now
        named.now definitions items payload strings.now in
        numbered result ≡ entry_answer s components.now names.now entry }
{
    let node = source::node_at(nodes, entry.node as usize, source);
    if !path_list::may_follow(node) {
        return Ok(NONE);
    }
    follow(
        nodes, children, named, strings, node.tag, entry, components, names, source,
    )
}

// NONE for the first `n` words.
fn fill_none(work: &mut [u32], n: usize)
    requires { n ≤ length work.old }
    ensures { NoneBelow work.new n }
{
    for at in 0..n {
        work[at] = NONE;
    }
}

// The number of the rule that the first failing node breaks, else 0, and then the target of each node stands in the work word of its number.
// The entries are gone through once, in their order, which may be any.
pub fn targets_rule(
    nodes: &[u32],
    children: &[u32],
    named: &[u32],
    strings: &[u8],
    paths: &[u32],
    components: &[u32],
    names: &[u8],
    work: &mut [u32],
    source: Source,
) -> Result<(), Refusal>
    requires { (length nodes.now / node_words source.version ≤ length work.old) × ComponentsInside paths.now components.now
        × OriginsInside (length nodes.now / node_words source.version) paths.now × OriginsApart paths.now }
    ensures { (definitions items payload : List ℕ) → let s = draft_of source.version nodes.now children.now
        named.now definitions items payload strings.now in
        AllFound s (path_list paths.now components.now names.now) work.new (refusal_in result) }
{
    let total = source::node_count(nodes, source);
    fill_none(work, total);
    let count = path_list::path_count(paths);
    let mut failing = total;
    let mut answer = Ok(());
    for k in 0..count {
        let entry = path_list::entry_at(paths, k);
        let node = entry.node as usize;
        match entry_target(
            nodes, children, named, strings, entry, components, names, source,
        ) {
            Err(refusal) => {
                if node < failing {
                    failing = node;
                    answer = Err(refusal);
                }
            }
            Ok(target) => {
                work[node] = target;
            }
        }
    }
    answer
}
