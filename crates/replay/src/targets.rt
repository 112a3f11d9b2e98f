// Targets found from paths: what the resolver makes of a draft by the list beside it, against what the Rust made of the draft. A record is the
// ink version, the number, the lengths of nodes, children, named, definitions and items in words, of payload and strings in bytes, of the
// list's entries and components in words and of its names in bytes; then all of these, and the words of the nodes after the call.
ghost use Rattle.std.specs.Prelude.{◌≡◌, length};
ghost use Rattle.image.specs.Header.{version};
ghost use Rattle.draft.specs.Source.{draft_of};
ghost use Rattle.target_finding.specs.Targets.{path_list};
ghost use Rattle.replay.specs.Recorded.{same_nodes, recorded_targets};

use crate::compare::same_words;
use crate::drafts::behind_bytes;
use draft_words::{Slices, Tables, after, after_words, first, lengths_of, read_words};
use image::refusal::number_of;

// Where the words of a record stand: its first is the ink version. The draft follows them.
const NUMBER_AT: usize = 4;

const LENGTHS_AT: usize = 8;

const ENTRIES_LENGTH_AT: usize = 36;

const COMPONENTS_LENGTH_AT: usize = 40;

const NAMES_LENGTH_AT: usize = 44;

const DRAFT_AT: usize = 48;

// Whether the number and the nodes after the call are as recorded.
fn same(ours: u32, nodes: &[u32], number: u32, recorded: &[u8]) -> bool
    ensures { result ≡ same_nodes ours nodes.now number recorded.now }
{
    if ours != number {
        return false;
    }
    same_words(recorded, nodes)
}

// The slices of a list of paths.
#[derive(Clone, Copy)]
struct ListSlices<'l> {
    paths: &'l [u32],
    components: &'l [u32],
    names: &'l [u8],
}

// Whether resolving the draft by its list gives what was recorded.
fn resolve_agrees(
    ink: u32,
    nodes: &mut [u32],
    slices: Slices<'_>,
    list: ListSlices<'_>,
    work: &mut [u32],
    number: u32,
    recorded: &[u8],
) -> bool
    ensures { let s =
        draft_of version nodes.old slices.entry.children.now slices.entry.named.now slices.entry.definitions.now slices.entry.items.now
        slices.entry.payload.now slices.entry.strings.now in
        let p = path_list list.entry.paths.now list.entry.components.now list.entry.names.now in
        result ≡ recorded_targets ink s p (length work.old) number recorded.now }
{
    let answer = static_targets::resolve_static_targets(
        ink,
        nodes,
        slices.children,
        slices.named,
        slices.definitions,
        slices.items,
        slices.payload,
        slices.strings,
        list.paths,
        list.components,
        list.names,
        work,
    );
    same(number_of(answer), nodes, number, recorded)
}

// The same, with the list and the nodes after the call read from the record, behind the draft's strings.
fn list_agrees(fields: &[u8], nodes: &mut [u32], slices: Slices<'_>, list: &[u8]) -> bool {
    let entries_length = words::get(fields, ENTRIES_LENGTH_AT);
    let components_length = words::get(fields, COMPONENTS_LENGTH_AT);
    let names_length = words::get(fields, NAMES_LENGTH_AT);
    let mut paths = [0; 128];
    read_words(list, &mut paths);
    let from_components = after_words(list, entries_length);
    let mut components = [0; 128];
    read_words(from_components, &mut components);
    let from_names = after_words(from_components, components_length);
    let list = ListSlices {
        paths: first(&paths, entries_length),
        components: first(&components, components_length),
        names: first(from_names, names_length),
    };
    resolve_agrees(
        words::get(fields, 0),
        nodes,
        slices,
        list,
        &mut [0; 512],
        words::get(fields, NUMBER_AT),
        behind_bytes(from_names, names_length),
    )
}

// A draft of which each section, and each table of the list, has at most 128 words.
pub fn targets_agree(fields: &[u8]) -> bool {
    let lengths = lengths_of(after(fields, LENGTHS_AT));
    let bytes = after(fields, DRAFT_AT);
    let mut words = [0; 128];
    read_words(bytes, &mut words);
    let Some(nodes) = words.get_mut(..lengths.nodes as usize) else {
        return false;
    };
    let (tables, from_payload) = Tables::<128>::read(bytes, lengths);
    let from_strings = behind_bytes(from_payload, lengths.payload);
    let payload = first(from_payload, lengths.payload);
    let strings = first(from_strings, lengths.strings);
    let slices = tables.slices(lengths, payload, strings);
    list_agrees(
        fields,
        nodes,
        slices,
        behind_bytes(from_strings, lengths.strings),
    )
}
