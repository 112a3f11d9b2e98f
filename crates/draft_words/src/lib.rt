// The slices of a recorded draft, out of the bytes of its record.
#![tactic(auto)]

ghost use Rattle.std.specs.Prelude.{◌≡◌, length, take, drop};
ghost use Rattle.draft_words.specs.Slices.{BeginWith, lengths_in, behind_words, behind_nodes, behind_children, behind_named, behind_definitions, behind_items};

use draft::source::Draft;

// The bytes behind the first n; none where there are no more.
pub fn after(bytes: &[u8], n: usize) -> &[u8]
    ensures { result.now ≡ drop n bytes.now }
{
    &bytes[n.min(bytes.len())..]
}

// The first so many, of bytes or of words; all where there are no more.
pub fn first<T>(items: &[T], count: u32) -> &[T]
    ensures { result.now ≡ take count items.now }
{
    &items[..items.len().min(count as usize)]
}

// Fills the words with those that the bytes begin with; a word that is not there is 0.
#[tactic(auto, unfolding(crate::specs::Slices::BeginWith))]
pub fn read_words(bytes: &[u8], to: &mut [u32])
    ensures { BeginWith (length to.old) bytes.now to.new }
{
    for (i, word) in to.iter_mut().enumerate() {
        *word = words::get(bytes, 4 * i);
    }
}

// How long a recorded draft's slices are: tables in words, payload and strings in bytes.
#[derive(Clone, Copy)]
pub struct Lengths {
    pub nodes: u32,
    pub children: u32,
    pub named: u32,
    pub definitions: u32,
    pub items: u32,
    pub payload: u32,
    pub strings: u32,
}

// Those that bytes begin with; one that is not there is 0.
pub fn lengths_of(bytes: &[u8]) -> Lengths
    ensures { result ≡ lengths_in bytes.now }
{
    Lengths {
        nodes: words::get(bytes, 0),
        children: words::get(bytes, 4),
        named: words::get(bytes, 8),
        definitions: words::get(bytes, 12),
        items: words::get(bytes, 16),
        payload: words::get(bytes, 20),
        strings: words::get(bytes, 24),
    }
}

// The bytes behind so many words.
pub fn after_words(bytes: &[u8], count: u32) -> &[u8]
    ensures { result.now ≡ behind_words count bytes.now }
{
    after(bytes, 4 * count as usize)
}

// The tables of a draft behind its nodes, with room for so many words in each.
#[derive(Clone, Copy)]
pub struct Tables<const N: usize> {
    pub children: [u32; N],
    pub named: [u32; N],
    pub definitions: [u32; N],
    pub items: [u32; N],
}

// The slices of a draft besides its nodes, which calls may change.
#[derive(Clone, Copy)]
pub struct Slices<'d> {
    pub children: &'d [u32],
    pub named: &'d [u32],
    pub definitions: &'d [u32],
    pub items: &'d [u32],
    pub payload: &'d [u8],
    pub strings: &'d [u8],
}

impl<'d> Slices<'d> {
    // The whole draft, with these nodes.
    pub fn with_nodes(self, nodes: &'d [u32]) -> Draft<'d>
        ensures nodes { result.nodes.now ≡ nodes.now }
        ensures children { result.children.now ≡ self.entry.children.now }
        ensures named { result.named.now ≡ self.entry.named.now }
        ensures definitions { result.definitions.now ≡ self.entry.definitions.now }
        ensures items { result.items.now ≡ self.entry.items.now }
        ensures payload { result.payload.now ≡ self.entry.payload.now }
        ensures strings { result.strings.now ≡ self.entry.strings.now }
    {
        Draft {
            nodes,
            children: self.children,
            named: self.named,
            definitions: self.definitions,
            items: self.items,
            payload: self.payload,
            strings: self.strings,
        }
    }
}

impl<const N: usize> Tables<N> {
    // The tables of the draft that bytes begin with, and the bytes behind them: the payload and what follows.
    pub fn read(bytes: &[u8], lengths: Lengths) -> (Tables<N>, &[u8])
        ensures second { BeginWith N (behind_nodes lengths bytes.now) result.0.children }
        ensures third { BeginWith N (behind_children lengths bytes.now) result.0.named }
        ensures fourth { BeginWith N (behind_named lengths bytes.now) result.0.definitions }
        ensures last { BeginWith N (behind_definitions lengths bytes.now) result.0.items }
        ensures rest { result.1.now ≡ behind_items lengths bytes.now }
    {
        let mut tables = Tables {
            children: [0; N],
            named: [0; N],
            definitions: [0; N],
            items: [0; N],
        };
        let from_children = after_words(bytes, lengths.nodes);
        read_words(from_children, &mut tables.children);
        let from_named = after_words(from_children, lengths.children);
        read_words(from_named, &mut tables.named);
        let from_definitions = after_words(from_named, lengths.named);
        read_words(from_definitions, &mut tables.definitions);
        let from_items = after_words(from_definitions, lengths.definitions);
        read_words(from_items, &mut tables.items);
        (tables, after_words(from_items, lengths.items))
    }

    // A draft's slices: of each table as many words as it has, or all that are there.
    pub fn slices<'d>(
        &'d self,
        lengths: Lengths,
        payload: &'d [u8],
        strings: &'d [u8],
    ) -> Slices<'d>
        ensures children { result.children.now ≡ take lengths.children self.now.children }
        ensures named { result.named.now ≡ take lengths.named self.now.named }
        ensures definitions { result.definitions.now ≡ take lengths.definitions self.now.definitions }
        ensures items { result.items.now ≡ take lengths.items self.now.items }
        ensures payload { result.payload.now ≡ payload.now }
        ensures strings { result.strings.now ≡ strings.now }
    {
        Slices {
            children: first(&self.children, lengths.children),
            named: first(&self.named, lengths.named),
            definitions: first(&self.definitions, lengths.definitions),
            items: first(&self.items, lengths.items),
            payload,
            strings,
        }
    }
}
