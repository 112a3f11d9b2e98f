// The texts of the uses that the writer numbers: how they are compared, measured and written. A use is a text of the draft's strings, or
// the canonical path of a container, which is read from its end and is never built.
#![tactic(auto)]

ghost use Rattle.std.specs.Prelude.{◌≡◌, List, ◌++◌, true, false, cond, ℕ, ◌+◌, ◌^◌, ◌≤◌, ◌<◌, ltb, length, get_or, drop};
ghost use Rattle.texts.specs.Text.{before};
ghost use Rattle.texts.specs.Decimal.{decimal};
ghost use Rattle.image.specs.Sections.{text_or_empty};
ghost use Rattle.draft.specs.Source.{word_of};
ghost use Rattle.write_text_keys.specs.Keys.{piece_length, at_end, last_byte, step_back, read_back, back, decided, alike, node_of};
ghost use Rattle.write_text_keys.specs.Keys.{name_left, long_of, key_of, key_length, end_of, key_in, used_text, Placed, length_below};

use draft::layout::Layout;
use draft::source;
use draft::source::Source;
use image::NodeRecord;
use std::cmp::Ordering;
use texts::comes_before;
use words::output::put_bytes;

// Where a text lies in the strings.
#[derive(Clone, Copy, PartialEq)]
struct Part {
    offset: u32,
    len: u32,
}

// Where a text is read backward: a piece of it is a name at an offset of the strings, or a place. So many bytes of the piece are left,
// and before them a dot and the piece of the node above.
#[derive(Clone, Copy)]
struct Cursor {
    named: bool,
    at: u32,
    left: u32,
    above: u32,
}

// The number of digits of a place.
fn digit_count(place: u32) -> u32
    ensures { result ≡ length (decimal place) }
{
    texts::decimal_len(place) as u32
}

// How long node `x`'s piece of a path is.
#[tactic(auto, unfolding(crate::specs::Keys::piece_length))]
fn piece_length(nodes: &[u32], x: u32, source: Source) -> u32
    ensures { result ≡ piece_length source.version nodes.now x }
{
    let len = source::word_of(nodes, x, NodeRecord::F1, source);
    if index::no_name(source::word_of(nodes, x, NodeRecord::F0, source), len) {
        return digit_count(source::word_of(nodes, x, NodeRecord::PLACE, source));
    }
    len
}

// The cursor at the end of node `x`'s piece.
#[tactic(auto, unfolding(crate::specs::Keys::at_end, crate::specs::Keys::piece_length))]
fn at_end(nodes: &[u32], x: u32, source: Source) -> Cursor
    ensures { result ≡ at_end source.version nodes.now x }
{
    let node = source::path_node(nodes, x, source);
    if index::no_name(node.offset, node.len) {
        let left = digit_count(node.place);
        return Cursor {
            named: false,
            at: node.place,
            left,
            above: node.parent,
        };
    }
    Cursor {
        named: true,
        at: node.offset,
        left: node.len,
        above: node.parent,
    }
}

// Byte `i` of the strings: 0 past the end.
fn byte_at(strings: &[u8], i: usize) -> u8
    ensures { result ≡ get_or strings.now i 0 }
{
    strings.get(i).copied().unwrap_or(0)
}

// Byte `i` of a number in decimal: 0 past the end.
fn digit_at(n: u32, i: usize) -> u8
    ensures { result ≡ get_or (decimal n) i 0 }
{
    let size = texts::decimal_len(n);
    if size <= i {
        return 0;
    }
    let mut rest = n;
    for _behind in i + 1..size {
        rest /= 10;
    }
    (48 + rest % 10) as u8
}

// The byte before a cursor.
#[tactic(auto, unfolding(crate::specs::Keys::last_byte))]
fn last_byte(strings: &[u8], c: Cursor) -> u8
    ensures { result ≡ last_byte strings.now c }
{
    if c.left == 0 {
        return b'.';
    }
    let i = (c.left - 1) as usize;
    if c.named {
        return byte_at(strings, c.at as usize + i);
    }
    digit_at(c.at, i)
}

// The cursor before that byte.
#[tactic(auto, unfolding(crate::specs::Keys::step_back))]
fn step_back(nodes: &[u32], c: Cursor, source: Source) -> Cursor
    ensures { result ≡ step_back source.version nodes.now c }
{
    if c.left == 0 {
        return at_end(nodes, c.above, source);
    }
    Cursor {
        named: c.named,
        at: c.at,
        left: c.left - 1,
        above: c.above,
    }
}

// The cursor so many bytes before another in the same piece.
fn back_within(c: Cursor, count: usize) -> Cursor
    requires { count ≤ c.left }
    ensures { (version : ℕ) (nodes : List ℕ) → result ≡ back count version nodes c }
{
    Cursor {
        named: c.named,
        at: c.at,
        left: c.left - count as u32,
        above: c.above,
    }
}

// The cursor `count` bytes before another. A whole piece is passed in one step.
// A `while`: each step is as long as its piece.
fn skip(nodes: &[u32], c: Cursor, count: usize, source: Source) -> Cursor
    ensures { result ≡ back count source.version nodes.now c }
{
    let mut x = c;
    let mut rest = count;
    while (x.left as usize) < rest {
        rest -= x.left as usize + 1;
        x = at_end(nodes, x.above, source);
    }
    back_within(x, rest)
}

// Whether what is left before both cursors is one text, since one node is above both.
fn rest_alike(c: Cursor, d: Cursor) -> bool
    ensures { result ≡ alike c d }
{
    c.left == 0 && d.left == 0 && c.above == d.above
}

// Whether a text comes before another: their bytes here decide, else the bytes behind them have.
fn decide(x: u8, y: u8, later: bool) -> bool
    ensures { result ≡ cond (ltb x y) true (cond (ltb y x) false later) }
{
    if x == y { later } else { x < y }
}

// How many bytes before a cursor are read from its name: none where it has none, or one that is not inside the strings.
#[tactic(auto, unfolding(crate::specs::Keys::name_left))]
fn name_left(strings: &[u8], c: Cursor) -> usize
    ensures { result ≡ name_left strings.now c }
{
    if c.named && c.at as usize + c.left as usize <= strings.len() {
        c.left as usize
    } else {
        0
    }
}

// How many of the `n` bytes before each of two cursors both read from names that are inside the strings.
fn run_length(strings: &[u8], c: Cursor, d: Cursor, n: usize) -> usize
    ensures { (result ≤ n) × (result ≤ name_left strings.now c) × (result ≤ name_left strings.now d) }
{
    name_left(strings, c).min(name_left(strings, d)).min(n)
}

// The `run` bytes before a cursor, which are its name's.
fn run_of(strings: &[u8], c: Cursor, run: usize) -> &[u8]
    requires { (0 < run) × (run ≤ name_left strings.now c) }
    ensures { (version : ℕ) (nodes : List ℕ) → result.now ≡ read_back run version nodes strings.now c }
{
    let end = c.at as usize + c.left as usize;
    &strings[end - run..end]
}

// Whether the `run` bytes before `c`, all of its name, come before those before `d`; where they are alike, `later` says it of what is
// behind them. One part of the strings is not read.
fn run_below(strings: &[u8], c: Cursor, d: Cursor, run: usize, later: bool) -> bool
    requires { (0 < run) × (run ≤ name_left strings.now c) × (run ≤ name_left strings.now d) }
    ensures { (version : ℕ) (nodes : List ℕ) → let read = read_back run version nodes strings.now in
        result ≡ decided (read c) (read d) later }
{
    if c.at as usize + c.left as usize == d.at as usize + d.left as usize {
        return later;
    }
    let order = texts::compare(run_of(strings, c, run), run_of(strings, d, run));
    match order {
        Ordering::Less => true,
        Ordering::Equal => later,
        Ordering::Greater => false,
    }
}

// Whether the `n` bytes before `c` come before the `n` bytes before `d`; where they are alike, `later` says it of what is behind them.
// What both read from names is compared at once.
// A `while`: each step is as long as its run.
fn read_below(
    nodes: &[u32],
    strings: &[u8],
    c: Cursor,
    d: Cursor,
    n: usize,
    later: bool,
    source: Source,
) -> bool
    ensures { let read = read_back n source.version nodes.now strings.now in
        result ≡ decided (read c) (read d) later }
{
    let mut x = c;
    let mut y = d;
    let mut left = n;
    let mut less = later;
    while 0 < left {
        if rest_alike(x, y) {
            return less;
        }
        let run = run_length(strings, x, y, left);
        if run == 0 {
            less = decide(last_byte(strings, x), last_byte(strings, y), less);
            x = step_back(nodes, x, source);
            y = step_back(nodes, y, source);
            left -= 1;
        } else {
            less = run_below(strings, x, y, run, less);
            x = back_within(x, run);
            y = back_within(y, run);
            left -= run;
        }
    }
    less
}

// Where text use `a` lies. One test serves both words where they are there.
fn part_of(tab: &[u32], a: u32) -> Part
    ensures { (result.offset ≡ get_or tab.now (a + a) 0) × (result.len ≡ get_or tab.now (a + a + 1) 0) }
{
    let i = a as usize + a as usize;
    if i + 1 < tab.len() {
        return Part {
            offset: tab[i],
            len: tab[i + 1],
        };
    }
    Part {
        offset: source::word(tab, i),
        len: source::word(tab, i + 1),
    }
}

// The bytes of a part of the strings.
fn part_bytes(strings: &[u8], part: Part) -> &[u8]
    ensures { result.now ≡ text_or_empty strings.now part.offset part.len }
{
    image::text_part(strings, part.offset, part.len)
}

// The bytes of text use `a`.
fn text_of<'s, 't>(strings: &'s [u8], tab: &'t [u32], a: u32) -> &'s [u8]
    ensures { result.now ≡ used_text strings.now tab.now a }
{
    part_bytes(strings, part_of(tab, a))
}

// The node whose path is use `a`.
fn node_of(tab: &[u32], layout: Layout, a: u32) -> u32
    requires { (layout.texts ≤ a) × (layout.paths ≤ length tab.now) }
    ensures { result ≡ node_of layout.texts layout.paths tab.now a }
{
    source::word(tab, layout.paths + (a as usize - layout.texts))
}

// The length of node `x`'s path.
fn long_of(tab: &[u32], lengths: usize, x: u32) -> usize
    requires { lengths ≤ length tab.now }
    ensures { result ≡ long_of lengths tab.now x }
{
    let i = lengths + x as usize + x as usize;
    let low = source::word(tab, i) as usize;
    let high = source::word(tab, i + 1) as usize;
    low + 4294967296 * high
}

// The length of the text of use `a`.
#[tactic(auto, unfolding(crate::specs::Keys::key_length))]
fn length_of(strings: &[u8], tab: &[u32], layout: Layout, a: u32) -> usize
    requires { (layout.paths ≤ length tab.now) × (layout.lengths ≤ length tab.now) }
    ensures { result ≡ key_length strings.now layout.texts layout.paths layout.lengths tab.now a }
{
    if (a as usize) < layout.texts {
        return text_of(strings, tab, a).len();
    }
    long_of(tab, layout.lengths, node_of(tab, layout, a))
}

// The cursor at the end of the text of use `a`.
#[tactic(auto, unfolding(crate::specs::Keys::end_of))]
fn end_of(nodes: &[u32], tab: &[u32], layout: Layout, a: u32, source: Source) -> Cursor
    requires { layout.paths ≤ length tab.now }
    ensures { result ≡ end_of source.version nodes.now layout.texts layout.paths tab.now a }
{
    if (a as usize) < layout.texts {
        let part = part_of(tab, a);
        return Cursor {
            named: true,
            at: part.offset,
            left: part.len,
            above: 0,
        };
    }
    at_end(nodes, node_of(tab, layout, a), source)
}

// Whether the text of one part comes before that of another. One part of the strings is not read.
fn parts_below(strings: &[u8], p: Part, q: Part) -> bool
    ensures { let text = text_or_empty strings.now in result ≡ before (text p.offset p.len) (text q.offset q.len) }
{
    p != q && comes_before(part_bytes(strings, p), part_bytes(strings, q))
}

// Whether the text of text use `a` comes before that of text use `b`.
fn texts_below(strings: &[u8], tab: &[u32], a: u32, b: u32) -> bool
    ensures { let text = used_text strings.now tab.now in result ≡ before (text a) (text b) }
{
    parts_below(strings, part_of(tab, a), part_of(tab, b))
}

// Whether the text of use `a` comes before that of use `b`, by cursors: the longer one's surplus is passed, then both are read backward.
fn ends_below(
    nodes: &[u32],
    strings: &[u8],
    tab: &[u32],
    layout: Layout,
    a: u32,
    b: u32,
    source: Source,
) -> bool
    requires { (layout.paths ≤ length tab.now) × (layout.lengths ≤ length tab.now) }
    ensures { let key = key_of source.version nodes.now strings.now layout.texts layout.paths
        layout.lengths tab.now in
        result ≡ before (key a) (key b) }
{
    let m = length_of(strings, tab, layout, a);
    let n = length_of(strings, tab, layout, b);
    let c = end_of(nodes, tab, layout, a, source);
    let d = end_of(nodes, tab, layout, b, source);
    if m < n {
        return read_below(
            nodes,
            strings,
            c,
            skip(nodes, d, n - m, source),
            m,
            true,
            source,
        );
    }
    read_below(
        nodes,
        strings,
        skip(nodes, c, m - n, source),
        d,
        n,
        false,
        source,
    )
}

// Whether the text of use `a` comes before that of use `b`.
pub fn below(
    nodes: &[u32],
    strings: &[u8],
    w: &[u32],
    layout: Layout,
    a: u32,
    b: u32,
    source: Source,
) -> bool
    requires { Placed layout (length w.now) }
    ensures { let key = key_in source.version nodes.now strings.now layout w.now in
        result ≡ before (key a) (key b) }
{
    let at = layout.at;
    let tab = &w[at..];
    if (a as usize) < layout.texts && (b as usize) < layout.texts {
        return texts_below(strings, tab, a, b);
    }
    ends_below(nodes, strings, tab, layout, a, b, source)
}

// The length of the text of use `a`: it does not go by the nodes' words.
pub fn key_length(strings: &[u8], w: &[u32], layout: Layout, a: u32) -> usize
    requires { Placed layout (length w.now) }
    ensures { (version : ℕ) (nodes : List ℕ) → result ≡ length (key_in version nodes strings.now layout w.now a) }
{
    let at = layout.at;
    length_of(strings, &w[at..], layout, a)
}

// Writes the `n` bytes before a cursor at the front of the output, the last one first.
fn put_read(nodes: &[u32], strings: &[u8], c: Cursor, n: usize, out: &mut [u8], source: Source)
    requires { n ≤ length out.old }
    ensures { let read = read_back n source.version nodes.now strings.now c in
        out.new ≡ read ++ drop n out.old }
{
    let mut x = c;
    for left in (0..n).rev() {
        out[left] = last_byte(strings, x);
        x = step_back(nodes, x, source);
    }
}

// Writes the text of use `a` at the front of the output.
pub fn put_key(
    nodes: &[u32],
    strings: &[u8],
    w: &[u32],
    layout: Layout,
    a: u32,
    out: &mut [u8],
    source: Source,
)
    requires placed { Placed layout (length w.now) }
    requires a_in_bounds { length (key_in source.version nodes.now strings.now layout w.now a) ≤ length out.old }
    ensures { let key = key_in source.version nodes.now strings.now layout w.now a in
        out.new ≡ key ++ drop (length key) out.old }
{
    let at = layout.at;
    let tab = &w[at..];
    if (a as usize) < layout.texts {
        put_bytes(text_of(strings, tab, a), out);
        return;
    }
    let x = node_of(tab, layout, a);
    put_read(
        nodes,
        strings,
        at_end(nodes, x, source),
        long_of(tab, layout.lengths, x),
        out,
        source,
    );
}

// The length of the canonical path of node `x`, by a table of lengths that has the one of the node above.
pub fn path_length(nodes: &[u32], tab: &[u32], lengths: usize, x: u32, source: Source) -> usize
    requires lengths_in_bounds { lengths ≤ length tab.now }
    requires x_bound { (x ≡ 0 → ⊥) → long_of lengths tab.now (word_of source.version nodes.now x 0) + 2 ^ 32 < 2 ^ 64 }
    ensures answer { let above = word_of source.version nodes.now x 0 in
        result ≡ length_below (long_of lengths tab.now above) source.version nodes.now x }
    ensures bound { result ≤ long_of lengths tab.now (word_of source.version nodes.now x 0) + 2 ^ 32 }
{
    if x == 0 {
        return 0;
    }
    let piece = piece_length(nodes, x, source) as usize;
    let above = source::word_of(nodes, x, NodeRecord::PARENT, source);
    if above == 0 {
        return piece;
    }
    long_of(tab, lengths, above) + 1 + piece
}
