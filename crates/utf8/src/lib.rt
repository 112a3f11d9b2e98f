// Unicode's UTF-8 and White_Space. Short texts are tested sequence by sequence, long ones by blocks whose faults are gathered, which compiles
// to vector code: a text is UTF-8 where every byte is right after the three before it and the last sequence is whole.
#![tactic(auto)]

ghost use Rattle.std.specs.Prelude.{◌≡◌, [], ◌∷◌, true, cond, ◌&&◌, ◌+◌, ◌-◌, ◌<◌, ◌≤◌, ltb, length, drop, get_or};
ghost use Rattle.laws.specs.Counted.{all_of};
ghost use Rattle.utf8.specs.Utf8.{◌··◌, within, rows, fits_row, size_in, utf8};
ghost use Rattle.utf8.specs.Seconds.{lowest_after, highest_after};
ghost use Rattle.utf8.specs.Places.{flag, due, continues, never, too_low, too_high, wrong, short_wrong, right_at, starts, ends, AsciiTo, Passed};
ghost use Rattle.utf8.specs.White.{whites, begins, front_of, blank};

// Whether b lies from `low` to `high`.
fn lies(b: u8, low: u8, high: u8) -> bool
    ensures { result ≡ within (low ·· high) b }
{
    low <= b && b <= high
}

// 2 if the byte after `at` continues a sequence, else 0. This and the two after it are written out: one for all lengths would have a loop
// where each of them has its branches.
fn two(s: &[u8], at: usize) -> usize
    requires { at < length s.now }
    ensures { result ≡ cond (fits_row (0x80 ·· 0xbf ∷ []) (drop (at + 1) s.now)) 2 0 }
{
    if s.len() - at < 2 {
        return 0;
    }
    if !lies(s[at + 1], 0x80, 0xbf) {
        return 0;
    }
    2
}

// 3 if two bytes after `at` continue a sequence, the first of them from `low` to `high`, else 0.
fn three(s: &[u8], at: usize, low: u8, high: u8) -> usize
    requires { at < length s.now }
    ensures { result ≡ cond (fits_row (low ·· high ∷ 0x80 ·· 0xbf ∷ []) (drop (at + 1) s.now)) 3 0 }
{
    if s.len() - at < 3 {
        return 0;
    }
    if !lies(s[at + 1], low, high) {
        return 0;
    }
    if !lies(s[at + 2], 0x80, 0xbf) {
        return 0;
    }
    3
}

// 4 if three bytes after `at` continue a sequence, the first of them from `low` to `high`, else 0.
fn four(s: &[u8], at: usize, low: u8, high: u8) -> usize
    requires { at < length s.now }
    ensures { result ≡ cond (fits_row (low ·· high ∷ 0x80 ·· 0xbf ∷ 0x80 ·· 0xbf ∷ []) (drop (at + 1) s.now)) 4 0 }
{
    if s.len() - at < 4 {
        return 0;
    }
    if !lies(s[at + 1], low, high) {
        return 0;
    }
    if !lies(s[at + 2], 0x80, 0xbf) {
        return 0;
    }
    if !lies(s[at + 3], 0x80, 0xbf) {
        return 0;
    }
    4
}

// The lowest second byte after the first byte b.
fn lowest(b: u8) -> u8
    ensures { result ≡ lowest_after b }
{
    if b == 0xe0 {
        return 0xa0;
    }
    if b == 0xf0 {
        return 0x90;
    }
    0x80
}

// The highest second byte after it.
fn highest(b: u8) -> u8
    ensures { result ≡ highest_after b }
{
    if b == 0xed {
        return 0x9f;
    }
    if b == 0xf4 {
        return 0x8f;
    }
    0xbf
}

// How many bytes the sequence at `at` has, or 0 if none begins there. Branches go by its length, which is predicted best.
fn sequence(s: &[u8], at: usize) -> usize
    requires { at < length s.now }
    ensures { result ≡ size_in rows (drop at s.now) }
{
    let b = s[at];
    if b < 0x80 {
        return 1;
    }
    if b < 0xc2 {
        return 0;
    }
    if b < 0xe0 {
        return two(s, at);
    }
    if b < 0xf0 {
        return three(s, at, lowest(b), highest(b));
    }
    if 0xf5 <= b {
        return 0;
    }
    four(s, at, lowest(b), highest(b))
}

// Whether the N bytes from `at` on are ASCII.
fn all_ascii<const N: usize>(s: &[u8], at: usize) -> bool
    requires { at + N ≤ length s.now }
    ensures { result ≡ all_of N (λ j. ltb (get_or s.now (at + j) 0) 0x80) }
{
    let mut bits = 0;
    for j in 0..N {
        bits |= s[at + j];
    }
    bits < 0x80
}

// Where the ASCII ends that s begins with, or before: by eights, the last of which may lie over bytes that have passed.
fn ascii_head(s: &[u8]) -> usize
    requires { 8 ≤ length s.now }
    ensures { AsciiTo s.now result }
{
    if 0x80 <= s[0] {
        return 0;
    }
    let mut i = 0;

    // By index: the place where the eights end is asked for.
    while 8 <= s.len() - i {
        if !all_ascii::<8>(s, i) {
            return i;
        }
        i += 8;
    }
    if i == s.len() {
        return i;
    }
    if all_ascii::<8>(s, s.len() - 8) {
        return s.len();
    }
    i
}

// Whether s, ASCII before `at`, is well-formed UTF-8, sequence by sequence.
// A `while`: each step is as long as its sequence.
fn valid_short(s: &[u8], at: usize) -> bool
    requires { AsciiTo s.now at }
    ensures { result ≡ utf8 s.now }
{
    let mut i = at;
    while i < s.len() {
        let k = sequence(s, i);
        if k == 0 {
            return false;
        }
        i += k;
    }
    true
}

// 1 where c, else 0.
fn bit(c: bool) -> u8
    ensures { result ≡ flag c }
{
    u8::from(c)
}

// 1 where a sequence is not whole after p3, p2 and p1, the nearest, else 0.
fn due_bit(p3: u8, p2: u8, p1: u8) -> u8
    ensures { result ≡ flag (due p3 p2 p1) }
{
    bit(0xc0 <= p1) | bit(0xe0 <= p2) | bit(0xf0 <= p3)
}

// 1 where b is a byte of no sequence, else 0.
fn never_bit(b: u8) -> u8
    ensures { result ≡ flag (never b) }
{
    bit(b / 2 == 96) | bit(0xf5 <= b)
}

// 1 where b is below the range that the first byte p gives it, else 0.
fn low_bit(p: u8, b: u8) -> u8
    ensures { result ≡ flag (too_low p b) }
{
    (bit(p == 0xe0) & bit(b < 0xa0)) | (bit(p == 0xf0) & bit(b < 0x90))
}

// 1 where b is above it, else 0.
fn high_bit(p: u8, b: u8) -> u8
    ensures { result ≡ flag (too_high p b) }
{
    (bit(p == 0xed) & bit(0xa0 <= b)) | (bit(p == 0xf4) & bit(0x90 <= b))
}

// 1 where b is wrong after p3, p2 and p1, the nearest, else 0. No branch: a loop over it is compiled to many bytes at once.
fn fault(p3: u8, p2: u8, p1: u8, b: u8) -> u8
    ensures { result ≡ flag (wrong p3 p2 p1 b) }
{
    (bit(b / 64 == 2) ^ due_bit(p3, p2, p1)) | never_bit(b) | low_bit(p1, b) | high_bit(p1, b)
}

// Whether the first three bytes are right.
fn start_right(s: &[u8]) -> bool
    requires { 3 ≤ length s.now }
    ensures { result ≡ starts s.now }
{
    let a = s[0];
    let b = s[1];
    let c = s[2];
    fault(0, 0, 0, a) | fault(0, 0, a, b) | fault(0, a, b, c) == 0
}

// Whether the 32 bytes behind the three from `at` on are right.
fn block_right(s: &[u8], at: usize) -> bool
    requires { at + 35 ≤ length s.now }
    ensures { result ≡ all_of 32 (λ j. right_at s.now (at + j)) }
{
    let mut e = 0;
    for j in 0..32 {
        e |= fault(s[at + j], s[at + j + 1], s[at + j + 2], s[at + j + 3]);
    }
    e == 0
}

// 1 where b, after p1, is wrong in a text of sequences of one and two bytes, or is the first byte of a longer one, else 0.
fn short_fault(p1: u8, b: u8) -> u8
    ensures { result ≡ flag (short_wrong p1 b) }
{
    (bit(b / 64 == 2) ^ bit(0xc0 <= p1)) | bit(b / 2 == 96) | bit(0xe0 <= b)
}

// Whether the 67 bytes from `at` on are below 0xe0, and the 64 behind the first three are right among such.
fn blocks_short(s: &[u8], at: usize) -> bool
    requires { at + 67 ≤ length s.now }
    ensures { result ≡ true → all_of 64 (λ j. right_at s.now (at + j)) ≡ true }
{
    let mut e = bit(0xe0 <= s[at]) | bit(0xe0 <= s[at + 1]) | bit(0xe0 <= s[at + 2]);
    for j in 0..64 {
        e |= short_fault(s[at + j + 2], s[at + j + 3]);
    }
    e == 0
}

// Whether the 64 bytes behind the three from `at` on are right.
fn blocks_right(s: &[u8], at: usize) -> bool
    requires { at + 67 ≤ length s.now }
    ensures { result ≡ all_of 64 (λ j. right_at s.now (at + j)) }
{
    if blocks_short(s, at) {
        return true;
    }
    if !block_right(s, at) {
        return false;
    }
    block_right(s, at + 32)
}

// Whether the last 32 bytes are right and the last sequence is whole.
fn end_right(s: &[u8]) -> bool
    requires { 35 ≤ length s.now }
    ensures { result ≡ (all_of 32 (λ j. right_at s.now (length s.now - 35 + j)) && ends s.now) }
{
    let n = s.len();
    if !block_right(s, n - 35) {
        return false;
    }
    due_bit(s[n - 3], s[n - 2], s[n - 1]) == 0
}

// Whether s is well-formed UTF-8, where its bytes before `at + 3` are right and fewer than 64 are left. The last block may lie over bytes
// that have passed.
fn valid_last(s: &[u8], at: usize) -> bool
    requires { (35 ≤ length s.now) × (length s.now < at + 67) × Passed s.now at }
    ensures { result ≡ utf8 s.now }
{
    if s.len() - at < 35 {
        return end_right(s);
    }
    if !block_right(s, at) {
        return false;
    }
    end_right(s)
}

// Whether s is well-formed UTF-8, where its bytes before `at + 3` are right, block by block.
fn valid_from(s: &[u8], at: usize) -> bool
    requires { (35 ≤ length s.now) × Passed s.now at }
    ensures { result ≡ utf8 s.now }
{
    let mut i = at;

    // By index: where the blocks end the rest is taken up.
    while 67 <= s.len() - i {
        if !blocks_right(s, i) {
            return false;
        }
        i += 64;
    }
    valid_last(s, i)
}

// Whether s, ASCII before `at`, is well-formed UTF-8, block by block.
fn valid_after(s: &[u8], at: usize) -> bool
    requires { (35 ≤ length s.now) × AsciiTo s.now at }
    ensures { result ≡ utf8 s.now }
{
    if 3 <= at {
        return valid_from(s, at - 3);
    }
    if !start_right(s) {
        return false;
    }
    valid_from(s, 0)
}

// Where the ASCII ends that begins s and reaches to `at` at least, or before: fewer than 64 bytes are left, which are tested by blocks of
// 32, the last of which may lie over bytes that have passed.
fn ascii_last(s: &[u8], at: usize) -> usize
    requires { (32 ≤ length s.now) × (length s.now < at + 64) × AsciiTo s.now at }
    ensures { AsciiTo s.now result }
{
    if s.len() - at < 32 {
        if all_ascii::<32>(s, s.len() - 32) {
            return s.len();
        }
        return at;
    }
    if !all_ascii::<32>(s, at) {
        return at;
    }
    if all_ascii::<32>(s, s.len() - 32) {
        return s.len();
    }
    at + 32
}

// Goes from `at`, before which s is ASCII, past blocks of N bytes that are.
fn ascii_blocks<const N: usize>(s: &[u8], at: usize) -> usize
    requires { (0 < N) × AsciiTo s.now at }
    ensures { AsciiTo s.now result }
{
    let mut i = at;

    // By index: the place where the blocks end is the answer.
    while N <= s.len() - i {
        if !all_ascii::<N>(s, i) {
            return i;
        }
        i += N;
    }
    i
}

// Where the ASCII ends that s begins with, or before: by wide blocks, then by smaller ones.
fn ascii_end(s: &[u8]) -> usize
    requires { 32 ≤ length s.now }
    ensures { AsciiTo s.now result }
{
    let wide = ascii_blocks::<256>(s, 0);
    let i = ascii_blocks::<64>(s, wide);
    if 64 <= s.len() - i {
        return i;
    }
    ascii_last(s, i)
}

// The length of s if all its bytes are ASCII, else 0, for texts of three bytes or fewer: the places may be one.
fn ascii_three(s: &[u8]) -> usize
    requires { length s.now < 4 }
    ensures { AsciiTo s.now result }
{
    let n = s.len();
    if n == 0 {
        return 0;
    }
    if s[0] | s[n / 2] | s[n - 1] < 0x80 {
        return n;
    }
    0
}

// The same for texts of four to seven bytes: two fours that may lie over each other.
fn ascii_seven(s: &[u8]) -> usize
    requires { (4 ≤ length s.now) × (length s.now < 8) }
    ensures { AsciiTo s.now result }
{
    let n = s.len();
    if 0x80 <= s[0] {
        return 0;
    }
    if s[0] | s[1] | s[2] | s[3] | s[n - 4] | s[n - 3] | s[n - 2] | s[n - 1] < 0x80 {
        return n;
    }
    0
}

// Where the ASCII ends that s begins with, or before, in the way that is quick for its length.
fn ascii_front(s: &[u8]) -> usize
    ensures { AsciiTo s.now result }
{
    if s.len() < 4 {
        return ascii_three(s);
    }
    if s.len() < 8 {
        return ascii_seven(s);
    }
    if s.len() < 32 {
        return ascii_head(s);
    }
    ascii_end(s)
}

// Whether s is well-formed UTF-8.
pub fn valid(s: &[u8]) -> bool
    ensures { result ≡ utf8 s.now }
{
    let a = ascii_front(s);
    if a == s.len() {
        return true;
    }
    if s.len() < 35 {
        return valid_short(s, a);
    }
    valid_after(s, a)
}

// The byte of s at i, 0 past the end.
fn byte(s: &[u8], i: usize) -> u8
    ensures { result ≡ get_or s.now i 0 }
{
    s.get(i).copied().unwrap_or(0)
}

// Whether a sequence of s is cut before i: the byte there continues one.
pub fn cuts(s: &[u8], i: usize) -> bool
    ensures { result ≡ continues (get_or s.now i 0) }
{
    byte(s, i) / 64 == 2
}

// How many bytes the White_Space character has that begins with the bytes e2, 80, d, or 0.
fn white_third(d: u8) -> usize
    ensures { result ≡ front_of whites (0xe2 ∷ 0x80 ∷ d ∷ []) }
{
    match d {
        0x80..=0x8a => 3,
        0xa8..=0xa9 => 3,
        0xaf..=0xaf => 3,
        _ => 0,
    }
}

// The same for the bytes e2, c, d.
fn white_second(c: u8, d: u8) -> usize
    ensures { result ≡ front_of whites (0xe2 ∷ c ∷ d ∷ []) }
{
    if c == 0x80 {
        return white_third(d);
    }
    if c != 0x81 {
        return 0;
    }
    if d != 0x9f {
        return 0;
    }
    3
}

// The same for the bytes c2, c.
fn white_latin(c: u8) -> usize
    ensures { result ≡ front_of whites (0xc2 ∷ c ∷ []) }
{
    if c == 0x85 {
        return 2;
    }
    if c == 0xa0 {
        return 2;
    }
    0
}

// 3 if c and d are the given bytes, else 0.
fn white_pair(c: u8, d: u8, second: u8, third: u8) -> usize
    ensures { result ≡ cond (begins (second ∷ third ∷ []) (c ∷ d ∷ [])) 3 0 }
{
    if c != second {
        return 0;
    }
    if d != third {
        return 0;
    }
    3
}

// How many bytes the White_Space character has that begins with the bytes b, c, d, or 0.
fn white(b: u8, c: u8, d: u8) -> usize
    ensures { result ≡ front_of whites (b ∷ c ∷ d ∷ []) }
{
    match b {
        0x09..=0x0d => 1,
        0x20..=0x20 => 1,
        0xc2..=0xc2 => white_latin(c),
        0xe1..=0xe1 => white_pair(c, d, 0x9a, 0x80),
        0xe2..=0xe2 => white_second(c, d),
        0xe3..=0xe3 => white_pair(c, d, 0x80, 0x80),
        _ => 0,
    }
}

// Whether s is empty or White_Space alone.
// A `while`: each step is as long as its character.
pub fn is_blank(s: &[u8]) -> bool
    ensures { result ≡ blank s.now }
{
    let mut i = 0;
    while i < s.len() {
        let k = white(s[i], byte(s, i + 1), byte(s, i + 2));
        if k == 0 {
            return false;
        }
        i += k;
    }
    true
}
