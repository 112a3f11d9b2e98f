// Texts as bytes: order, equality, numbers in decimal, the first dot.
#![tactic(auto)]

ghost use Rattle.std.specs.Prelude.{◌≡◌, [], ◌∷◌, ◌++◌, ◌+◌, min, ◌<◌, ◌≤◌, eqb, length, drop, get_or};
ghost use Rattle.laws.specs.Counted.{all_of};
ghost use Rattle.texts.specs.Text.{order_of, before, same};
ghost use Rattle.texts.specs.Blocks.{Alike, number_from, WordAt};
ghost use Rattle.texts.specs.Dots.{first_dot};
ghost use Rattle.texts.specs.Decimal.{digit, decimal};

use std::cmp::Ordering;

// Whether the 64 bytes of both from `at` on are alike. Their differences are gathered: this compiles to vector code.
fn block_alike(a: &[u8], b: &[u8], at: usize) -> bool
    requires { (at + 64 ≤ length a.now) × (at + 64 ≤ length b.now) }
    ensures { result ≡ all_of 64 (λ j. eqb (get_or a.now (at + j) 0) (get_or b.now (at + j) 0)) }
{
    let mut bits = 0;
    for j in 0..64 {
        bits |= a[at + j] ^ b[at + j];
    }
    bits == 0
}

// Goes past blocks that are alike, within the first n bytes.
fn alike_blocks(a: &[u8], b: &[u8], n: usize) -> usize
    requires { (n ≤ length a.now) × (n ≤ length b.now) }
    ensures { (result ≤ n) × Alike a.now b.now result }
{
    for block in 0..n / 64 {
        if !block_alike(a, b, 64 * block) {
            return 64 * block;
        }
    }
    n / 64 * 64
}

// The eight bytes from `at` on as a number, which is ordered as they are.
fn word(s: &[u8], at: usize) -> u64
    requires { at + 8 ≤ length s.now }
    ensures { WordAt s.now at result }
{
    u64::from_be_bytes([
        s[at],
        s[at + 1],
        s[at + 2],
        s[at + 3],
        s[at + 4],
        s[at + 5],
        s[at + 6],
        s[at + 7],
    ])
}

// The order of two texts that are alike before `at`: the first byte that differs decides, else the length.
fn compare_bytes(a: &[u8], b: &[u8], at: usize) -> Ordering
    requires { Alike a.now b.now at }
    ensures { result ≡ order_of a.now b.now }
{
    let n = a.len().min(b.len());
    for i in at..n {
        if a[i] != b[i] {
            return if a[i] < b[i] {
                Ordering::Less
            } else {
                Ordering::Greater
            };
        }
    }
    if n < a.len() {
        return Ordering::Greater;
    }
    if n < b.len() {
        Ordering::Less
    } else {
        Ordering::Equal
    }
}

// The order of two texts: past blocks that are alike, by words of eight bytes, the last few bytes one by one.
fn compare_words(a: &[u8], b: &[u8]) -> Ordering
    ensures { result ≡ order_of a.now b.now }
{
    let n = a.len().min(b.len());
    let mut i = alike_blocks(a, b, n);

    // By index: the place where whole words end is where the bytes are taken up.
    while 8 <= n - i {
        let x = word(a, i);
        let y = word(b, i);
        if x != y {
            if x < y {
                return Ordering::Less;
            }
            return Ordering::Greater;
        }
        i += 8;
    }
    compare_bytes(a, b, i)
}

// The order of two texts. Short ones are compared byte by byte, which becomes part of the caller.
pub fn compare(a: &[u8], b: &[u8]) -> Ordering
    ensures { result ≡ order_of a.now b.now }
{
    if a.len().min(b.len()) < 8 {
        return compare_bytes(a, b, 0);
    }
    compare_words(a, b)
}

// The same order for a loop that compares many texts with one: texts of less than 64 bytes, and others whose first eight bytes differ,
// are told in place. It has one caller, so that it becomes part of that loop.
pub fn compare_front(a: &[u8], b: &[u8]) -> Ordering
    ensures { result ≡ order_of a.now b.now }
{
    let n = a.len().min(b.len());
    if n < 8 {
        return compare_bytes(a, b, 0);
    }
    let x = word(a, 0);
    let y = word(b, 0);
    if x < y {
        return Ordering::Less;
    }
    if y < x {
        return Ordering::Greater;
    }
    if n < 64 {
        return compare_bytes(a, b, 8);
    }
    compare(a, b)
}

// Whether the two are one text. Unlike lengths answer at once.
pub fn equal(a: &[u8], b: &[u8]) -> bool
    ensures { result ≡ same a.now b.now }
{
    a.len() == b.len() && matches!(compare(a, b), Ordering::Equal)
}

// Where the first dot stands, or the text's length.
pub fn first_dot(t: &[u8]) -> usize
    ensures { result ≡ first_dot t.now }
{
    t.iter().position(|b| *b == b'.').unwrap_or(t.len())
}

// The byte of a digit.
fn digit_of(d: u32) -> u8
    requires { d < 10 }
    ensures { result ≡ digit d }
{
    b'0' + d as u8
}

// Whether the text is the number in decimal. The last digits are compared first, so nothing is built.
// A `while`: the digits are taken off the number, from the last on.
pub fn is_decimal(t: &[u8], n: u32) -> bool
    ensures { result ≡ same t.now (decimal n) }
{
    let mut i = t.len();
    let mut rest = n;
    while 10 <= rest {
        if i == 0 {
            return false;
        }
        i -= 1;
        if t[i] != digit_of(rest % 10) {
            return false;
        }
        rest /= 10;
    }
    if i != 1 {
        return false;
    }
    t[0] == digit_of(rest)
}

// The number of digits.
pub fn decimal_len(n: u32) -> usize
    ensures { result ≡ length (decimal n) }
{
    n.max(1).ilog10() as usize + 1
}

// Writes the number in decimal at the front of the output.
pub fn put_decimal(out: &mut [u8], n: u32)
    requires { length (decimal n) ≤ length out.old }
    ensures { out.new ≡ decimal n ++ drop (length (decimal n)) out.old }
{
    let mut left = n;
    for i in (1..decimal_len(n)).rev() {
        out[i] = digit_of(left % 10);
        left /= 10;
    }
    out[0] = digit_of(left);
}

// Whether the first text comes before the second.
pub fn comes_before(first: &[u8], second: &[u8]) -> bool
    ensures { result ≡ before first.now second.now }
{
    matches!(compare(first, second), Ordering::Less)
}
