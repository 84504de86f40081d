// Appending to a lent buffer what a blob is made of. Each function is on one buffer, so that two parts of one buffer serve as
// well as two. No call asks anything of its caller: what would come to stand past the end is dropped, and of a number that
// has more than 32 bits the low 32 are written. Whoever must not lose bytes tests for room first.
#![tactic(auto)]

ghost use Rattle.std.specs.Prelude.{◌≡◌, refl, true, List, [], ◌∷◌, ◌++◌, ℕ, ◌*◌, ◌%◌, ◌^◌, ◌≤◌, leb, length};
ghost use Rattle.rules.specs.Octets.{Bytes, be32, words32, words64, zeros, closed, begins, lay};
ghost use Rattle.rules.specs.Writer.{begin_bytes, end_bytes, property_bytes, name_offset};
ghost use Rattle.rules.proofs.Laws.Writer.{words32_append, words64_append, length_words32, length_words64};

use rules::{FDT_BEGIN_NODE, FDT_END_NODE, FDT_PROP};

// ---- numbers

// The low 32 bits of a number: what is left of it where a field has no more.
pub fn low(n: usize) -> u32
    ensures { result ≡ n % 4294967296 }
{
    (n % 4294967296) as u32
}

// A number as a blob holds it, the highest byte first: of 32 bits, or of 64.
pub trait Word: Copy {
    // The bytes of one.
    const SIZE: usize;

    ghost SIZE: { ℕ };

    // The bytes of numbers one after the other.
    ghost bytes: { List Self → Bytes };

    // How many bytes the numbers are.
    fn size_of(words: &[Self]) -> usize
        ensures bytes { result ≡ length words.now * SIZE }
        ensures bound { result ≤ 2 ^ 63 };

    // Lays the number into `data` from a place on. What would come to stand past the end is dropped.
    fn put(self, data: &mut [u8], at: usize)
        ensures { «data».new ≡ lay «data».old at (bytes (self ∷ [])) };

    ghost more: { (w : Self) (ws : List Self) → bytes (w ∷ ws) ≡ bytes (w ∷ []) ++ bytes ws };

    ghost wide: { (ws : List Self) → length (bytes ws) ≡ length ws * SIZE };

    // What is so many bytes needs no padding.
    ghost whole: { SIZE % 4 ≡ 0 };

    // No place behind one wraps.
    ghost narrow: { leb SIZE 8 ≡ true };
}

impl Word for u32 {
    const SIZE: usize = 4;

    ghost SIZE = { 4 };

    ghost bytes = { words32 };

    fn size_of(words: &[u32]) -> usize {
        words.len() * 4
    }

    fn put(self, data: &mut [u8], at: usize) {
        octets::put_word(data, at, self);
    }

    ghost more = { λ w. words32_append (w ∷ []) };

    ghost wide = { length_words32 };

    ghost whole = { refl };

    ghost narrow = { refl };
}

impl Word for u64 {
    const SIZE: usize = 8;

    ghost SIZE = { 8 };

    ghost bytes = { words64 };

    fn size_of(words: &[u64]) -> usize {
        words.len() * 8
    }

    fn put(self, data: &mut [u8], at: usize) {
        octets::put_long(data, at, self);
    }

    ghost more = { λ w. words64_append (w ∷ []) };

    ghost wide = { length_words64 };

    ghost whole = { refl };

    ghost narrow = { refl };
}

// Lays numbers into `data` from a place on, one after the other.
pub fn words<T: Word>(data: &mut [u8], at: usize, words: &[T])
    ensures { «data».new ≡ lay «data».old at (T.bytes words.now) }
{
    let mut p = at;
    for word in words {
        if data.len() <= p {
            return;
        }
        word.put(data, p);
        p += T::SIZE;
    }
}

// Lays bytes into `data` from a place on, and n zeros behind them.
fn filled(data: &mut [u8], at: usize, bytes: &[u8], n: usize)
    ensures { «data».new ≡ lay «data».old at (bytes.now ++ zeros n) }
{
    octets::put(data, at, bytes);
    if bytes.len() < data.len().saturating_sub(at) {
        octets::put_zeros(data, at + bytes.len(), n);
    }
}

// ---- tokens of the structure block

// Lays the opening of a node into `data` from a place on: BEGIN, the name, its NUL, and zeros up to a multiple of 4.
pub fn begin(data: &mut [u8], at: usize, name: &[u8])
    ensures { «data».new ≡ lay «data».old at (begin_bytes name.now) }
{
    if data.len() <= at {
        return;
    }
    octets::put_word(data, at, FDT_BEGIN_NODE);
    filled(data, at + 4, name, 4 - name.len() % 4);
}

// Lays the closing of a node into `data`: END_NODE.
pub fn end(data: &mut [u8], at: usize)
    ensures { «data».new ≡ lay «data».old at end_bytes }
{
    octets::put_word(data, at, FDT_END_NODE);
}

// PROP, the length of a value, and the offset of a name.
fn property_head(data: &mut [u8], at: usize, len: usize, nameoff: usize)
    ensures { «data».new ≡ lay «data».old at (be32 3 ++ (be32 len ++ be32 nameoff)) }
{
    words(data, at, &[FDT_PROP, low(len), low(nameoff)]);
}

// Lays a property into `data` from a place on: PROP, the value's length, its name's offset, the value, and zeros up to a
// multiple of 4.
pub fn property(data: &mut [u8], at: usize, nameoff: usize, value: &[u8])
    ensures { «data».new ≡ lay «data».old at (property_bytes nameoff value.now) }
{
    if data.len() <= at {
        return;
    }
    property_head(data, at, value.len(), nameoff);
    filled(data, at + 12, value, (4 - value.len() % 4) % 4);
}

// Lays a property whose value is a string closed by NUL; the NUL is not lent.
pub fn property_string(data: &mut [u8], at: usize, nameoff: usize, value: &[u8])
    ensures { «data».new ≡ lay «data».old at (property_bytes nameoff (closed value.now)) }
{
    if data.len() <= at {
        return;
    }
    property_head(data, at, value.len() + 1, nameoff);
    filled(data, at + 12, value, 4 - value.len() % 4);
}

// Lays a property whose value is numbers.
pub fn property_words<T: Word>(data: &mut [u8], at: usize, nameoff: usize, words: &[T])
    ensures { «data».new ≡ lay «data».old at (property_bytes nameoff (T.bytes words.now)) }
{
    if data.len() <= at {
        return;
    }
    property_head(data, at, T::size_of(words), nameoff);
    self::words(data, at + 12, words);
}

// ---- the strings block

// Whether `name` and a NUL stand at the front of s.
fn closed_here(s: &[u8], name: &[u8]) -> bool
    ensures { result ≡ begins (closed name.now) s.now }
{
    let n = name.len();
    if s.len() <= n {
        return false;
    }
    octets::same_short(name, &s[..n]) && s[n] == 0
}

// Where a string that is `name` begins in a strings block, or the block's length where none is. Strings are counted from the
// block's start, each to its NUL: the ending of another is none, nor is a last piece without NUL.
// Not made a part of whoever asks, whose registers the walk would lack.
#[inline(never)]
pub fn find_name(strings: &[u8], name: &[u8]) -> usize
    ensures { result ≡ name_offset name.now strings.now }
{
    // An iterator over the strings would hand out no places, and split off a last piece without NUL like the others.
    let mut at = 0;
    while at < strings.len() {
        if closed_here(&strings[at..], name) {
            return at;
        }
        let n = octets::nul(strings, at);
        if strings.len() - at <= n {
            return strings.len();
        }
        at += n + 1;
    }
    strings.len()
}

// Lays a name and its NUL into a strings block behind the bytes used.
pub fn name(strings: &mut [u8], used: usize, name: &[u8])
    ensures { strings.new ≡ lay strings.old used (closed name.now) }
{
    filled(strings, used, name, 1);
}
