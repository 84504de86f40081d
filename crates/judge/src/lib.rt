// What each of the writer's calls tests before it changes anything, and what it will take.
#![tactic(auto)]

pub mod start;

ghost use Rattle.std.specs.Prelude.{◌≡◌, ◌+◌, ◌*◌, ◌/◌, ◌≤◌, ◌<◌, ◌^◌, ltb, length, take, if◌then◌else◌};
ghost use Rattle.rules.specs.Lists.{one_of};
ghost use Rattle.rules.specs.Octets.{padded, has_nul};
ghost use Rattle.rules.specs.Writer.{room, impossible, begin_judged, end_judged, finish_judged, bad_list};
ghost use Rattle.judge.specs.Meaning.{state_of, number_of};
ghost use Rattle.judge.specs.Judged.{outcome_of, placed, phandle_placed};

use append::Word;
use rules::{BLOB_CEILING, OPEN_CEILING};

// Why a call is refused: 20 to 34, in this order. The writer passes it on under its own name.
#[derive(Clone, Copy)]
pub enum Error {
    // Properties may not be added before beginning a node.
    PropertyBeforeBeginNode,
    // Properties may not be added after a node has been ended.
    PropertyAfterEndNode,
    // Property value size must fit in 32 bits. No call gives it: there is no room for such a value.
    PropertyValueTooLarge,
    // Total size must fit in 32 bits. No call gives it: there is no room for such a blob.
    TotalSizeTooLarge,
    // Strings cannot contain NUL.
    InvalidString,
    // Attempted to end a node that was not the most recent.
    OutOfOrderEndNode,
    // Attempted to call finish without ending all nodes.
    UnclosedNode,
    // Memory reservation is invalid.
    InvalidMemoryReservation,
    // Memory reservations are overlapping.
    OverlappingMemoryReservations,
    // Invalid node name.
    InvalidNodeName,
    // Invalid property name.
    InvalidPropertyName,
    // Too many open nodes.
    NodeDepthTooLarge,
    // Duplicate phandle property.
    DuplicatePhandle,
    // A lent buffer is too small, or there are too many reservations.
    NoRoom,
    // The state is finished, or its numbers cannot be so.
    ImpossibleState,
}

// The paper's number of a refusal: 20 to 34.
impl From<Error> for u64 {
    ghost from_gives = { λ error n. n ≡ number_of error };

    fn from(error: Error) -> u64 {
        match error {
            Error::PropertyBeforeBeginNode => 20,
            Error::PropertyAfterEndNode => 21,
            Error::PropertyValueTooLarge => 22,
            Error::TotalSizeTooLarge => 23,
            Error::InvalidString => 24,
            Error::OutOfOrderEndNode => 25,
            Error::UnclosedNode => 26,
            Error::InvalidMemoryReservation => 27,
            Error::OverlappingMemoryReservations => 28,
            Error::InvalidNodeName => 29,
            Error::InvalidPropertyName => 30,
            Error::NodeDepthTooLarge => 31,
            Error::DuplicatePhandle => 32,
            Error::NoRoom => 33,
            Error::ImpossibleState => 34,
        }
    }
}

// The writer's state, as a plain value to judge. The writer's own type, which has the calls, stands in a crate above this one.
#[derive(Clone, Copy)]
pub struct State {
    pub data_len: usize,
    pub off_dt_struct: usize,
    pub strings_len: usize,
    pub phandles_len: usize,
    pub node_depth: usize,
    pub node_ended: bool,
    pub finished: bool,
    pub boot_cpuid_phys: u32,
}

// Of the bytes lent, how many count.
fn room(lent: usize) -> usize
    ensures { result ≡ room lent }
{
    lent.min(BLOB_CEILING)
}

// Whether a buffer is too small for `more` bytes behind those used. The sum may be no usize.
pub(crate) fn short(lent: usize, used: usize, more: usize) -> bool
    ensures { result ≡ ltb (room lent) (used + more) }
{
    used.checked_add(more).is_none_or(|end| room(lent) < end)
}

// Whether there is a NUL in the string: true or false.
pub fn has_nul(s: &[u8]) -> bool
    ensures { result ≡ has_nul s.now }
{
    s.contains(&0)
}

// Whether a state is finished or its numbers cannot be so.
fn impossible(w: State, data_lent: usize, strings_lent: usize) -> bool
    ensures { result ≡ impossible (state_of w) data_lent strings_lent }
{
    w.finished
        || w.data_len < 56
        || w.data_len % 4 != 0
        || w.off_dt_struct < 56
        || w.data_len < w.off_dt_struct
        || OPEN_CEILING < w.node_depth
        || room(data_lent) < w.data_len
        || room(strings_lent) < w.strings_len
}

// The bytes that the opening of a node of this name takes.
pub fn begin_size(name: &[u8]) -> usize
    ensures { result ≡ 4 + padded (length name.now + 1) }
{
    4 + (name.len() + 4) / 4 * 4
}

// The tests of opening a node: ImpossibleState (34), NodeDepthTooLarge (31), InvalidString (24), InvalidNodeName (29),
// NoRoom (33), the first that fails; or Ok.
pub fn begin_node(w: State, data_lent: usize, name: &[u8]) -> Result<(), Error>
    ensures { outcome_of result ≡ begin_judged (state_of w) data_lent name.now }
{
    if impossible(w, data_lent, BLOB_CEILING) {
        return Err(Error::ImpossibleState);
    }
    if OPEN_CEILING <= w.node_depth {
        return Err(Error::NodeDepthTooLarge);
    }
    if has_nul(name) {
        return Err(Error::InvalidString);
    }
    if !names::node_name_valid(name) {
        return Err(Error::InvalidNodeName);
    }
    if short(data_lent, w.data_len, begin_size(name)) {
        return Err(Error::NoRoom);
    }
    Ok(())
}

// The tests of closing a node: ImpossibleState (34), OutOfOrderEndNode (25), NoRoom (33), the first that fails; or Ok.
pub fn end_node(w: State, data_lent: usize, depth: usize) -> Result<(), Error>
    ensures { outcome_of result ≡ end_judged (state_of w) data_lent depth }
{
    if impossible(w, data_lent, BLOB_CEILING) {
        return Err(Error::ImpossibleState);
    }
    if depth == 0 || depth != w.node_depth {
        return Err(Error::OutOfOrderEndNode);
    }
    if short(data_lent, w.data_len, 4) {
        return Err(Error::NoRoom);
    }
    Ok(())
}

// The tests of closing the blob: ImpossibleState (34), UnclosedNode (26), NoRoom (33), the first that fails; or Ok.
pub fn finish(w: State, data_lent: usize, strings_lent: usize) -> Result<(), Error>
    ensures { outcome_of result ≡ finish_judged (state_of w) data_lent strings_lent }
{
    if impossible(w, data_lent, strings_lent) {
        return Err(Error::ImpossibleState);
    }
    if w.node_depth != 0 {
        return Err(Error::UnclosedNode);
    }
    if short(data_lent, w.data_len, 4 + w.strings_len) {
        return Err(Error::NoRoom);
    }
    Ok(())
}

// The bytes that a property takes whose value has n.
fn value_size(n: usize) -> usize
    requires { n ≤ 2 ^ 63 }
    ensures { result ≡ 12 + padded n }
{
    12 + (n + 3) / 4 * 4
}

// The bytes that a property of this value takes.
pub fn property_size(val: &[u8]) -> usize
    ensures { result ≡ 12 + padded (length val.now) }
{
    value_size(val.len())
}

// The bytes that a property takes whose value is this string, its NUL behind it.
pub fn string_size(val: &[u8]) -> usize
    ensures { result ≡ 12 + padded (length val.now + 1) }
{
    value_size(val.len() + 1)
}

// The bytes that a property takes whose value is these numbers.
pub fn words_size<T: Word>(words: &[T]) -> usize
    ensures { result ≡ 12 + padded (length words.now * T.SIZE) }
{
    value_size(T::size_of(words))
}

// By how much strings of `used` bytes grow for a name of n that was sought and `offset` was answered.
fn growth(offset: usize, used: usize, n: usize) -> usize
    requires { n < 2 ^ 63 }
    ensures { result ≡ (if ltb offset used then 0 else n + 1) }
{
    if offset < used {
        return 0;
    }
    n + 1
}

// The tests of a property that takes `size` bytes of data; `own` says that its value breaks the rule of its helper:
// ImpossibleState (34), InvalidString (24) for `own`, PropertyAfterEndNode (21), PropertyBeforeBeginNode (20),
// InvalidString (24), InvalidPropertyName (30), NoRoom (33), the first that fails; or where the name stands or goes.
pub fn property(
    w: State,
    data_lent: usize,
    strings: &[u8],
    own: bool,
    name: &[u8],
    size: usize,
) -> Result<usize, Error>
    ensures { outcome_of result ≡ placed (state_of w) data_lent strings.now own name.now size }
{
    if impossible(w, data_lent, strings.len()) {
        return Err(Error::ImpossibleState);
    }
    if own {
        return Err(Error::InvalidString);
    }
    if w.node_ended {
        return Err(Error::PropertyAfterEndNode);
    }
    if w.node_depth == 0 {
        return Err(Error::PropertyBeforeBeginNode);
    }
    if has_nul(name) {
        return Err(Error::InvalidString);
    }
    if !names::property_name_valid(name) {
        return Err(Error::InvalidPropertyName);
    }
    if short(data_lent, w.data_len, size) {
        return Err(Error::NoRoom);
    }
    let offset = append::find_name(octets::part(strings, 0, w.strings_len), name);
    if short(
        strings.len(),
        w.strings_len,
        growth(offset, w.strings_len, name.len()),
    ) {
        return Err(Error::NoRoom);
    }
    Ok(offset)
}

// Whether a list of strings, each closed by NUL, has a last one that is not: true or false.
pub fn bad_list(s: &[u8]) -> bool
    ensures { result ≡ bad_list s.now }
{
    s.last().copied().unwrap_or(0) != 0
}

// Whether the number is one of the first n.
fn noted(phandles: &[u32], n: usize, val: u32) -> bool
    requires { n ≤ length phandles.now }
    ensures { result ≡ one_of val (take n phandles.now) }
{
    phandles[..n].contains(&val)
}

// The tests of the property `phandle`, which takes 16 bytes of data: ImpossibleState (34), also where more numbers are noted
// than lent; DuplicatePhandle (32); what `property` refuses; NoRoom (33) for another number; or where the name stands or goes.
pub fn phandle(
    w: State,
    data_lent: usize,
    strings: &[u8],
    phandles: &[u32],
    val: u32,
) -> Result<usize, Error>
    ensures { outcome_of result ≡ phandle_placed (state_of w) data_lent strings.now phandles.now val }
{
    if impossible(w, data_lent, strings.len()) {
        return Err(Error::ImpossibleState);
    }
    let n = w.phandles_len;
    if phandles.len() < n {
        return Err(Error::ImpossibleState);
    }
    if noted(phandles, n, val) {
        return Err(Error::DuplicatePhandle);
    }
    let offset = property(w, data_lent, strings, false, b"phandle", 16)?;
    if phandles.len() == n {
        return Err(Error::NoRoom);
    }
    Ok(offset)
}
