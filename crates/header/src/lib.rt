// The header (DTSpec 5.2) and where the blocks stand: refusals 1 to 5. The numbers of the header are below 2^32, so that no
// sum of two wraps.
#![tactic(auto)]

ghost use Rattle.std.specs.Prelude.{◌≡◌, not, suc, ◌<◌, length};
ghost use Rattle.rules.specs.Blob.{entries_from, missing, misplaced};
ghost use Rattle.rules.specs.Octets.{word_at};
ghost use Rattle.rules.specs.Laws.Blob.{zero_pair};
ghost use Rattle.header.specs.Header.{mistotalled, misversioned, Heads};

use rules::{BLOB_CEILING, FDT_HEADER_SIZE, FDT_LAST_COMP_VERSION, FDT_MAGIC, FDT_VERSION};

// Where the structure block and the strings block stand.
#[derive(Clone, Copy)]
pub struct Parts {
    pub structure: usize,
    pub structure_size: usize,
    pub strings: usize,
    pub strings_size: usize,
}

// Why a header is refused, in the order in which it is judged.
#[derive(Clone, Copy)]
pub enum Refusal {
    // 1: fewer than 40 bytes are lent.
    Short,
    // 2: the magic number is another.
    Magic,
    // 3: the total size is below 40, above the bytes lent, or above the ceiling.
    Total,
    // 4: the version is not 17, or the last compatible one not 16.
    Version,
    // 5: the blocks are not aligned, in order, apart and inside, or the reservations are not closed.
    Layout,
}

// A number of the header.
fn field(blob: &[u8], at: usize) -> usize
    ensures { (result ≡ word_at blob.now at) × (result < 4294967296) }
{
    octets::word(blob, at) as usize
}

// Whether a pair of zeros closes the reservations that begin at `from`, before `limit`.
fn closed(blob: &[u8], from: usize, limit: usize) -> bool
    requires { (from < 4294967296) × (limit < 4294967296) }
    ensures { result ≡ not (missing (entries_from (suc (length blob.now)) blob.now from limit)) }
{
    // A pair takes 16 bytes, and ends at the limit or before.
    for at in (from..limit.saturating_sub(15)).step_by(16) {
        if zero_pair(blob, at) {
            return true;
        }
    }
    false
}

// Whether the reservation at a place is a pair of zeros.
fn zero_pair(blob: &[u8], at: usize) -> bool
    requires { at < 4294967296 }
    ensures { result ≡ zero_pair blob.now at }
{
    octets::long(blob, at) == 0 && octets::long(blob, at + 8) == 0
}

// Refusal 5.
#[tactic(auto, unfolding(rules::specs::Blob::misplaced, rules::specs::Blob::header_in, rules::specs::Blob::entries_in))]
fn misplaced(blob: &[u8]) -> bool
    ensures { result ≡ misplaced blob.now }
{
    let reservations = field(blob, 16);
    let structure = field(blob, 8);
    let structure_size = field(blob, 36);
    let strings = field(blob, 12);
    reservations < FDT_HEADER_SIZE
        || reservations % 8 != 0
        || structure % 4 != 0
        || structure_size % 4 != 0
        || !closed(blob, reservations, structure)
        || strings < structure + structure_size
        || field(blob, 4) < strings + field(blob, 32)
}

// Refusal 3.
#[tactic(auto, unfolding(crate::specs::Header::mistotalled, rules::specs::Ceilings::blob_ceiling))]
fn mistotalled(blob: &[u8]) -> bool
    ensures { result ≡ mistotalled blob.now }
{
    let total = field(blob, 4);
    total < FDT_HEADER_SIZE || blob.len() < total || BLOB_CEILING < total
}

// Refusal 4.
#[tactic(auto, unfolding(crate::specs::Header::misversioned))]
fn misversioned(blob: &[u8]) -> bool
    ensures { result ≡ misversioned blob.now }
{
    octets::word(blob, 20) != FDT_VERSION || octets::word(blob, 24) != FDT_LAST_COMP_VERSION
}

// Judges the header of the blob that begins with the bytes lent. Answers where its structure block and its strings block
// stand, both inside; or the first of refusals 1 to 5. Nothing is asked of the caller.
#[tactic(auto, using(crate::proofs::Heads::in_order), unfolding(rules::specs::Blob::header_in))]
pub fn judge(blob: &[u8]) -> Result<Parts, Refusal>
    ensures { Heads blob.now result }
{
    if blob.len() < FDT_HEADER_SIZE {
        return Err(Refusal::Short);
    }
    if octets::word(blob, 0) != FDT_MAGIC {
        return Err(Refusal::Magic);
    }
    if mistotalled(blob) {
        return Err(Refusal::Total);
    }
    if misversioned(blob) {
        return Err(Refusal::Version);
    }
    if misplaced(blob) {
        return Err(Refusal::Layout);
    }
    Ok(Parts {
        structure: field(blob, 8),
        structure_size: field(blob, 36),
        strings: field(blob, 12),
        strings_size: field(blob, 32),
    })
}
