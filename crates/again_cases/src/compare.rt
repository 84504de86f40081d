// What two blobs that the reader accepted are compared by: the digest of their events, their reservations, their boot CPUs.
// Names and values count, and places do not.
use cases::{digest_behind, mixed, up};
use reservation::Reservation;
use rules::{Block, Kind, Token};

// A number of the header.
pub fn field(blob: &[u8], at: usize) -> usize {
    octets::word(blob, at) as usize
}

// The structure block of a blob, and its strings.
pub fn block(blob: &[u8]) -> Block {
    Block {
        structure: octets::block(blob, 8, 36),
        strings: octets::block(blob, 12, 32),
        place: field(blob, 8),
    }
}

// ---- the events

// The digest of bytes behind what came to h, closed by their length.
fn text(h: u32, s: &[u8]) -> u32 {
    mixed(digest_behind(h, s), (s.len() % 65536) as u32)
}

fn event(digest: u32, block: &Block, kind: Kind, at: usize) -> u32 {
    match kind {
        Kind::Begin { len } => text(
            mixed(digest, 1),
            octets::part(block.structure, up(at, 4), len),
        ),
        Kind::EndNode => mixed(digest, 2),
        Kind::Prop { len, name, value } => text(
            text(mixed(digest, 3), octets::string_at(block.strings, name)),
            octets::part(block.structure, value, len),
        ),
        Kind::Nop => digest,
    }
}

// The digest of a blob's nodes and properties, in their order.
pub fn events(blob: &[u8]) -> u32 {
    let block = block(blob);
    let mut h: u32 = 0;
    let mut at = 0;
    for _ in 0..block.structure.len() {
        let Token::Item { kind, next } = tokens::token_at(block.structure, at) else {
            return h;
        };
        h = event(h, &block, kind, at);
        at = next;
    }
    h
}

// ---- the reservations

// The reservations of a blob that the reader accepted, 16 bytes each: a zero pair closes them.
pub fn reservations(blob: &[u8]) -> &[u8] {
    let rest = octets::part(blob, field(blob, 16), blob.len());
    let n = rest
        .chunks_exact(Reservation::SIZE)
        .take_while(|pair| pair.iter().any(|b| *b != 0))
        .count();
    octets::part(rest, 0, n.saturating_mul(Reservation::SIZE))
}

// Whether events, reservations and boot CPU of the two agree.
pub fn same(a: &[u8], b: &[u8]) -> bool {
    events(a) == events(b)
        && reservations(a) == reservations(b)
        && octets::word(a, 28) == octets::word(b, 28)
}
