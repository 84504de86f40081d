// Writes a blob that the reader accepted again, by the writer's calls: a start with its reservations, the boot CPU, a call for
// each token of the structure, and finish.
use crate::compare;
use cases::up;
use reservation::Reservation;
use rules::{Block, Kind, OPEN_CEILING, RESERVATION_CEILING, Token};
use writer::{Error, FdtWriter, Refused};

// As many reservations as a start is lent at most: one more than it takes.
const ENTRIES: usize = RESERVATION_CEILING + 1;

// Room for the strings of the second blob.
const STRINGS: usize = 65536;

// Starts the second blob. Over 32 reservations are the writer's to refuse, and so are those that overlap.
fn start(blob: &[u8], data: &mut [u8]) -> Result<FdtWriter, Refused> {
    let pairs = compare::reservations(blob).chunks_exact(Reservation::SIZE);
    let count = pairs.len();
    let mut all = [scripts::least(); ENTRIES];
    if count > RESERVATION_CEILING {
        return FdtWriter::new_with_mem_reserv(data, &all);
    }
    for (r, pair) in all.iter_mut().zip(pairs) {
        let Ok(made) = Reservation::new(octets::long(pair, 0), octets::long(pair, 8)) else {
            return bad_start(data);
        };
        *r = made;
    }
    FdtWriter::new_with_mem_reserv(data, &all[..count])
}

// What the maker of reservations refuses.
fn bad_start(data: &mut [u8]) -> Result<FdtWriter, Refused> {
    let writer = FdtWriter::new(data).unwrap_or_else(|refused| refused.writer);
    Err(Refused {
        writer,
        error: Error::InvalidMemoryReservation,
    })
}

// The depths that the openings of the open nodes gave, and how many nodes are open.
#[derive(Drop)]
struct Open {
    depths: [usize; OPEN_CEILING],
    level: usize,
}

impl Open {
    fn push(&mut self, depth: usize) {
        if let Some(place) = self.depths.get_mut(self.level) {
            *place = depth;
        }
        self.level = up(self.level, 1);
    }

    // The depth of the node opened last, which closes; 0 where none is open.
    fn pop(&mut self) -> usize {
        self.level = self.level.saturating_sub(1);
        self.depths.get(self.level).copied().unwrap_or(0)
    }
}

// The call for the token at a place of the structure.
fn call(
    w: FdtWriter,
    block: &Block,
    kind: Kind,
    at: usize,
    data: &mut [u8],
    strings: &mut [u8],
    open: &mut Open,
) -> Result<FdtWriter, Refused> {
    match kind {
        Kind::Begin { len } => {
            let w = w.begin_node(data, octets::part(block.structure, up(at, 4), len))?;
            open.push(w.node_depth);
            Ok(w)
        }
        Kind::EndNode => w.end_node(data, open.pop()),
        Kind::Prop { len, name, value } => w.property(
            data,
            strings,
            octets::string_at(block.strings, name),
            octets::part(block.structure, value, len),
        ),
        Kind::Nop => Ok(w),
    }
}

// The calls for all tokens of the structure before END.
fn calls(
    start: FdtWriter,
    block: &Block,
    data: &mut [u8],
    strings: &mut [u8],
) -> Result<FdtWriter, Refused> {
    let mut open = Open {
        depths: [0; OPEN_CEILING],
        level: 0,
    };
    let mut w = start;
    let mut at = 0;
    for _ in 0..block.structure.len() {
        let Token::Item { kind, next } = tokens::token_at(block.structure, at) else {
            return Ok(w);
        };
        w = call(w, block, kind, at, data, strings, &mut open)?;
        at = next;
    }
    Ok(w)
}

// The second blob, or what refused it.
pub fn again(blob: &[u8], data: &mut [u8]) -> Result<FdtWriter, Refused> {
    let w = start(blob, data)?.set_boot_cpuid_phys(octets::word(blob, 28));
    let mut strings = [0u8; STRINGS];
    let w = calls(w, &compare::block(blob), data, &mut strings)?;
    w.finish(data, &strings)
}
