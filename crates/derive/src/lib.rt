// The derivation: a guest's tree and the list of its devices, from the host's tree and a request. Both outputs are measured before
// either is written, and a refusal leaves them as they were.
#![tactic(auto)]

mod judged;
mod marked;
mod written;

ghost use Rattle.std.specs.Prelude.{◌≡◌, length};
ghost use Rattle.rules.specs.References.{edition1};
ghost use Rattle.rules.specs.Derivation.{Derived, derive, derive_list, derive_guest, derive_work};
ghost use Rattle.rules.specs.Laws.Host.{HostRead};
ghost use Rattle.given.specs.Answers.{request_lent};
ghost use Rattle.reader.specs.Answers.{refused as read};
ghost use Rattle.derive.specs.Answers.{meaning, refused};
ghost use Rattle.derive.specs.Answered.{Accepts};

use given::Request;
use judged::judged;
use marked::Wanted;
use rules::{Block, ENTRY_CEILING, Tree, WORK_WORDS};
use written::written;

// Why nothing is derived, in the order in which it is judged.
#[derive(Clone, Copy)]
pub enum Refusal {
    // 40: the work space has fewer than 16,384 words.
    NoSpace,
    // 1 to 12: the reader refuses the host.
    Reader(reader::Refusal),
    // 41: a list has over 64 entries, or a path lacks its NUL, does not begin with `/`, or is too long. `at` is the offset of that
    // path, and 64 for too many ids.
    Lists { at: usize },
    // 42: a configured path names no node or repeats. `at` is its offset.
    Configured { at: usize },
    // 43: ids are given, and a CPU child's `reg` is missing or has neither 4 nor 8 bytes. `at` is its BEGIN token.
    Register { at: usize },
    // 44: an id meets no CPU child. `at` is its index.
    Unmet { at: usize },
    // 45: the list needs more bytes than are lent.
    List { needed: usize },
    // 46: the guest needs more bytes than are lent, or more than the ceiling.
    Guest { needed: usize },
}

// The reader's refusal as ours: 40 is a refusal of the derivation, the others are the reader's own.
impl From<reader::Refusal> for Refusal {
    ghost from_gives = { λ r s. refused {A = Derived} s ≡ read {A = Derived} r };

    fn from(refusal: reader::Refusal) -> Refusal {
        match refusal {
            reader::Refusal::NoSpace => Refusal::NoSpace,
            _ => Refusal::Reader(refusal),
        }
    }
}

// 41, where the lists are at fault.
impl From<given::Fault> for Refusal {
    ghost use Rattle.derive.specs.declared.Refusal.TheVariants.{Lists};

    ghost from_gives = { λ f r. r ≡ Lists f.at };

    fn from(fault: given::Fault) -> Refusal {
        Refusal::Lists { at: fault.at }
    }
}

// 42, where a configured path is.
impl From<asked::Fault> for Refusal {
    ghost use Rattle.derive.specs.declared.Refusal.TheVariants.{Configured};

    ghost from_gives = { λ f r. r ≡ Configured f.at };

    fn from(fault: asked::Fault) -> Refusal {
        Refusal::Configured { at: fault.at }
    }
}

// 43, where a CPU child has no number.
impl From<cpus::judged::Unnumbered> for Refusal {
    ghost use Rattle.derive.specs.declared.Refusal.TheVariants.{Register};

    ghost from_gives = { λ c r. r ≡ Register c.at };

    fn from(child: cpus::judged::Unnumbered) -> Refusal {
        Refusal::Register { at: child.at }
    }
}

// 44, where an id meets no CPU child.
impl From<cpus::judged::Unmet> for Refusal {
    ghost use Rattle.derive.specs.declared.Refusal.TheVariants.{Unmet};

    ghost from_gives = { λ i r. r ≡ Unmet i.at };

    fn from(id: cpus::judged::Unmet) -> Refusal {
        Refusal::Unmet { at: id.at }
    }
}

// What is derived: how many paths are listed, and the bytes of list and guest.
#[derive(Clone, Copy)]
pub struct Derived {
    pub paths: usize,
    pub list: usize,
    pub guest: usize,
}

// Derives from a host that the reader accepts, whose table the work space keeps. The count stands beside it, as in written.rt. What
// is left in the work space is of no use.
fn accepted(
    host: &[u8],
    request: &Request,
    work: &mut [u32],
    count: usize,
    list: &mut [u8],
    guest: &mut [u8],
) -> Result<Derived, Refusal>
    requires { HostRead host.now work.old count }
    ensures { Accepts host.now (request_lent request.now) work.old work.new list.old list.new guest.old guest.new result }
{
    let block = Block {
        structure: octets::block(host, 8, 36),
        strings: octets::block(host, 12, 32),
        place: octets::word(host, 8) as usize,
    };
    let tree = Tree { block, work, count };
    // no heap: as many nodes as 41 lets through have room
    let mut conf = [0u32; ENTRY_CEILING];
    let n = judged(&tree, request, &mut conf)?;
    let mut excl = [0u32; ENTRY_CEILING];
    let m = asked::excluded(&tree, request.excluded, &mut excl);
    let wanted = Wanted {
        conf: &conf[..n],
        excl: &excl[..m],
        ids: request.ids,
    };
    written(&block, work, count, &wanted, list, guest)
}

// Derives a guest's tree and the list of its devices from a host's tree and a request: the configured paths and the excluded ones,
// each closed by NUL, and the ids of its CPUs. The list is written to the front of `list` and the guest to the front of `guest`;
// what stands behind them stays. Nothing is asked of the caller. The first 16,384 words of the work space end zero, the rest stays.
//
// Answers
//   how many paths are listed, and the bytes of list and guest;
//   NoSpace, where fewer than 16,384 words are lent: then nothing is touched;
//   the first of refusals 1 to 12 and 41 to 46: then list and guest are as they were.
//
// The lists of a request are lent one by one, as callers have this call.
pub fn derive(
    host: &[u8],
    configured: &[u8],
    excluded: &[u8],
    ids: &[u64],
    work: &mut [u32],
    list: &mut [u8],
    guest: &mut [u8],
) -> Result<Derived, Refusal>
    ensures result_value { meaning result ≡ derive edition1 host.now (record { configured = configured.now; excluded = excluded.now; ids = ids.now }) (length work.old) (length list.old) (length guest.old) }
    ensures list_after { list.new ≡ derive_list edition1 host.now (record { configured = configured.now; excluded = excluded.now; ids = ids.now }) (length work.old) (length guest.old) list.old }
    ensures guest_after { guest.new ≡ derive_guest edition1 host.now (record { configured = configured.now; excluded = excluded.now; ids = ids.now }) (length work.old) (length list.old) guest.old }
    ensures work_after { work.new ≡ derive_work work.old }
{
    let count = reader::read(host, work)?;
    let request = Request {
        configured,
        excluded,
        ids,
    };
    let derived = accepted(host, &request, work, count, list, guest);
    octets::clear(work, WORK_WORDS);
    derived
}
