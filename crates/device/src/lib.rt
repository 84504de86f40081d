// The list of what a passthrough reaches, asked for alone: `find_all_passthrough_devices` of the source. It is the list that a
// derivation answers, without CPUs and without a guest. It is measured before it is written, and a refusal leaves it as it was.
#![tactic(auto)]

mod judged;
mod written;

ghost use Rattle.std.specs.Prelude.{◌≡◌, length};
ghost use Rattle.rules.specs.References.{edition1};
ghost use Rattle.rules.specs.Device.{Found, find, find_list, find_work};
ghost use Rattle.rules.specs.Laws.Host.{HostRead};
ghost use Rattle.reader.specs.Answers.{refused as read};
ghost use Rattle.device.specs.Answers.{meaning, refused};
ghost use Rattle.device.specs.Answered.{Accepts};

use judged::judged;
use rules::{Block, ENTRY_CEILING, Tree, WORK_WORDS};
use written::written;

// Why nothing is listed, in the order in which it is judged. A type of its own beside the derivation's: no caller is to match on
// refusals that a list cannot have.
#[derive(Clone, Copy)]
pub enum Refusal {
    // 40: the work space has fewer than 16,384 words.
    NoSpace,
    // 1 to 12: the reader refuses the host.
    Reader(reader::Refusal),
    // 41: a list has over 64 entries, or a path lacks its NUL, does not begin with `/`, or is too long. `at` is the offset of that
    // path.
    Lists { at: usize },
    // 42: a configured path names no node or repeats. `at` is its offset.
    Configured { at: usize },
    // 45: the list needs more bytes than are lent.
    List { needed: usize },
}

// The reader's refusal as ours: 40 is a refusal of our own, the others are the reader's.
impl From<reader::Refusal> for Refusal {
    ghost from_gives = { λ r s. refused {A = Found} s ≡ read {A = Found} r };

    fn from(refusal: reader::Refusal) -> Refusal {
        match refusal {
            reader::Refusal::NoSpace => Refusal::NoSpace,
            _ => Refusal::Reader(refusal),
        }
    }
}

// 41, where the lists are at fault.
impl From<given::Fault> for Refusal {
    ghost use Rattle.device.specs.declared.Refusal.TheVariants.{Lists};

    ghost from_gives = { λ f r. r ≡ Lists f.at };

    fn from(fault: given::Fault) -> Refusal {
        Refusal::Lists { at: fault.at }
    }
}

// 42, where a configured path is.
impl From<asked::Fault> for Refusal {
    ghost use Rattle.device.specs.declared.Refusal.TheVariants.{Configured};

    ghost from_gives = { λ f r. r ≡ Configured f.at };

    fn from(fault: asked::Fault) -> Refusal {
        Refusal::Configured { at: fault.at }
    }
}

// What is listed: how many paths, and the bytes of the list.
#[derive(Clone, Copy)]
pub struct Listed {
    pub paths: usize,
    pub list: usize,
}

// Lists from a host that the reader accepts, whose table the work space keeps. The two lists are lent one by one, as the public call
// has them, and the count stands beside the table, as in written.rt. What is left in the work space is of no use.
fn accepted(
    host: &[u8],
    configured: &[u8],
    excluded: &[u8],
    work: &mut [u32],
    count: usize,
    list: &mut [u8],
) -> Result<Listed, Refusal>
    requires { HostRead host.now work.old count }
    ensures { Accepts host.now configured.now excluded.now work.old work.new list.old list.new result }
{
    let block = Block {
        structure: octets::block(host, 8, 36),
        strings: octets::block(host, 12, 32),
        place: octets::word(host, 8) as usize,
    };
    let tree = Tree { block, work, count };
    // no heap: as many nodes as 41 lets through have room
    let mut conf = [0u32; ENTRY_CEILING];
    let n = judged(&tree, configured, excluded, &mut conf)?;
    let mut excl = [0u32; ENTRY_CEILING];
    let m = asked::excluded(&tree, excluded, &mut excl);
    written(&block, work, count, &conf[..n], &excl[..m], list)
}

// Lists what the configured nodes of a host's tree reach, but for what is excluded: the configured nodes, those below them, and
// what the reference properties of all of these reach, in the order of 01. Both path lists have each path closed by NUL. The list
// is written so to the front of `list`, and what stands behind it stays. Nothing is asked of the caller. The first 16,384 words of
// the work space end zero, the rest stays.
//
// Answers
//   how many paths are listed, and the bytes of the list;
//   NoSpace, where fewer than 16,384 words are lent: then nothing is touched;
//   the first of refusals 1 to 12, 41, 42 and 45: then the list is as it was.
//
// The two lists are lent one by one, as callers have this call.
pub fn find_all_passthrough_devices(
    host: &[u8],
    configured: &[u8],
    excluded: &[u8],
    work: &mut [u32],
    list: &mut [u8],
) -> Result<Listed, Refusal>
    ensures result_value { meaning result ≡ find edition1 host.now configured.now excluded.now (length work.old) (length list.old) }
    ensures list_after { list.new ≡ find_list edition1 host.now configured.now excluded.now (length work.old) list.old }
    ensures work_after { work.new ≡ find_work work.old }
{
    let count = reader::read(host, work)?;
    let listed = accepted(host, configured, excluded, work, count, list);
    octets::clear(work, WORK_WORDS);
    listed
}
