// The filtered copy: which tokens of the host are copied is said by marks, a word for each node in the work space. It is measured
// first, and then written into a buffer that has room for it.
#![tactic(auto)]

mod laid;
mod measured;
mod names;
mod walk;

ghost use Rattle.std.specs.Prelude.{[], ◌≡◌, ℕ, ◌+◌, ◌*◌, ◌≤◌, length};
ghost use Rattle.rules.specs.Ceilings.{blob_ceiling, work_words};
ghost use Rattle.rules.specs.Octets.{put};
ghost use Rattle.rules.specs.Written.{write_events, blob_of};
ghost use Rattle.guest.specs.Walked.{blank, copy_of, sieved, Ready, Above};
ghost use Rattle.guest.specs.Measured.{Sized};
ghost use Rattle.guest.specs.Laid.{size_of, Lays};

use laid::{FRONT, Guest, close};
use measured::Sum;
use rules::{Block, Token};
use walk::Walk;

// The lengths of the copy's two blocks, the structure without its END.
#[derive(Clone, Copy)]
pub struct Size {
    pub structure: usize,
    pub strings: usize,
}

// The sizes of the copy of the nodes that the marks in the work space name, in a structure that passes and with marks that are
// closed upwards. Only the words from STACK_AT to WORK_WORDS change.
pub fn measure(block: &Block, work: &mut [u32]) -> Size
    requires { (length block.now.structure.now ≤ blob_ceiling) × (length block.now.strings.now ≤ blob_ceiling) × (work_words ≤ length work.old) }
    ensures sized { Sized block.now.structure.now block.now.strings.now work.new result }
    ensures kept { Above work.old work.new }
    ensures small { (result.structure ≤ blob_ceiling) × (result.strings ≤ blob_ceiling * (blob_ceiling + 1)) }
    ensures sieved { (place : ℕ) → Ready place block.now.structure.now block.now.strings.now work.old → (result.structure ≡ length (write_events blank (sieved place block.now.structure.now block.now.strings.now work.old)).structure) × (result.strings ≡ length (write_events blank (sieved place block.now.structure.now block.now.strings.now work.old)).strings) }
{
    let mut at = 0;
    let mut walk = Walk::START;
    let mut sum = Sum::START;
    while let Token::Item { kind, next } = tokens::token_at(block.structure, at) {
        sum = sum.turn(block, work, walk, kind, next - at);
        walk = walk.onward(work, kind);
        at = next;
    }
    Size {
        structure: sum.structure,
        strings: sum.strings,
    }
}

// The length of a guest whose blocks have these sizes: header, the empty reservation block, structure, END and strings.
pub fn total(size: Size) -> usize
    requires { (size.structure ≤ blob_ceiling) × (size.strings ≤ blob_ceiling * (blob_ceiling + 1)) }
    ensures { result ≡ 56 + size.structure + 4 + size.strings }
{
    FRONT + size.structure + 4 + size.strings
}

// Lays the two blocks of the copy into the guest. The strings begin at n.
fn blocks(block: &Block, work: &[u32], guest: &mut [u8], n: usize)
    requires { (length block.now.structure.now ≤ blob_ceiling) × (n ≡ 56 + length (copy_of block.now.structure.now block.now.strings.now work.now).structure + 4) × (n + length (copy_of block.now.structure.now block.now.strings.now work.now).strings ≤ length guest.old) }
    ensures { Lays n guest.old guest.new (size_of (copy_of block.now.structure.now block.now.strings.now work.now)) (copy_of block.now.structure.now block.now.strings.now work.now) }
{
    let mut at = 0;
    let mut walk = Walk::START;
    let mut laid = Guest {
        bytes: guest,
        strings_at: n,
        size: Size {
            structure: 0,
            strings: 0,
        },
    };
    while let Token::Item { kind, next } = tokens::token_at(block.structure, at) {
        if walk.copies(work, kind) {
            laid.lay(block, kind, at);
        }
        walk = walk.onward(work, kind);
        at = next;
    }
}

// Writes the copy of the nodes that the marks name, whose sizes were measured, to the front of the guest, which has room for it.
// Its length is 56 + size.structure + 4 + size.strings; what stands behind it in the buffer stays.
pub fn write(block: &Block, work: &[u32], guest: &mut [u8], size: Size)
    requires { (length block.now.structure.now ≤ blob_ceiling) × Sized block.now.structure.now block.now.strings.now work.now size × (56 + size.structure + 4 + size.strings ≤ length guest.old) }
    ensures { (place : ℕ) → Ready place block.now.structure.now block.now.strings.now work.now → guest.new ≡ put guest.old 0 (blob_of [] 0 (sieved place block.now.structure.now block.now.strings.now work.now)) }
{
    let n = FRONT + size.structure + 4;
    blocks(block, work, guest, n);
    close(guest, size);
}
