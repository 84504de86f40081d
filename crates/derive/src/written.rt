// Both outputs: measured before either is written, and written only where both have room.
// Block, work space and count are lent side by side: a contract over one `&mut` of the three would have to say besides that block,
// count and lent slice stay what they were, and so would every caller's.
ghost use Rattle.std.specs.Prelude.{◌≡◌};
ghost use Rattle.rules.specs.Derivation.{room_judged};
ghost use Rattle.rules.specs.Laws.Lent.{block_lent};
ghost use Rattle.order.specs.Starts.{Asked};
ghost use Rattle.derive.specs.Answers.{checked};
ghost use Rattle.derive.specs.Written.{Whole, Writes};
ghost use Rattle.derive.specs.Wanted.{wanted_lent};

use crate::marked::{Wanted, marked};
use crate::{Derived, Refusal};
use rules::{BLOB_CEILING, Block, Tree};
use spelled::{list_len, list_out};

// Whether list and guest both have their room: of the bytes lent and needed for either, 45 or 46 where too few are lent. Bytes past
// the ceiling are no room for a guest.
#[tactic(auto, unfolding(rules::specs::Derivation::room_judged, rules::specs::Ceilings::blob_ceiling))]
fn granted(list: usize, listed: usize, guest: usize, copied: usize) -> Result<(), Refusal>
    ensures { checked result ≡ room_judged listed copied list guest }
{
    if list < listed {
        return Err(Refusal::List { needed: listed });
    }
    if guest.min(BLOB_CEILING) < copied {
        return Err(Refusal::Guest { needed: copied });
    }
    Ok(())
}

// Lists and copies by nodes configured, nodes excluded and ids; answers 45 or 46 where an output has too little room, and writes
// nothing then.
pub fn written(
    block: &Block,
    work: &mut [u32],
    count: usize,
    wanted: &Wanted,
    list: &mut [u8],
    guest: &mut [u8],
) -> Result<Derived, Refusal>
    requires asked { Asked (block_lent block.now) work.old count wanted.now.conf.now }
    requires whole { Whole (block_lent block.now) work.old count }
    ensures { Writes (block_lent block.now) count (wanted_lent wanted.now) work.old work.new list.old list.new guest.old guest.new result }
{
    let n = marked(block, work, count, wanted);
    let size = guest::measure(block, work);
    let tree = Tree {
        block: *block,
        work,
        count,
    };
    let listed = list_len(&tree, n);
    let copied = guest::total(size);
    granted(list.len(), listed, guest.len(), copied)?;
    guest::write(block, work, guest, size);
    list_out(&tree, n, list);
    Ok(Derived {
        paths: n,
        list: listed,
        guest: copied,
    })
}
