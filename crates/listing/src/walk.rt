// The work list: the last node of the stack is taken and visited until none is left.
// Block, work space and count are lent side by side, for the reason that lib.rt has.
ghost use Rattle.rules.specs.Laws.Kept.{Kept};
ghost use Rattle.rules.specs.Laws.Lent.{block_lent};
ghost use Rattle.listing.specs.State.{Piled};
ghost use Rattle.listing.specs.Walk.{Walked};

use crate::note::Ends;
use crate::visit::visit;
use rules::{Block, STACK_AT};

// Visits the nodes on the stack, the last first, and those that are put there on the way. Answers how many nodes are listed
// then.
pub fn walk(block: &Block, work: &mut [u32], count: usize, ends: Ends) -> usize
    requires kept { Kept (block_lent block.now) work.old count }
    requires piled { Piled work.old count ends.list ends.stack }
    ensures { Walked (block_lent block.now) work.old count ends.list ends.stack work.new result }
{
    let mut ends = ends;
    while 0 < ends.stack {
        ends.stack -= 1;
        let x = octets::word_of(work, STACK_AT + ends.stack) as usize;
        visit(block, work, count, x, &mut ends);
    }
    ends.list
}
