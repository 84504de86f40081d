// The nodes listed and the nodes copied, as numbers and marks in the work space.
// Block, work space and count are lent side by side: a contract over one `&mut` of the three would have to say besides that block,
// count and lent slice stay what they were, and so would every caller's.
ghost use Rattle.rules.specs.Laws.Lent.{block_lent};
ghost use Rattle.order.specs.Starts.{Asked};
ghost use Rattle.derive.specs.Marked.{Marks};

use listing::listed;
use picks::picks;
use rules::Block;

// What a request comes to in the tree: the nodes configured, the nodes excluded, and the ids of the CPUs.
#[derive(Clone, Copy)]
pub struct Wanted<'a> {
    pub conf: &'a [u32],
    pub excl: &'a [u32],
    pub ids: &'a [u64],
}

// Lists the nodes, marks those that are copied, and answers how many are listed.
pub fn marked(block: &Block, work: &mut [u32], count: usize, wanted: &Wanted) -> usize
    requires { Asked (block_lent block.now) work.old count wanted.now.conf.now }
    ensures { Marks (block_lent block.now) count wanted.now.conf.now wanted.now.excl.now wanted.now.ids.now work.old work.new result }
{
    let n = listed(block, work, count, wanted.conf, wanted.excl);
    picks(block, work, count, n, wanted.excl, wanted.ids);
    n
}
