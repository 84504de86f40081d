// The list: measured before it is written, and written only where it has room.
// Block, work space and count are lent side by side: a contract over one `&mut` of the three would have to say besides that block,
// count and lent slice stay what they were, and so would every caller's.
ghost use Rattle.rules.specs.Laws.Lent.{block_lent};
ghost use Rattle.order.specs.Starts.{Asked};
ghost use Rattle.device.specs.Written.{Writes};

use crate::{Listed, Refusal};
use listing::listed;
use rules::{Block, Tree};
use spelled::{list_len, list_out};

// Lists by nodes configured and nodes excluded; answers 45 where the list has too little room, and writes nothing then.
pub fn written(
    block: &Block,
    work: &mut [u32],
    count: usize,
    conf: &[u32],
    excl: &[u32],
    list: &mut [u8],
) -> Result<Listed, Refusal>
    requires { Asked (block_lent block.now) work.old count conf.now }
    ensures { Writes (block_lent block.now) count conf.now excl.now work.old work.new list.old list.new result }
{
    let n = listed(block, work, count, conf, excl);
    let tree = Tree {
        block: *block,
        work,
        count,
    };
    let needed = list_len(&tree, n);
    if list.len() < needed {
        return Err(Refusal::List { needed });
    }
    list_out(&tree, n, list);
    Ok(Listed {
        paths: n,
        list: needed,
    })
}
