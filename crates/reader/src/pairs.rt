// What is judged of pairs, of properties and of nodes: refusals 10 to 12, each by a pass of its own over the tokens of a
// structure block whose shape has passed.
// Table and count are lent side by side: the passes still write the table, and a contract over one `&mut` of both would have to say
// besides that the count and the lent slice stay what they were.
ghost use Rattle.std.specs.Prelude.{◌+◌, ◌≤◌, length};
ghost use Rattle.rules.specs.Ceilings.{blob_ceiling};
ghost use Rattle.rules.specs.Laws.Lent.{block_lent};
ghost use Rattle.reader.specs.Whole.{Tabled, Paired};

use crate::Refusal;
use rules::Block;

// Judges refusals 10 to 12 of a structure block that has `count` nodes: that count, or the first refusal. The work space holds
// the table that the walk left, and its rows are completed; after a refusal it is of no use.
#[tactic(auto, unfolding(rules::specs::Ceilings::blob_ceiling))]
pub fn judge(block: &Block, count: usize, work: &mut [u32]) -> Result<usize, Refusal>
    requires structure_bound { block.now.place + length block.now.structure.now ≤ blob_ceiling }
    requires tabled { Tabled (block_lent block.now) work.old count }
    ensures { Paired (block_lent block.now) work.old work.new result }
{
    let place = block.place;
    if let Some(at) = doubled::doubled(block, work) {
        return Err(Refusal::Doubled { at: place + at });
    }
    if let Some(at) = passes::cells::cells(block) {
        return Err(Refusal::Cells { at: place + at });
    }
    if let Some(at) = passes::shared::shared(block, work) {
        return Err(Refusal::Shared { at: place + at });
    }
    Ok(count)
}
