// The cell count of a node: the value of one of its cells properties, found by a walk over the properties behind its BEGIN.
ghost use Rattle.std.specs.Prelude.{◌≡◌};
ghost use Rattle.rules.specs.Laws.Lent.{block_lent};
ghost use Rattle.rules.specs.Laws.Tabled.{props_at, count_named};
ghost use Rattle.references.specs.Rows.{meaning};

use crate::rows::{Cells, is_cells};
use rules::Block;

// The value of this cells property of the node whose BEGIN stands at `begin`; 0 where the node has none, none is asked for, or no
// item stands there.
pub fn cells_of(block: &Block, begin: usize, cells: Option<Cells>) -> u32
    ensures { result ≡ count_named (meaning cells) (props_at (block_lent block.now) begin) }
{
    let mut at = tokens::behind(block.structure, begin);
    while let Some(property) = tokens::property_at(block.structure, at) {
        if is_cells(cells, octets::string_at(block.strings, property.name)) {
            let value = octets::part(block.structure, property.value, property.len);
            return octets::word(value, 0);
        }
        at = property.next;
    }
    0
}
