// `reg` of a node, read as one number.
ghost use Rattle.std.specs.Prelude.{◌≡◌};
ghost use Rattle.rules.specs.Tree.{node};
ghost use Rattle.rules.specs.Copy.{reg_of};
ghost use Rattle.rules.specs.Laws.Lent.{block_lent, tree_lent};
ghost use Rattle.rules.specs.Laws.Tabled.{props_at};
ghost use Rattle.cpus.specs.Registers.{meaning, number_in, reg_in};

use references::table::begin_of;
use rules::{Block, Tree};

// What a value says: its 4 or 8 bytes as one number; None where it has another length.
fn number_in(value: &[u8]) -> Option<u64>
    ensures { result ≡ number_in value.now }
{
    match value.len() {
        4 => Some(u64::from(octets::word(value, 0))),
        8 => Some(octets::long(value, 0)),
        _ => None,
    }
}

// What `reg` of the node says whose BEGIN stands at `begin`; None where it says no number, there is none, or no item stands
// there.
fn reg_of(block: &Block, begin: usize) -> Option<u64>
    ensures { meaning result ≡ reg_in (props_at (block_lent block.now) begin) }
{
    let mut at = tokens::behind(block.structure, begin);
    while let Some(property) = tokens::property_at(block.structure, at) {
        if octets::same(b"reg", octets::string_at(block.strings, property.name)) {
            return number_in(octets::part(block.structure, property.value, property.len));
        }
        at = property.next;
    }
    None
}

// What `reg` of node i says, its 4 or 8 bytes read as one number; None where there is none, it has another length, or the table
// has no such row.
pub fn reg_at(tree: &Tree, i: usize) -> Option<u64>
    ensures { meaning result ≡ reg_of (node (tree_lent tree.now) i) }
{
    if tree.count <= i {
        return None;
    }
    reg_of(&tree.block, begin_of(tree, i))
}
