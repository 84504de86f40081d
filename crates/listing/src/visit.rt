// Visiting a node: its reference properties are scanned in order, and each target that is not noted yet is noted.
// Block, work space and count are lent side by side, for the reason that lib.rt has.
ghost use Rattle.std.specs.Prelude.{[], map, ℕ, ◌<◌};
ghost use Rattle.rules.specs.Events.{string_at};
ghost use Rattle.rules.specs.References.{target, edition1, targets, references_of};
ghost use Rattle.rules.specs.Laws.Kept.{Kept};
ghost use Rattle.rules.specs.Laws.Lent.{block_lent, tree_with};
ghost use Rattle.references.specs.Rows.{meaning};
ghost use Rattle.references.specs.Scan.{scan_in};
ghost use Rattle.listing.specs.State.{Piled, Stacks};
ghost use Rattle.listing.specs.Visit.{property_of};

use crate::note::Ends;
use references::rows::{Cells, cells_name, is_phandle_property};
use references::scan::next_reference;
use references::table::begin_of;
use rules::{Block, Tree};

// Notes the targets of one value, whose targets are asked for this cells property.
fn note_targets(
    block: &Block,
    work: &mut [u32],
    count: usize,
    value: &[u8],
    cells: Option<Cells>,
    ends: &mut Ends,
)
    requires { Piled work.old count ends.old.list ends.old.stack }
    ensures { Stacks count work.old ends.old.list ends.old.stack (map target (scan_in (block_lent block.now) work.old count (meaning cells) value.now 0)) work.new ends.new.list ends.new.stack [] }
{
    let mut i = 0;
    while let Some(reference) = next_reference(
        &Tree {
            block: *block,
            work,
            count,
        },
        value,
        cells,
        i,
    ) {
        ends.note(work, reference.target);
        i = reference.next;
    }
}

// Notes the targets of a property with this name and this value, if it holds references.
fn property(
    block: &Block,
    work: &mut [u32],
    count: usize,
    name: &[u8],
    value: &[u8],
    ends: &mut Ends,
)
    requires kept { Kept (block_lent block.now) work.old count }
    requires piled { Piled work.old count ends.old.list ends.old.stack }
    ensures { (at : ℕ) → Stacks count work.old ends.old.list ends.old.stack (map target (references_of edition1 (tree_with block.now work.old count) (property_of at name.now value.now))) work.new ends.new.list ends.new.stack [] }
{
    if is_phandle_property(name) {
        note_targets(block, work, count, value, cells_name(name), ends);
    }
}

// Notes the targets of node x, in property and word order.
pub fn visit(block: &Block, work: &mut [u32], count: usize, x: usize, ends: &mut Ends)
    requires kept { Kept (block_lent block.now) work.old count }
    requires piled { Piled work.old count ends.old.list ends.old.stack }
    requires x_lt_count { x < count }
    ensures { Stacks count work.old ends.old.list ends.old.stack (targets edition1 (tree_with block.now work.old count) x) work.new ends.new.list ends.new.stack [] }
{
    let tree = Tree {
        block: *block,
        work,
        count,
    };
    let mut at = tokens::behind(block.structure, begin_of(&tree, x));
    while let Some(p) = tokens::property_at(block.structure, at) {
        let name = octets::string_at(block.strings, p.name);
        let value = octets::part(block.structure, p.value, p.len);
        property(block, work, count, name, value, ends);
        at = p.next;
    }
}
