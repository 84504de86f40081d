// What the copy takes, token by token, without writing it.
ghost use Rattle.std.specs.Prelude.{◌≡◌, ◌+◌, ◌≤◌, length, take, if◌then◌else◌, Some};
ghost use Rattle.rules.specs.Ceilings.{blob_ceiling};
ghost use Rattle.guest.specs.Walked.{marked, copies};
ghost use Rattle.guest.specs.Measured.{names_in, prop_of, enter_count, enter_words, Collected, Low, Entered};

use crate::names::{TABLE_ROOM, known};
use crate::walk::Walk;
use rules::{Block, Kind, STACK_AT};

// The bytes that the copy takes so far in its two blocks, how many copied properties there were, and how many words of the
// table of names are in use.
#[derive(Clone, Copy)]
pub struct Sum {
    pub structure: usize,
    pub strings: usize,
    pub props: usize,
    pub names: usize,
}

// Enters a name that is new, where the table has room for it, and answers how many words of it are in use.
fn enter(work: &mut [u32], names: usize, offset: u32) -> usize
    ensures count { result ≡ enter_count names }
    ensures words { work.new ≡ enter_words work.old names offset }
{
    if names < TABLE_ROOM {
        octets::put_word_of(work, STACK_AT + names, offset);
        return names + 1;
    }
    names
}

impl Sum {
    // The sums before the first token.
    pub const START: Sum = Sum {
        structure: 0,
        strings: 0,
        props: 0,
        names: 0,
    };

    // The sums behind a copied property with the name at this offset.
    fn entered(self, block: &Block, work: &mut [u32], offset: usize) -> Sum
        requires structure_len_bound { (length block.now.structure.now ≤ blob_ceiling) × (length block.now.strings.now ≤ blob_ceiling) × Low self }
        requires collected { Collected block.now.structure.now block.now.strings.now work.old self }
        ensures { (result.structure ≡ self.structure) × Entered block.now.strings.now work.old work.new (take self.props (names_in block.now.structure.now block.now.strings.now work.old)) self result (Some offset) }
    {
        let props = self.props + 1;
        if known(block, work, self, offset) {
            return Sum { props, ..self };
        }
        let len = octets::nul(block.strings, offset);
        // Past the end the name is empty, as it is at the block's length.
        let place = offset.min(block.strings.len());
        let names = enter(work, self.names, place as u32);
        Sum {
            strings: self.strings + len + 1,
            props,
            names,
            ..self
        }
    }

    // The sums behind a token of this extent.
    pub fn turn(self, block: &Block, work: &mut [u32], walk: Walk, kind: Kind, extent: usize) -> Sum
        requires structure_len_bound { (length block.now.structure.now ≤ blob_ceiling) × (length block.now.strings.now ≤ blob_ceiling) × (self.structure + extent ≤ blob_ceiling) × Low self }
        requires collected { Collected block.now.structure.now block.now.strings.now work.old self }
        ensures { (result.structure ≡ self.structure + (if copies (marked work.old) walk.next walk.skipped kind then extent else 0)) × Entered block.now.strings.now work.old work.new (take self.props (names_in block.now.structure.now block.now.strings.now work.old)) self result (prop_of walk.skipped kind) }
    {
        if !walk.copies(work, kind) {
            return self;
        }
        let grown = Sum {
            structure: self.structure + extent,
            ..self
        };
        match walk.property_of(kind) {
            Some(offset) => grown.entered(block, work, offset),
            None => grown,
        }
    }
}
