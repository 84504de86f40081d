// What the copy lays into the guest, token by token: the structure behind the reservations, and the strings from where the
// structure will end with its END. How long the structure becomes is measured before.
ghost use Rattle.std.specs.Prelude.{[], ◌≡◌, ◌+◌, ◌≤◌, length};
ghost use Rattle.rules.specs.Ceilings.{blob_ceiling};
ghost use Rattle.rules.specs.Octets.{put};
ghost use Rattle.rules.specs.Blob.{block_of};
ghost use Rattle.rules.specs.Writer.{name_offset};
ghost use Rattle.rules.specs.Written.{blob_with};
ghost use Rattle.guest.specs.Walked.{heard};
ghost use Rattle.guest.specs.Laid.{blocks_in, blocks_of, wrote, spoken, with_property, Begins, FitsIn, Laid};

use crate::Size;
use append::low;
use rules::{Block, FDT_END, FDT_HEADER_SIZE, FDT_LAST_COMP_VERSION, FDT_MAGIC, FDT_VERSION, Kind};

// The bytes of the empty reservation block: one pair of zeros.
const RESERVED: usize = 16;

// Where the structure begins.
pub const FRONT: usize = FDT_HEADER_SIZE + RESERVED;

// The guest as it is laid: its bytes, where its strings begin, and how long its two blocks are so far.
#[derive(Drop)]
pub struct Guest<'a> {
    pub bytes: &'a mut [u8],
    pub strings_at: usize,
    pub size: Size,
}

impl Guest<'_> {
    // Where a name stands in the strings so far; their length where it does not.
    fn find_name(&self, name: &[u8]) -> usize
        ensures { result ≡ name_offset name.now (blocks_of self.now).strings }
    {
        append::find_name(
            octets::part(self.bytes, self.strings_at, self.size.strings),
            name,
        )
    }

    // Lays a property of the copy: its name, where no property before had it, and the property.
    fn property(&mut self, name: &[u8], value: &[u8])
        requires { Begins self.old × FitsIn self.old (with_property (blocks_of self.old) name.now value.now) }
        ensures same_reference { self.new.bytes.ghost_name ≡ self.old.bytes.ghost_name }
        ensures laid { Laid self.old self.new (with_property (blocks_of self.old) name.now value.now) }
    {
        let offset = self.find_name(name);
        let Size { structure, strings } = self.size;
        append::property(self.bytes, FRONT + structure, offset, value);
        self.size.structure += 12 + value.len().next_multiple_of(4);
        if offset < strings {
            return;
        }
        let behind = self.strings_at + strings;
        append::name(self.bytes, behind, name);
        self.size.strings += name.len() + 1;
    }

    // Lays a token of the host that is copied; a NOP, which never is, takes nothing.
    pub fn lay(&mut self, block: &Block, kind: Kind, at: usize)
        requires { (at ≤ blob_ceiling) × Begins self.old × FitsIn self.old (wrote (spoken kind) (blocks_of self.old) (heard (block_of 0 block.now.structure.now block.now.strings.now) at kind)) }
        ensures same_reference { self.new.bytes.ghost_name ≡ self.old.bytes.ghost_name }
        ensures laid { Laid self.old self.new (wrote (spoken kind) (blocks_of self.old) (heard (block_of 0 block.now.structure.now block.now.strings.now) at kind)) }
    {
        let here = FRONT + self.size.structure;
        match kind {
            Kind::Begin { len } => {
                let name = octets::part(block.structure, at + 4, len);
                append::begin(self.bytes, here, name);
                self.size.structure += 4 + (name.len() + 1).next_multiple_of(4);
            }
            Kind::EndNode => {
                append::end(self.bytes, here);
                self.size.structure += 4;
            }
            Kind::Prop { len, name, value } => {
                let spelled = octets::string_at(block.strings, name);
                let bytes = octets::part(block.structure, value, len);
                self.property(spelled, bytes);
            }
            Kind::Nop => {}
        }
    }
}

// Lays what the blocks of the copy lack to be a blob: END behind the structure, the empty reservation block, and the header.
pub fn close(guest: &mut [u8], size: Size)
    requires { 56 + size.structure + 4 + size.strings ≤ length guest.old }
    ensures { guest.new ≡ put guest.old 0 (blob_with [] 0 (blocks_in (56 + size.structure + 4) guest.old size)) }
{
    let end = FRONT + size.structure;
    let n = end + 4;
    octets::put_word(guest, end, FDT_END);
    octets::put_zeros(guest, FDT_HEADER_SIZE, RESERVED);
    append::words(
        guest,
        0,
        &[
            FDT_MAGIC,
            low(n + size.strings),
            FRONT as u32,
            low(n),
            FDT_HEADER_SIZE as u32,
            FDT_VERSION,
            FDT_LAST_COMP_VERSION,
            0,
            low(size.strings),
            low(size.structure + 4),
        ],
    );
}
