// The numbers that code and definitions share, a block and a tree as they are lent, and the answer of the token walk. What each
// number bounds is said in specs/Ceilings.antt: a ceiling stands once here and once there. The numbers of the Devicetree
// Specification, which no request moves, stand here for code and where the definitions read its sections.
#![tactic(auto)]

// Ceilings.
pub const BLOB_CEILING: usize = 1048576;

pub const NODE_CEILING: usize = 2048;

pub const OPEN_CEILING: usize = 64;

pub const NODE_NAME_MAX_LEN: usize = 31;

pub const PROPERTY_NAME_MAX_LEN: usize = 31;

pub const ENTRY_CEILING: usize = 64;

pub const PATH_CEILING: usize = 1024;

pub const RESERVATION_CEILING: usize = 32;

pub const WORK_WORDS: usize = 16384;

pub const NODE_WORDS: usize = 4;

pub const PROGRAM_CEILING: usize = 65536;

// The parts of the work space behind the node table, as specs/Space.antt names them.
pub const MARKS_AT: usize = 8192;

pub const LIST_AT: usize = 10240;

pub const STACK_AT: usize = 12288;

pub const NAMES_AT: usize = 14336;

// The header and the tokens of DTSpec 5.2 and 5.4.
pub const FDT_MAGIC: u32 = 0xd00dfeed;

pub const FDT_HEADER_SIZE: usize = 40;

pub const FDT_VERSION: u32 = 17;

pub const FDT_LAST_COMP_VERSION: u32 = 16;

pub const FDT_BEGIN_NODE: u32 = 1;

pub const FDT_END_NODE: u32 = 2;

pub const FDT_PROP: u32 = 3;

pub const FDT_NOP: u32 = 4;

pub const FDT_END: u32 = 9;

// The structure block of a blob, handed on as its own part; with it its strings block, and where the structure stands in the blob.
#[derive(Clone, Copy)]
pub struct Block<'a> {
    pub structure: &'a [u8],
    pub strings: &'a [u8],
    pub place: usize,
}

// A tree as the reader leaves it: its block, and its nodes, which are the first `count` rows of the node table in the work space.
#[derive(Clone, Copy)]
pub struct Tree<'a, 'b> {
    pub block: Block<'a>,
    pub work: &'b [u32],
    pub count: usize,
}

// What stands at a place of a structure block: an item and where the next one begins, END, or neither, where no token
// stands there, an unknown one does, or the item is cut.
#[derive(Clone, Copy)]
pub enum Token {
    Item { kind: Kind, next: usize },
    End,
    Cut,
}

// An item. Lengths and places are those of the structure block; `name` of a property is its offset in the strings block.
#[derive(Clone, Copy)]
pub enum Kind {
    Begin {
        len: usize,
    },
    EndNode,
    Prop {
        len: usize,
        name: usize,
        value: usize,
    },
    Nop,
}
