// Reads a devicetree blob: judges its header, its shape, its names and its phandles, and leaves a table of its nodes in the
// work space that the caller lends. Nothing is copied, and nothing but that work space is written. The steps are crates of their
// own; here they are joined.
#![tactic(auto)]

mod pairs;

ghost use Rattle.std.specs.Prelude.{[], ◌≡◌, ℕ, ◌≤◌, length};
ghost use Rattle.rules.specs.Ceilings.{work_words};
ghost use Rattle.rules.specs.Blob.{block_in};
ghost use Rattle.rules.specs.Reader.{read, read_work, space_of};
ghost use Rattle.header.specs.Header.{Found, refused as headed};
ghost use Rattle.shape.specs.Answers.{refused as shaped};
ghost use Rattle.reader.specs.Answers.{refused, meaning, number_of, place_of};
ghost use Rattle.reader.specs.Whole.{Judged};

use header::Parts;
use rules::{Block, WORK_WORDS};

// Why a blob is refused, in the order in which it is judged. `at` is the blob offset of the first offending token.
#[derive(Clone, Copy)]
pub enum Refusal {
    // 40: the work space has fewer than 16,384 words.
    NoSpace,
    // 1: fewer than 40 bytes are lent.
    Short,
    // 2: the magic number is another.
    Magic,
    // 3: the total size is below 40, above the bytes lent, or above the ceiling.
    Total,
    // 4: the version is not 17, or the last compatible one not 16.
    Version,
    // 5: the blocks are not aligned, in order, apart and inside, or the reservations are not closed.
    Layout,
    // 6: the tokens break the shape of a structure, or an item is cut.
    Shape { at: usize },
    // 7: a name breaks its rule.
    Name { at: usize },
    // 8: a 65th node opens.
    Deep { at: usize },
    // 9: a 2,049th node opens.
    Many { at: usize },
    // 10: two siblings, or two properties of a node, share a name.
    Doubled { at: usize },
    // 11: a phandle or a count of cells is not 4 bytes, or a node's two phandles disagree.
    Cells { at: usize },
    // 12: two nodes have one phandle.
    Shared { at: usize },
}

// A refusal as the paper has it.
#[derive(Clone, Copy)]
pub struct Numbered {
    pub number: u64,
    pub place: usize,
}

// The number and the place of a refusal: 40 or 1 to 5, and 0; or 6 to 12, and the offset.
pub fn told(refusal: Refusal) -> Numbered
    ensures { (result.number ≡ number_of refusal) × (result.place ≡ place_of refusal) }
{
    let (number, place) = match refusal {
        Refusal::NoSpace => (40, 0),
        Refusal::Short => (1, 0),
        Refusal::Magic => (2, 0),
        Refusal::Total => (3, 0),
        Refusal::Version => (4, 0),
        Refusal::Layout => (5, 0),
        Refusal::Shape { at } => (6, at),
        Refusal::Name { at } => (7, at),
        Refusal::Deep { at } => (8, at),
        Refusal::Many { at } => (9, at),
        Refusal::Doubled { at } => (10, at),
        Refusal::Cells { at } => (11, at),
        Refusal::Shared { at } => (12, at),
    };
    Numbered { number, place }
}

// The header's refusal as the reader's.
impl From<header::Refusal> for Refusal {
    ghost from_gives = { λ h r. refused {A = Unit {0}} r ≡ headed {A = Unit {0}} h };

    fn from(refusal: header::Refusal) -> Refusal {
        match refusal {
            header::Refusal::Short => Refusal::Short,
            header::Refusal::Magic => Refusal::Magic,
            header::Refusal::Total => Refusal::Total,
            header::Refusal::Version => Refusal::Version,
            header::Refusal::Layout => Refusal::Layout,
        }
    }
}

// The walk's refusal as the reader's.
impl From<shape::Refusal> for Refusal {
    ghost from_gives = { λ s r. refused {A = ℕ} r ≡ shaped {A = ℕ} s };

    fn from(refusal: shape::Refusal) -> Refusal {
        match refusal {
            shape::Refusal::Shape { at } => Refusal::Shape { at },
            shape::Refusal::Name { at } => Refusal::Name { at },
            shape::Refusal::Deep { at } => Refusal::Deep { at },
            shape::Refusal::Many { at } => Refusal::Many { at },
        }
    }
}

// Judges the blocks of a blob whose header passes. Each is handed on as its own part, so that nothing else can be read through
// it. The work space is zero before; after a refusal what it holds is of no use.
fn blocks(blob: &[u8], parts: Parts, work: &mut [u32]) -> Result<usize, Refusal>
    requires found { Found blob.now parts }
    requires work_words_in_bounds { work_words ≤ length work.old }
    requires work_value { work.old ≡ space_of [] work.old }
    ensures { Judged (block_in blob.now) work.old work.new result }
{
    let block = Block {
        structure: &blob[parts.structure..parts.structure + parts.structure_size],
        strings: &blob[parts.strings..parts.strings + parts.strings_size],
        place: parts.structure,
    };
    let count = shape::judge(&block, work)?;
    pairs::judge(&block, count, work)
}

// Reads the blob that begins with the bytes lent, and leaves a table of its nodes in the work space, four words a node in blob
// order: the offset of its BEGIN, its parent's number (the root's is 0), 1 or 0 for a phandle, the phandle or 0. The other words of
// the first 16,384 are zero, and all of them after a refusal; later words stay. Nothing is asked of the caller.
//
// Answers how many nodes there are; NoSpace, where fewer than 16,384 words are lent: then none is touched; or the first of
// refusals 1 to 12.
pub fn read(blob: &[u8], work: &mut [u32]) -> Result<usize, Refusal>
    ensures result_value { meaning result ≡ read blob.now (length work.old) }
    ensures work_after { work.new ≡ read_work blob.now work.old }
{
    if work.len() < WORK_WORDS {
        return Err(Refusal::NoSpace);
    }
    work[..WORK_WORDS].fill(0);
    let parts = header::judge(blob)?;
    let answer = blocks(blob, parts, work);
    if answer.is_err() {
        work[..WORK_WORDS].fill(0);
    }
    answer
}
