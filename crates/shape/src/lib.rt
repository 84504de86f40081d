// The walk over a structure block, token by token: refusals 6 to 9, and the first two words of each node's row. The numbers of
// the open nodes are not kept: the innermost is known, and each row has its parent's.
#![tactic(auto)]

ghost use Rattle.std.specs.Prelude.{[], ◌≡◌, ◌+◌, ◌≤◌, ◌<◌, length};
ghost use Rattle.rules.specs.Ceilings.{blob_ceiling, open_ceiling, node_ceiling, work_words};
ghost use Rattle.rules.specs.Laws.Lent.{block_lent};
ghost use Rattle.rules.specs.Events.{opening, closing, holding, property_reads};
ghost use Rattle.rules.specs.Reader.{space_of};
ghost use Rattle.shape.specs.Shape.{opened_by, closed_by, row_begun, parent_in, Does, DoesItem, Ends, Shaped};

use rules::{Block, Kind, NODE_CEILING, NODE_WORDS, OPEN_CEILING, Token};

// Why a structure block is refused. `at` is the blob offset of the first offending token.
#[derive(Clone, Copy)]
pub enum Refusal {
    // 6: the tokens break the shape of a structure, or an item is cut.
    Shape { at: usize },
    // 7: a name breaks its rule.
    Name { at: usize },
    // 8: a 65th node opens.
    Deep { at: usize },
    // 9: a 2,049th node opens.
    Many { at: usize },
}

// How far the walk has come.
#[derive(Clone, Copy, Default)]
pub struct Walk {
    // How many nodes are open.
    pub depth: usize,
    // The number of the innermost open node; 0 where none is open.
    pub node: usize,
    // How many nodes have been opened.
    pub count: usize,
    // Whether the innermost open node has had a child, and so takes no more properties.
    pub ended: bool,
}

// What an item does, where it is not refused.
#[derive(Clone, Copy)]
pub enum Turn {
    Opens,
    Closes,
    Stays,
}

// Whether a property name stands at an offset of the strings block, closed by NUL before its end.
fn property_reads(strings: &[u8], offset: usize) -> bool
    ensures { result ≡ property_reads strings.now offset }
{
    let name = octets::string_at(strings, offset);
    name.len() < strings.len().saturating_sub(offset) && names::property_name_reads(name)
}

impl Walk {
    // A BEGIN with this name at a place of the blob.
    #[tactic(auto, using(crate::proofs::Steps::turns), unfolding(rules::specs::Ceilings::open_ceiling, rules::specs::Ceilings::node_ceiling))]
    fn opening(self, name: &[u8], place: usize) -> Result<Turn, Refusal>
        ensures { Does self place Turn.Opens (λ v. opening v name.now) result }
    {
        if self.depth == 0 {
            if self.count != 0 {
                return Err(Refusal::Shape { at: place });
            }
            if !name.is_empty() {
                return Err(Refusal::Name { at: place });
            }
            return Ok(Turn::Opens);
        }
        if !names::node_name_reads(name) {
            return Err(Refusal::Name { at: place });
        }
        if OPEN_CEILING <= self.depth {
            return Err(Refusal::Deep { at: place });
        }
        if NODE_CEILING <= self.count {
            return Err(Refusal::Many { at: place });
        }
        Ok(Turn::Opens)
    }

    // An END_NODE.
    #[tactic(auto, using(crate::proofs::Steps::turns))]
    fn closing(self, place: usize) -> Result<Turn, Refusal>
        ensures { Does self place Turn.Closes closing result }
    {
        if self.depth == 0 {
            return Err(Refusal::Shape { at: place });
        }
        Ok(Turn::Closes)
    }

    // A PROP, whose name reads or not.
    #[tactic(auto, using(crate::proofs::Steps::turns))]
    fn holding(self, reads: bool, place: usize) -> Result<Turn, Refusal>
        ensures { Does self place Turn.Stays (λ v. holding v reads) result }
    {
        if self.depth == 0 || self.ended {
            return Err(Refusal::Shape { at: place });
        }
        if !reads {
            return Err(Refusal::Name { at: place });
        }
        Ok(Turn::Stays)
    }

    // An item of the block, at a place of its structure and of the blob.
    fn item(self, block: &Block, at: usize, place: usize, kind: Kind) -> Result<Turn, Refusal>
        requires { at ≤ length block.now.structure.now }
        ensures { DoesItem self place (block_lent block.now) at kind result }
    {
        match kind {
            Kind::Begin { len } => self.opening(octets::part(block.structure, at + 4, len), place),
            Kind::EndNode => self.closing(place),
            Kind::Prop { name, .. } => self.holding(property_reads(block.strings, name), place),
            Kind::Nop => Ok(Turn::Stays),
        }
    }

    // Where no item stands: an END that ends the walk, or a fault. `last` says whether the block ends behind it.
    #[tactic(auto, using(crate::proofs::Steps::ends))]
    fn end(self, token: Token, last: bool, place: usize) -> Result<usize, Refusal>
        ensures { Ends self place last token result }
    {
        let Token::End = token else {
            return Err(Refusal::Shape { at: place });
        };
        if self.depth != 0 || self.count == 0 || !last {
            return Err(Refusal::Shape { at: place });
        }
        Ok(self.count)
    }

    // The next node, which begins at a place of the blob, is open, and its row is begun.
    #[tactic(auto, unfolding(rules::specs::Ceilings::blob_ceiling, rules::specs::Ceilings::open_ceiling, rules::specs::Ceilings::node_ceiling, rules::specs::Ceilings::work_words))]
    fn opened(self, place: usize, work: &mut [u32]) -> Self
        requires room { (self.depth < open_ceiling) × (self.count < node_ceiling) }
        requires parent { self.node ≤ self.count }
        requires place_bound { place ≤ blob_ceiling }
        requires work_words_in_bounds { work_words ≤ length work.old }
        ensures walk { result ≡ opened_by self }
        ensures row { work.new ≡ row_begun work.old self place }
    {
        let row = NODE_WORDS * self.count;
        work[row] = place as u32;
        work[row + 1] = self.node as u32;
        Walk {
            depth: self.depth + 1,
            node: self.count,
            count: self.count + 1,
            ended: false,
        }
    }

    // The innermost node is closed, and its parent, whose number its row has, is the innermost.
    #[tactic(auto, unfolding(rules::specs::Ceilings::node_ceiling, rules::specs::Ceilings::work_words))]
    fn closed(self, work: &[u32]) -> Self
        requires open { (0 < self.depth) × (self.node < node_ceiling) }
        requires work_words_in_bounds { work_words ≤ length work.now }
        ensures { result ≡ closed_by self (parent_in work.now self) }
    {
        Walk {
            depth: self.depth - 1,
            node: work[NODE_WORDS * self.node + 1] as usize,
            count: self.count,
            ended: true,
        }
    }
}

// Walks over a structure block. Answers how many nodes it has, or the first of refusals 6 to 9. The table of nodes is left in
// the work space, whose words are zero before; after a refusal it is of no use.
pub fn judge(block: &Block, work: &mut [u32]) -> Result<usize, Refusal>
    requires structure_bound { block.now.place + length block.now.structure.now ≤ blob_ceiling }
    requires work_words_in_bounds { work_words ≤ length work.old }
    requires work_value { work.old ≡ space_of [] work.old }
    ensures { Shaped (block_lent block.now) work.old work.new result }
{
    let mut at = 0;
    let mut walk = Walk::default();
    loop {
        let token = tokens::token_at(block.structure, at);
        let place = block.place + at;
        let Token::Item { kind, next } = token else {
            return walk.end(token, at + 4 == block.structure.len(), place);
        };
        walk = match walk.item(block, at, place, kind)? {
            Turn::Opens => walk.opened(place, work),
            Turn::Closes => walk.closed(work),
            Turn::Stays => walk,
        };
        at = next;
    }
}
