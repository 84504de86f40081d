// How a node stands to what is asked, which the nodes below it inherit. There is no heap: it is kept in the work space as a word for
// each node.
ghost use Rattle.std.specs.Prelude.{◌≡◌, ◌≤◌, ◌<◌, eqb};
ghost use Rattle.rules.specs.Ceilings.{node_ceiling};
ghost use Rattle.rules.specs.Laws.Lent.{block_lent};
ghost use Rattle.picks.specs.Standings.{word_of, standing_in, outside, taken};
ghost use Rattle.picks.specs.Turns.{parent_standing, standing_at};

use asked::one_of;
use cpus::children::{is_cpus, stranger};
use paths::nodes::up;
use rules::{MARKS_AT, STACK_AT, Tree};

// How a node stands.
#[derive(Clone, Copy)]
pub enum Standing {
    // Outside `/cpus`, at or below neither a listed node nor an exclusion.
    Plain,
    // Outside `/cpus`, at or below a listed node.
    Listed,
    // Outside `/cpus`, at or below an exclusion.
    Excluded,
    // At or below `/cpus`, and kept.
    Kept,
    // At or below `/cpus`, and not kept.
    Dropped,
}

impl From<Standing> for u32 {
    ghost from_gives = { λ s w. w ≡ word_of s };

    fn from(standing: Standing) -> u32 {
        match standing {
            Standing::Plain => 0,
            Standing::Listed => 1,
            Standing::Excluded => 2,
            Standing::Kept => 3,
            Standing::Dropped => 4,
        }
    }
}

impl From<u32> for Standing {
    ghost from_gives = { λ w s. s ≡ standing_in w };

    fn from(word: u32) -> Standing {
        match word {
            1 => Standing::Listed,
            2 => Standing::Excluded,
            3 => Standing::Kept,
            4 => Standing::Dropped,
            _ => Standing::Plain,
        }
    }
}

impl Standing {
    // How the parent of node i stands; Plain for the root. A parent has a smaller number than its child.
    fn of_parent(tree: &Tree, i: usize) -> Standing
        requires i_lt_count { i < tree.now.count }
        requires count_le_node_ceiling { tree.now.count ≤ node_ceiling }
        ensures { result ≡ parent_standing (block_lent tree.now.block) tree.now.work.now tree.now.count i }
    {
        let parent = up(tree, i);
        if i <= parent {
            return Standing::Plain;
        }
        Standing::from(octets::word_of(tree.work, STACK_AT + parent))
    }

    // How a node outside `/cpus` stands whose parent stands so, by whether it is excluded itself and whether it is listed.
    fn outside(self, excluded: bool, listed: bool) -> Standing
        ensures { result ≡ outside self excluded listed }
    {
        match self {
            Standing::Excluded => Standing::Excluded,
            _ if excluded => Standing::Excluded,
            _ if listed => Standing::Listed,
            _ => self,
        }
    }

    // How node i stands, by the nodes excluded, the ids, and the marks of the nodes listed.
    pub fn of(tree: &Tree, excl: &[u32], ids: &[u64], i: usize) -> Standing
        requires i_lt_count { i < tree.now.count }
        requires count_le_node_ceiling { tree.now.count ≤ node_ceiling }
        ensures { result ≡ standing_at (block_lent tree.now.block) tree.now.work.now tree.now.count excl.now ids.now i }
    {
        if is_cpus(tree, i) {
            return if ids.is_empty() {
                Standing::Dropped
            } else {
                Standing::Kept
            };
        }
        let listed = octets::word_of(tree.work, MARKS_AT + i) == 1;
        match Standing::of_parent(tree, i) {
            Standing::Dropped => Standing::Dropped,
            Standing::Kept if stranger(tree, ids, i) => Standing::Dropped,
            Standing::Kept => Standing::Kept,
            above => above.outside(one_of(excl, excl.len(), i), listed),
        }
    }

    // Whether node i, which stands so, is copied: `over` is whether it is above a listed node.
    pub fn is_taken(self, i: usize, over: bool) -> bool
        ensures { result ≡ taken (eqb i 0) self over }
    {
        if i == 0 {
            return true;
        }
        match self {
            Standing::Kept | Standing::Listed => true,
            Standing::Plain => over,
            Standing::Excluded | Standing::Dropped => false,
        }
    }
}
