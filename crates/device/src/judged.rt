// The path lists, judged by the tree: refusals 41 and 42, and the nodes configured.
ghost use Rattle.std.specs.Prelude.{◌≤◌, length};
ghost use Rattle.rules.specs.Ceilings.{node_ceiling, entry_ceiling};
ghost use Rattle.rules.specs.Laws.Lent.{tree_lent};
ghost use Rattle.device.specs.Answered.{Checks};

use crate::Refusal;
use given::Request;
use rules::Tree;

// Judges the lists, then the configured paths, and lays the nodes configured into `conf`. Answers how many they are, or 41 or 42.
pub fn judged(
    tree: &Tree,
    configured: &[u8],
    excluded: &[u8],
    conf: &mut [u32],
) -> Result<usize, Refusal>
    requires count_le_node_ceiling { tree.now.count ≤ node_ceiling }
    requires entry_ceiling_in_bounds { entry_ceiling ≤ length conf.old }
    ensures { Checks (tree_lent tree.now) configured.now excluded.now conf.old conf.new result }
{
    let request = Request {
        configured,
        excluded,
        ids: &[],
    };
    given::lists_judged(&request)?;
    let n = asked::configured(tree, configured, conf)?;
    Ok(n)
}
