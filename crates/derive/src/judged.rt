// The request, judged by the tree: refusals 41 to 44, and the nodes configured.
ghost use Rattle.std.specs.Prelude.{◌≡◌, ◌≤◌, length};
ghost use Rattle.rules.specs.Ceilings.{node_ceiling, entry_ceiling};
ghost use Rattle.rules.specs.Outcome.{◌then◌};
ghost use Rattle.rules.specs.Derivation.{cpus_judged, ids_from};
ghost use Rattle.rules.specs.Laws.Lent.{tree_lent};
ghost use Rattle.given.specs.Answers.{request_lent};
ghost use Rattle.derive.specs.Answers.{checked};
ghost use Rattle.derive.specs.Answered.{Checks};

use crate::Refusal;
use cpus::judged::{cpus_judged, ids_judged};
use given::Request;
use rules::Tree;

// Judges the CPU children, where ids are given, and the ids: 43 or 44.
fn cpus_checked(tree: &Tree, ids: &[u64]) -> Result<(), Refusal>
    ensures { checked result ≡ (cpus_judged (tree_lent tree.now) ids.now then ids_from (tree_lent tree.now) 0 ids.now) }
{
    if ids.is_empty() {
        return Ok(());
    }
    cpus_judged(tree)?;
    ids_judged(tree, ids)?;
    Ok(())
}

// Judges a request: its lists, then the configured paths, then CPU children and ids; and lays the nodes configured into `conf`.
// Answers how many they are, or the first of 41 to 44.
pub fn judged(tree: &Tree, request: &Request, conf: &mut [u32]) -> Result<usize, Refusal>
    requires count_le_node_ceiling { tree.now.count ≤ node_ceiling }
    requires entry_ceiling_in_bounds { entry_ceiling ≤ length conf.old }
    ensures { Checks (tree_lent tree.now) (request_lent request.now) conf.old conf.new result }
{
    given::lists_judged(request)?;
    let n = asked::configured(tree, request.configured, conf)?;
    cpus_checked(tree, request.ids)?;
    Ok(n)
}
