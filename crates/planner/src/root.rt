ghost use Rattle.std.specs.Prelude.{◌≡◌, ◌≤◌, Some, Ok, List};
ghost use Rattle.lat_base.specs.declared.limits.TheConstants.{MOST_BALLOTS};
ghost use Rattle.close_rules.specs.declared.label.Label.{Label};
ghost use Rattle.close_rules.specs.declared.reason.Reason.{Reason};
ghost use Rattle.tree_core.specs.declared.node.Node.{Node};
ghost use Rattle.planner.specs.Searched.{IsClosedTree};

use close_rules::{Label, Reason, cheap};
use deck_state::Partial;
use lat_base::{Rules, Shape};
use std::alloc::{AllocError, Global};
use tree_core::Tree;

/// The tree of one node, where a cheap reason holds of `k` ballots of which nothing is decided. The
/// only error is want of memory.
pub(crate) fn close_root(
    alloc: Global,
    shape: &Shape,
    rules: &Rules,
    k: u16,
) -> Result<Option<Tree<Label, Reason>>, AllocError>
    requires { k ≤ MOST_BALLOTS }
    ensures { (tree : List (Node Label Reason)) → result ≡ Ok (Some tree) →
        IsClosedTree shape.now rules.now k tree }
{
    let state = Partial::open(alloc, shape, rules, k)?;
    match cheap(&state) {
        Some(reason) => {
            let tree = Tree::close(alloc, reason)?;
            tree.lists_a_tree();
            Ok(Some(tree))
        }
        None => Ok(None),
    }
}
