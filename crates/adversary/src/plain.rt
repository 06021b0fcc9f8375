ghost use Rattle.std.specs.Prelude.{◌≡◌, ◌+◌, ◌≤◌, ℕ, length, map, take, IfOk};
ghost use Rattle.std.specs.List.{range_with_len};
ghost use Rattle.lat_base.specs.Shape.{target_count};
ghost use Rattle.lat_base.specs.Goodness.{IsRobust};
ghost use Rattle.lat_base.specs.declared.limits.TheConstants.{MOST_BALLOTS};
ghost use Rattle.lat_ballots.specs.Plain.{plain_ballots, plain_size};
ghost use Rattle.evade_space.specs.Trees.{IsRobustTree};

use evade_space::Skipped;
use lat_base::{Rules, Shape};
use std::alloc::{AllocError, Global};
use tree_core::{Node, Tree};

/// A tree that shows, without a search, that nothing evades the plain deck of a style: it forks on
/// the images from the first one on, and each can have only itself as its source. A target with
/// more ballots of its own gives too many sure votes, and one with fewer is used already. So the
/// tree has a node for each target and one that closes. The only error is want of memory.
pub fn plain_robust(
    alloc: Global,
    shape: &Shape,
    rules: &Rules,
) -> Result<Tree<u16, Skipped>, AllocError>
    requires { plain_size (target_count shape.now) rules.now ≤ MOST_BALLOTS }
    ensures tree { IfOk result (IsRobustTree shape.now
        (plain_ballots (target_count shape.now) rules.now).ballots) }
    ensures rising { IfOk result (λ tree. take (target_count shape.now) tree
        ≡ map (λ u. Node.Fork u 1) (range_with_len 0 (target_count shape.now))) }
    ensures nodes { IfOk result (λ tree. length tree ≡ target_count shape.now + 1) }

    // The plain deck is robust.
    ensures robust { IsRobust shape.now (plain_ballots (target_count shape.now) rules.now).ballots }
{
    let targets = shape.targets();
    let _rules = rules.over();
    let mut nodes = Vec::with_capacity(alloc, usize::from(targets) + 1)?;
    for u in 0..targets {
        nodes.push(Node::Fork(u, 1))?;
    }
    nodes.push(Node::Close(Skipped))?;
    Ok(Tree::from_nodes(nodes))
}
