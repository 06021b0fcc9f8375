ghost use Rattle.std.specs.Prelude.{◌≡◌, ◌<◌, ◌+◌, ◌-◌, IfOk};
ghost use Rattle.cert_fields.specs.TreeReading.{kids_of};

use cert_fields::kids_of;
use std::alloc::AllocError;
use tree_core::Node;

/// How many trees are still wanted behind a node, where so many are before it.
pub(crate) fn wanted_behind<B, R>(wanted: u64, node: &Node<B, R>) -> Result<u64, AllocError>
    requires { 0 < wanted }
    ensures { IfOk result (λ after. after ≡ wanted - 1 + kids_of node.now) }
{
    match (wanted - 1).checked_add(kids_of(node) as u64) {
        Some(after) => Ok(after),
        // No memory holds the nodes of so many trees.
        None => Err(AllocError),
    }
}
