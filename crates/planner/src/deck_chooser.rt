ghost use Rattle.std.specs.Prelude.{◌≡◌, ◌≤◌, [], IfOk};
ghost use Rattle.circular_buffer.specs.Buffer.{buffer};

use circular_buffer::HeapCircularBuffer;
use close_rules::Reason;
use std::alloc::{AllocError, Global};

/// How many misassignments a chooser remembers.
const REMEMBERED: usize = 64;

/// Searches for a good canonical deck. A partial deck is closed by a cheap reason, or else by one
/// of the misassignments remembered; a complete one is attacked.
#[derive(Drop)]
pub(crate) struct DeckChooser {
    /// The reasons `Evade` by which partial decks were closed, the latest last.
    pub(crate) kept: HeapCircularBuffer<Reason>,
    /// How many nodes an attack may have.
    pub(crate) budget: u64,
    ghost some: { 1 ≤ budget },
}

impl DeckChooser {
    /// A chooser that remembers nothing yet.
    pub(crate) fn new(alloc: Global, budget: u64) -> Result<DeckChooser, AllocError>
        requires { 1 ≤ budget }
        ensures kept { IfOk result (λ chooser. chooser.kept ≡ buffer [] 64) }
        ensures budget { IfOk result (λ chooser. chooser.budget ≡ budget) }
    {
        let kept = HeapCircularBuffer::with_capacity(alloc, REMEMBERED)?;
        Ok(DeckChooser { kept, budget })
    }
}
