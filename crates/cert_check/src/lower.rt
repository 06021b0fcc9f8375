ghost use Rattle.std.specs.Prelude.{◌≡◌, ◌≤◌, IfOk};
ghost use Rattle.lat_base.specs.Part.{IsPart, part};
ghost use Rattle.lat_base.specs.declared.limits.TheConstants.{MOST_BALLOTS};
ghost use Rattle.cert_check.specs.Answers.{IsLowerAnswer};

use cert_types::Lower;
use deck_space::Decks;
use deck_state::Partial;
use lat_base::{Rules, Shape};
use projection::{PartFault, part};
use std::alloc::{AllocError, Global};
use tree_core::{Verdict0, check_tree};

// The shape of a part of the style.
fn part_of(alloc: Global, shape: &Shape, lower: &Lower) -> Result<Shape, AllocError>
    requires { IsPart shape.now lower.now.contests }
    ensures { IfOk result (λ part_shape. part_shape ≡ part shape.now lower.now.contests) }
{
    match part(alloc, shape, lower.contests.as_slice()) {
        Ok(part_shape) => Ok(part_shape),
        Err(fault) => match fault {
            PartFault::Memory => Err(AllocError),
            _ => unreachable!(),
        },
    }
}

/// The first node of a lower part's tree that doesn't hold over the decks of the part of its size.
/// The only error is want of memory.
pub(crate) fn lower_fault(
    alloc: Global,
    shape: &Shape,
    rules: &Rules,
    lower: &Lower,
) -> Result<Option<u64>, AllocError>
    requires part { IsPart shape.now lower.now.contests }
    requires few { lower.now.size ≤ MOST_BALLOTS }
    ensures { IfOk result (IsLowerAnswer shape.now rules.now lower.now) }
{
    lower.tree.lists_a_tree();
    let part_shape = part_of(alloc, shape, lower)?;
    let mut state = Partial::open(alloc, &part_shape, rules, lower.size)?;
    match check_tree(alloc, &Decks::new(), &mut state, &lower.tree)? {
        Verdict0::Holds => Ok(None),
        Verdict0::Fails(node) => Ok(Some(node)),
    }
}
