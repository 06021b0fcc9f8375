ghost use Rattle.std.specs.Prelude.{◌≡◌, ◌≢◌, ◌↔◌, ◌<◌, length, Some, None, Err, OnOk, IfOk};
ghost use Rattle.lat_base.specs.Part.{IsPart, part};
ghost use Rattle.projection.specs.PartFault.{place_fault, part_fault};

use crate::PartFault;
use lat_base::{Contest, Shape, ShapeFault};
use std::alloc::{AllocError, Global};

// The first place whose contest isn't in the style or isn't above the one before.
fn find_fault(shape: &Shape, contests: &[u16]) -> Option<PartFault>
    ensures { result ≡ place_fault (length shape.now) 0 0 contests.now }
{
    let count = shape.contests();
    let mut least: u16 = 0;
    for (i, c) in contests.iter().enumerate() {
        if *c >= count {
            return Some(PartFault::OutOfRange(i as u16));
        }
        if *c < least {
            return Some(PartFault::NotRising(i as u16));
        }
        least = *c + 1;
    }
    None
}

// The contests of a part, in order.
fn list_contests(alloc: Global, shape: &Shape, contests: &[u16]) -> Result<Vec<Contest>, AllocError>
    requires { IsPart shape.now contests.now }
    ensures { IfOk result (λ list. list.items ≡ part shape.now contests.now) }
{
    let mut list = Vec::with_capacity(alloc, contests.len())?;
    for c in contests {
        list.push(shape.contest(*c))?;
    }
    Ok(list)
}

// The shape of a part.
fn part_of(alloc: Global, shape: &Shape, contests: &[u16]) -> Result<Shape, AllocError>
    requires { IsPart shape.now contests.now }
    ensures { IfOk result (λ shape_of. shape_of ≡ part shape.now contests.now) }
{
    let _contests = shape.contests();
    let list = list_contests(alloc, shape, contests)?;
    match Shape::new(alloc, list.as_slice()) {
        Ok(shape) => Ok(shape),
        Err(e) => match e {
            ShapeFault::Memory => Err(AllocError),
            _ => unreachable!(),
        },
    }
}

/// The shape of those contests of a style, or the first fault: no contest, or the first place whose
/// contest isn't in the style, or else isn't above the one before.
pub fn part(alloc: Global, shape: &Shape, contests: &[u16]) -> Result<Shape, PartFault>
    ensures ok { IfOk result (λ part_shape. part_shape ≡ part shape.now contests.now) }
    ensures sound { OnOk result (IsPart shape.now contests.now) }
    ensures fault { (f : PartFault) → f ≢ PartFault.Memory → (result ≡ Err f) ↔
        (part_fault shape.now contests.now ≡ Some f) }
{
    if contests.is_empty() {
        return Err(PartFault::Empty);
    }
    if let Some(fault) = find_fault(shape, contests) {
        return Err(fault);
    }
    match part_of(alloc, shape, contests) {
        Ok(shape) => Ok(shape),
        Err(_) => Err(PartFault::Memory),
    }
}
