ghost use Rattle.std.specs.Prelude.{◌≡◌, ◌<◌, ◌^◌, ◌∷◌, [], ℕ, List, Option, Some, None, Result};
ghost use Rattle.std.specs.Prelude.{Ok, Err, IfOk, length, true};
ghost use Rattle.lat_base.specs.Names.{StyleNames};
ghost use Rattle.cert_fields.specs.Spelling.{Begins};
ghost use Rattle.cert_fields.specs.Reading.{Gives, id_at, many_at};
ghost use Rattle.cert_fields.specs.Head.{Head, IsHead, head_text, contest_at, contests_at, flag_at};
ghost use Rattle.cert_fields.specs.Head.{rules_at, style_at, head_at};

use crate::{CertFault, text_of, two_of, u8_of, u16_of};
use lat_base::{Contest, Id, NameFault, Names, Names0, Rules, Shape, ShapeFault};
use std::alloc::Global;

// So many ids at the front.
fn ids_of(alloc: Global, count: u16, bytes: &[u8]) -> Result<(Names0, &[u8]), CertFault>
    ensures { Gives (λ x. (x.0, x.1.now)) result (many_at id_at count bytes.now) }
{
    let mut ids = Names0::new(alloc);
    let mut rest = bytes;
    for _ in 0..count {
        let (id, after) = text_of(alloc, rest)?;
        ids.push(id)?;
        rest = after;
    }
    Ok((ids, rest))
}

// The ids of a contest and its numbers.
#[tactic(auto, unfolding(crate::specs::Head::contest_at))]
fn contest_of(alloc: Global, bytes: &[u8]) -> Result<((Id, Names0, Contest), &[u8]), CertFault>
    ensures { Gives (λ x. ((record { id = x.0.0; targets = x.0.1 }, x.0.2), x.1.now)) result
        (contest_at bytes.now) }
{
    let (id, rest) = text_of(alloc, bytes)?;
    let (limit, rest) = u16_of(rest)?;
    let (targets, rest) = u16_of(rest)?;
    let (ids, rest) = ids_of(alloc, targets, rest)?;
    Ok(((id, ids, Contest { limit, targets }), rest))
}

// So many contests of a style.
fn contests_of(
    alloc: Global,
    style: Id,
    count: u16,
    bytes: &[u8],
) -> Result<(Names, Vec<Contest>, &[u8]), CertFault>
    ensures read { Gives (λ x. ((x.0.contests, x.1.items), x.2.now)) result
        (contests_at count [] [] bytes.now) }
    ensures style { IfOk result (λ x. x.0.style ≡ style) }
    ensures few { IfOk result (λ x. length x.1.items < 2 ^ 32) }
{
    let mut names = Names::new(alloc, style);
    let mut contests = Vec::new(alloc);
    let mut rest = bytes;
    for _ in 0..count {
        let ((id, targets, contest), after) = contest_of(alloc, rest)?;
        match names.add(id, targets) {
            Ok(()) => {}
            Err(NameFault::Repeated) => return Err(CertFault::NotACertificate),
            Err(NameFault::Memory) => return Err(CertFault::Memory),
        }
        contests.push(contest)?;
        rest = after;
    }
    Ok((names, contests, rest))
}

// The flag and the numbers of the rules.
#[tactic(auto, unfolding(crate::specs::Head::rules_at))]
fn rules_of(bytes: &[u8]) -> Result<(Rules, &[u8]), CertFault>
    ensures { Gives (λ x. (x.0, x.1.now)) result (rules_at bytes.now) }
{
    let (flag, rest) = u8_of(bytes)?;
    if flag > 1 {
        return Err(CertFault::NotACertificate);
    }
    let (least, rest) = u16_of(rest)?;
    let ((blank, over), rest) = two_of(rest)?;
    match Rules::new(flag == 1, least, blank, over) {
        Ok(rules) => Ok((rules, rest)),
        Err(_) => Err(CertFault::NotACertificate),
    }
}

// The names and the shape.
#[tactic(auto, unfolding(crate::specs::Head::style_at))]
fn style_of(alloc: Global, bytes: &[u8]) -> Result<(Names, Shape, &[u8]), CertFault>
    ensures { Gives (λ x. ((x.0, x.1), x.2.now)) result (style_at bytes.now) }
{
    let (id, rest) = text_of(alloc, bytes)?;
    let (count, rest) = u16_of(rest)?;
    let (names, contests, rest) = contests_of(alloc, id, count, rest)?;
    match Shape::new(alloc, &contests) {
        Ok(shape) => Ok((names, shape, rest)),
        Err(fault) => match fault {
            ShapeFault::Memory => Err(CertFault::Memory),
            _ => Err(CertFault::NotACertificate),
        },
    }
}

/// The head at the front, and the bytes behind it.
#[tactic(auto, unfolding(crate::specs::Head::head_at))]
pub fn head_of(alloc: Global, bytes: &[u8]) -> Result<(Names, Shape, Rules, &[u8]), CertFault>
    ensures { Gives (λ x. (record { names = x.0; contests = x.1; rules = x.2 }, x.3.now)) result
        (head_at bytes.now) }
{
    match style_of(alloc, bytes) {
        Ok((names, shape, rest)) => match rules_of(rest) {
            Ok((rules, rest)) => Ok((names, shape, rules, rest)),
            Err(fault) => Err(fault),
        },
        Err(fault) => Err(fault),
    }
}

/// The head whose spelling the bytes begin with, and the length of that spelling.
pub fn take_head(alloc: Global, bytes: &[u8]) -> Result<(Names, Shape, Rules, usize), CertFault>
    ensures found { IfOk result (λ x. Begins IsHead head_text bytes.now
        (record { names = x.0; contests = x.1; rules = x.2 }) x.3) }
    ensures refused { result ≡ Err CertFault.NotACertificate →
        (v : Head) (n : ℕ) → Begins IsHead head_text bytes.now v n → ⊥ }
{
    match head_of(alloc, bytes) {
        Ok((names, shape, rules, rest)) => Ok((names, shape, rules, bytes.len() - rest.len())),
        Err(fault) => Err(fault),
    }
}
