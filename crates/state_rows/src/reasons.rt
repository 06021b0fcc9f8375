use crate::words::{pair, split_dot};
use anyhow::{Result, ensure};
use close_rules::Reason;
use lat_base::MOST_TARGETS;
use lat_misassign::Misassignment;
use row_words::number;
use std::alloc::Global;

// The exchange of two targets, as N.T.U: of N targets in all.
fn read_exchange(alloc: Global, word: &str) -> Result<Misassignment> {
    let (count, rest) = split_dot(word);
    let n = number(count)?;
    let (t, u) = pair(rest)?;
    ensure!(n <= MOST_TARGETS && t < n && u < n, "no exchange");
    Ok(Misassignment::swap(alloc, n, t, u)?)
}

// A reason with one number, a ballot's or a contest's.
fn read_single(head: &str, rest: &str) -> Result<Option<Reason>> {
    match head {
        "Order" => Ok(Some(Reason::Order(number(rest)?))),
        "Totals" => Ok(Some(Reason::Totals(number(rest)?))),
        "Capacity" => Ok(Some(Reason::Capacity(number(rest)?))),
        "Over" => Ok(Some(Reason::Over(number(rest)?))),
        "Pigeon" => Ok(Some(Reason::Pigeon(number(rest)?))),
        _ => Ok(None),
    }
}

// A reason with two numbers, of contests or of targets.
fn read_double(head: &str, rest: &str) -> Result<Option<Reason>> {
    match head {
        "Twin" => {
            let (c, d) = pair(rest)?;
            Ok(Some(Reason::Twin(c, d)))
        }
        "ContestOrder" => {
            let (c, d) = pair(rest)?;
            Ok(Some(Reason::ContestOrder(c, d)))
        }
        "Same" => {
            let (t, u) = pair(rest)?;
            Ok(Some(Reason::Same(t, u)))
        }
        _ => Ok(None),
    }
}

/// The reason that a word names, or None where it names none.
pub fn read_reason(alloc: Global, word: &str) -> Result<Option<Reason>> {
    let (head, rest) = split_dot(word);
    match head {
        "Blank" => Ok(Some(Reason::Blank)),
        "Columns" => Ok(Some(Reason::Columns)),
        "Evade" => Ok(Some(Reason::Evade(read_exchange(alloc, rest)?))),
        "Twin" | "ContestOrder" | "Same" => read_double(head, rest),
        _ => read_single(head, rest),
    }
}
