ghost use Rattle.std.specs.Prelude.{◌≡◌, ◌++◌, IfOk, OnOk, OnErr, flat_map, length, take};
ghost use Rattle.cert_fields.specs.Spelling.{u16_text};
ghost use Rattle.cert_fields.specs.Reading.{Gives, u16_at, many_at};

use crate::CertFault;
use crate::numbers::{put_u16, u16_of};
use std::alloc::{AllocError, Global};

/// So many numbers at the front, and the bytes behind them.
pub fn numbers_of(alloc: Global, count: u16, bytes: &[u8]) -> Result<(Vec<u16>, &[u8]), CertFault>
    ensures read { Gives (λ x. (x.0.items, x.1.now)) result (many_at u16_at count bytes.now) }
    ensures count { IfOk result (λ x. length x.0.items ≡ count) }
{
    let mut numbers = Vec::new(alloc);
    let mut rest = bytes;
    for _ in 0..count {
        let (number, after) = u16_of(rest)?;
        numbers.push(number)?;
        rest = after;
    }
    Ok((numbers, rest))
}

// Appends each number; after want of memory perhaps only the first ones.
fn append_numbers(out: &mut Vec<u8>, numbers: &[u16]) -> Result<(), AllocError>
    ensures ok { OnOk result (out.new.items ≡ out.old.items ++ flat_map u16_text numbers.now) }
    ensures kept { take (length out.old.items) out.new.items ≡ out.old.items }
{
    for number in numbers {
        put_u16(out, *number)?;
    }
    Ok(())
}

/// Appends each number. After want of memory nothing is appended.
pub fn put_numbers(out: &mut Vec<u8>, numbers: &[u16]) -> Result<(), AllocError>
    ensures ok { OnOk result (out.new.items ≡ out.old.items ++ flat_map u16_text numbers.now) }
    ensures err { OnErr result (out.new.items ≡ out.old.items) }
{
    let before = out.len();
    let done = append_numbers(out, numbers);
    if done.is_err() {
        out.truncate(before);
    }
    done
}
