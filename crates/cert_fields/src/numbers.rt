ghost use Rattle.std.specs.Prelude.{◌≡◌, ◌≢◌, ◌++◌, ◌∷◌, [], Err, OnOk, OnErr};
ghost use Rattle.cert_fields.specs.Spelling.{u16_text};
ghost use Rattle.cert_fields.specs.Reading.{Gives, u8_at, u16_at, two_at};

use crate::CertFault;
use std::alloc::AllocError;

/// The byte at the front, and the bytes behind it.
pub fn u8_of(bytes: &[u8]) -> Result<(u8, &[u8]), CertFault>
    ensures read { Gives (λ x. (x.0, x.1.now)) result (u8_at bytes.now) }
    ensures no_memory { result ≢ Err CertFault.Memory }
{
    match bytes {
        [] => Err(CertFault::NotACertificate),
        [byte, rest @ ..] => Ok((*byte, rest)),
    }
}

/// The number of two bytes at the front, and the bytes behind them.
pub fn u16_of(bytes: &[u8]) -> Result<(u16, &[u8]), CertFault>
    ensures read { Gives (λ x. (x.0, x.1.now)) result (u16_at bytes.now) }
    ensures no_memory { result ≢ Err CertFault.Memory }
{
    match bytes {
        [high, low, rest @ ..] => Ok((u16::from(*high) * 256 + u16::from(*low), rest)),
        _ => Err(CertFault::NotACertificate),
    }
}

/// The two numbers at the front, and the bytes behind them.
pub fn two_of(bytes: &[u8]) -> Result<((u16, u16), &[u8]), CertFault>
    ensures read { Gives (λ x. (x.0, x.1.now)) result (two_at bytes.now) }
    ensures no_memory { result ≢ Err CertFault.Memory }
{
    let (first, rest) = u16_of(bytes)?;
    let (second, rest) = u16_of(rest)?;
    Ok(((first, second), rest))
}

/// Appends a byte.
pub fn put_u8(out: &mut Vec<u8>, n: u8) -> Result<(), AllocError>
    ensures ok { OnOk result (out.new.items ≡ out.old.items ++ n ∷ []) }
    ensures err { OnErr result (out.new.items ≡ out.old.items) }
{
    Ok(out.push(n)?)
}

/// Appends the two bytes of a number.
pub fn put_u16(out: &mut Vec<u8>, n: u16) -> Result<(), AllocError>
    ensures ok { OnOk result (out.new.items ≡ out.old.items ++ u16_text n) }
    ensures err { OnErr result (out.new.items ≡ out.old.items) }
{
    out.extend_from_slice(&[(n / 256) as u8, (n % 256) as u8])
}

/// Appends a byte and a number.
pub fn put_one(out: &mut Vec<u8>, tag: u8, n: u16) -> Result<(), AllocError>
    ensures ok { OnOk result (out.new.items ≡ out.old.items ++ tag ∷ u16_text n) }
    ensures err { OnErr result (out.new.items ≡ out.old.items) }
{
    out.extend_from_slice(&[tag, (n / 256) as u8, (n % 256) as u8])
}

/// Appends a byte and two numbers.
pub fn put_two(out: &mut Vec<u8>, tag: u8, m: u16, n: u16) -> Result<(), AllocError>
    ensures ok { OnOk result (out.new.items ≡ out.old.items ++ tag ∷ (u16_text m ++ u16_text n)) }
    ensures err { OnErr result (out.new.items ≡ out.old.items) }
{
    out.extend_from_slice(&[
        tag,
        (m / 256) as u8,
        (m % 256) as u8,
        (n / 256) as u8,
        (n % 256) as u8,
    ])
}
