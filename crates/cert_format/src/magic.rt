ghost use Rattle.std.specs.Prelude.{◌≡◌, length};
ghost use Rattle.cert_fields.specs.Reading.{Gives};
ghost use Rattle.cert_format.specs.Reading.{magic_at};

use cert_types::CertFault;

/// The bytes behind a file's first eight, where these are the ones that its kind begins with.
pub fn magic_of<'a>(bytes: &'a [u8], magic: &[u8]) -> Result<&'a [u8], CertFault>
    requires { length magic.now ≡ 8 }
    ensures { Gives (λ rest. rest.now) result (magic_at magic.now bytes.now) }
{
    if bytes.len() < 8 {
        return Err(CertFault::NotACertificate);
    }
    let (front, rest) = bytes.split_at(8);
    if front == magic {
        Ok(rest)
    } else {
        Err(CertFault::NotACertificate)
    }
}
