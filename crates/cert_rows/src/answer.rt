use cert_format::{read_cert, read_evade, read_open, write_cert, write_evade, write_open};
use cert_types::CertFault;
use std::alloc::Global;

/// What reading bytes as a file of one kind came to.
#[derive(Clone, Copy, Debug, PartialEq, Eq)]
pub enum Answer {
    /// They are such a file, and writing it gives them again.
    Again,
    /// They are such a file, and writing it gives other bytes.
    Otherwise,
    /// They are no such file.
    Refused,
    Memory,
}

impl Answer {
    // What reading and writing them again comes to.
    fn of(written: Result<Vec<u8>, CertFault>, bytes: &[u8]) -> Answer {
        match written {
            Ok(written) => {
                if written.as_slice() == bytes {
                    Answer::Again
                } else {
                    Answer::Otherwise
                }
            }
            Err(CertFault::NotACertificate) => Answer::Refused,
            Err(CertFault::Memory) => Answer::Memory,
        }
    }

    /// The answer where they are read as a certificate.
    pub fn as_certificate(alloc: Global, bytes: &[u8]) -> Answer {
        Answer::of(certificate_again(alloc, bytes), bytes)
    }

    /// The answer where they are read as an open file.
    pub fn as_open(alloc: Global, bytes: &[u8]) -> Answer {
        Answer::of(open_again(alloc, bytes), bytes)
    }

    /// The answer where they are read as an evade file.
    pub fn as_evade(alloc: Global, bytes: &[u8]) -> Answer {
        Answer::of(evade_again(alloc, bytes), bytes)
    }

    /// A word for it.
    pub fn word(self) -> &'static str {
        match self {
            Answer::Again => "yes",
            Answer::Otherwise => "otherwise",
            Answer::Refused => "no",
            Answer::Memory => "memory",
        }
    }
}

fn certificate_again(alloc: Global, bytes: &[u8]) -> Result<Vec<u8>, CertFault> {
    let cert = read_cert(alloc, bytes)?;
    Ok(write_cert(alloc, &cert)?)
}

fn open_again(alloc: Global, bytes: &[u8]) -> Result<Vec<u8>, CertFault> {
    let file = read_open(alloc, bytes)?;
    Ok(write_open(alloc, &file)?)
}

fn evade_again(alloc: Global, bytes: &[u8]) -> Result<Vec<u8>, CertFault> {
    match read_evade(alloc, bytes) {
        Ok((names, shape, rules, deck, tree)) => {
            Ok(write_evade(alloc, &names, &shape, &rules, &deck, &tree)?)
        }
        Err(fault) => Err(fault),
    }
}
