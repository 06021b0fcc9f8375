ghost use Rattle.std.specs.Prelude.{◌≡◌, ◌≤◌, ◌++◌, [], ℕ, List, Bool, true, false, length, Option, Some, Err, IfOk, OnOk};
ghost use Rattle.cert_fields.specs.declared.fault.CertFault.{CertFault};
ghost use Rattle.cert_types.specs.declared.part.Part.{Part};
ghost use Rattle.cert_stream.specs.declared.front.Front.{Front};
ghost use Rattle.cert_stream.specs.Answer.{IsAnswer, IsNone, IsNoFront, checked_of};
ghost use Rattle.cert_stream.specs.Left.{whole_at};
ghost use Rattle.cert_stream.specs.Phases.{IsPhase, waits};
ghost use Rattle.cert_stream.specs.Stands.{Held, StandsAt, StandsFor, Moves, IsTail};

use crate::front::Front;
use crate::head::Head;
use crate::phase::{Phase, waits};
use crate::step::step;
use cert_types::{CertFault, Checked, Part, Verdict};
use std::alloc::Global;
use std::marker::Model;
use std::mem;

/// The check of a certificate that comes in pieces. It holds the bytes of at most one field, the
/// state of the tree that is being checked, and the Forks on the way to it; it keeps no tree, and
/// reads fields alone once it has met the first fault. It stands for the bytes so far by a relation
/// over what it holds (`specs/Stands.antt`).
#[derive(Debug, Drop)]
pub struct StreamCheck {
    alloc: Global,
    phase: Phase,
    // What has come and isn't read.
    buffer: Vec<u8>,
    fault: Option<CertFault>,
}

impl Model for StreamCheck {
    ghost use Rattle.cert_stream.specs.Phases.{IsPhase};
    ghost use Rattle.cert_stream.specs.Stands.{Held};

    ghost Value = { Held };

    ghost view = { λ s.
        record { phase = s.phase; buffer = s.buffer.items; fault = s.fault } };

    ghost invariant = { λ s. IsPhase s.phase };
}

// Reads fields from the front until it has to wait for more bytes; with `ending` none come, and it
// reads to the end. It gives the place it has come to and the bytes that are left.
fn read_on<'a>(
    alloc: Global,
    from: Phase,
    bytes: &'a [u8],
    ending: bool,
) -> Result<(Phase, &'a [u8]), CertFault>
    requires { IsPhase from }
    ensures phase { IfOk result (λ x. IsPhase x.0) }
    ensures moves { IfOk result (λ x. Moves from bytes.now x.0 x.1.now) }
    ensures tail { IfOk result (λ x. IsTail bytes.now x.1.now) }
    ensures shorter { IfOk result (λ x. length x.1.now ≤ length bytes.now) }
    ensures waits { IfOk result (λ x. waits x.0 (length x.1.now) ending ≡ true) }
    ensures refused { result ≡ Err CertFault.NotACertificate → (all : List ℕ) →
        StandsAt from bytes.now all → whole_at all ≡ Option.None }
    ensures for_good { result ≡ Err CertFault.NotACertificate → ending ≡ false → (all : List ℕ) →
        StandsAt from bytes.now all → (more : List ℕ) → whole_at (all ++ more) ≡ Option.None }
{
    let mut phase = from;
    let mut rest = bytes;
    while !waits(&phase, rest.len(), ending) {
        let (next, after) = step(alloc, phase, rest)?;
        phase = next;
        rest = after;
    }
    Ok((phase, rest))
}

// What the check says, by the first fault.
fn checked_of(verdict: Verdict, fault: Option<(Part, u64)>) -> Checked
    ensures { result ≡ checked_of verdict fault }
{
    match fault {
        Some((part, node)) => Checked::No(part, node),
        None => Checked::Yes(verdict),
    }
}

// What is answered at the end.
fn answer(front: Front, fault: Option<(Part, u64)>) -> (Head, Checked)
    ensures { (all : List ℕ) → StandsAt (Phase.Done front fault) [] all →
        IsAnswer all result.0 result.1 }
{
    let checked = checked_of(front.verdict, fault);
    let head = Head {
        names: front.names,
        targets: front.shape.targets(),
        verdict: front.verdict,
        best: front.best,
    };
    (head, checked)
}

// What is answered where all was read.
fn ended(phase: Phase) -> (Head, Checked)
    requires { (front : Front) × (fault : Option (Part × ℕ)) × (phase ≡ Phase.Done front fault) }
    ensures { (all : List ℕ) → StandsAt phase [] all → IsAnswer all result.0 result.1 }
{
    match phase {
        Phase::Done(front, fault) => answer(front, fault),
        _ => unreachable!(),
    }
}

impl StreamCheck {
    /// A stream of no bytes. It takes no memory.
    pub fn new(alloc: Global) -> StreamCheck
        ensures { StandsFor result [] }
    {
        StreamCheck {
            alloc,
            phase: Phase::Start,
            buffer: Vec::new(alloc),
            fault: None,
        }
    }

    // Takes a piece in, where no error was met.
    fn take_in(&mut self, piece: &[u8]) -> Result<(), CertFault>
        requires { self.old.fault ≡ Option.None }
        ensures ok { OnOk result ((bytes : List ℕ) → StandsFor self.old bytes →
            StandsFor self.new (bytes ++ piece.now)) }
        ensures refused { result ≡ Err CertFault.NotACertificate → (bytes : List ℕ) →
            StandsFor self.old bytes → IsNoFront (bytes ++ piece.now) }
    {
        self.buffer.extend_from_slice(piece)?;
        let phase = mem::replace(&mut self.phase, Phase::Start);
        let (phase, rest) = read_on(self.alloc, phase, &self.buffer, false)?;
        let used = self.buffer.len() - rest.len();
        let rest = self.buffer.split_off(used)?;
        self.buffer = rest;
        self.phase = phase;
        Ok(())
    }

    /// Takes the next piece of the certificate. `NotACertificate` is answered only where no
    /// certificate begins with the bytes so far, and where one doesn't that may show later, at the
    /// end at last. After an error, which may also be want of memory, each later call gives the
    /// same error.
    pub fn feed(&mut self, piece: &[u8]) -> Result<(), CertFault>
        ensures ok { OnOk result ((bytes : List ℕ) → StandsFor self.old bytes →
            StandsFor self.new (bytes ++ piece.now)) }
        ensures refused { result ≡ Err CertFault.NotACertificate → (bytes : List ℕ) →
            StandsFor self.old bytes → IsNoFront (bytes ++ piece.now) }
        ensures kept { (fault : CertFault) → result ≡ Err fault → self.new.fault ≡ Some fault }
        ensures same { (fault : CertFault) → self.old.fault ≡ Some fault → result ≡ Err fault }
    {
        if let Some(fault) = self.fault {
            return Err(fault);
        }
        let done = self.take_in(piece);
        if let Err(fault) = done {
            self.fault = Some(fault);
        }
        done
    }

    /// The end of the certificate: its head, and what its check says of it, as reading and checking
    /// the whole says; `NotACertificate` exactly where the bytes fed aren't the spelling of one.
    pub fn end(self) -> Result<(Head, Checked), CertFault>
        ensures found { IfOk result (λ x. (bytes : List ℕ) → StandsFor self bytes →
            IsAnswer bytes x.0 x.1) }
        ensures refused { result ≡ Err CertFault.NotACertificate → (bytes : List ℕ) →
            StandsFor self bytes → IsNone bytes }
        ensures same { (fault : CertFault) → self.fault ≡ Some fault → result ≡ Err fault }
    {
        if let Some(fault) = self.fault {
            return Err(fault);
        }
        let (phase, _rest) = read_on(self.alloc, self.phase, &self.buffer, true)?;
        Ok(ended(phase))
    }
}
