ghost use Rattle.std.specs.Prelude.{◌≡◌, ◌++◌, ℕ, List, OnOk};

use std::alloc::AllocError;

/// What takes the bytes of a file in, piece by piece.
///
/// Contracts speak of the bytes for which it stands by a relation, so that it needn't hold them.
pub trait Pieces {
    /// For which bytes it stands.
    ghost stands: { Self → List ℕ → Type 0 };

    /// Takes the next piece in. The only error is want of memory; nothing is known of it then.
    fn take_in(&mut self, piece: &[u8]) -> Result<(), AllocError>
        ensures { OnOk result ((bytes : List ℕ) → stands self.old bytes →
            stands self.new (bytes ++ piece.now)) };
}

// It stands for the bytes that it holds.
impl Pieces for Vec<u8> {
    ghost stands = { λ held bytes. held.items ≡ bytes };

    fn take_in(&mut self, piece: &[u8]) -> Result<(), AllocError> {
        self.extend_from_slice(piece)?;
        Ok(())
    }
}
