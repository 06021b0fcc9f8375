ghost use Rattle.std.specs.Prelude.{◌≡◌, ◌≢◌, ◌++◌, ℕ, Err, OnOk, OnErr, MatchOption};
ghost use Rattle.cert_fields.specs.Spelling.{Begins};
ghost use Rattle.cert_fields.specs.Reading.{Gives};
ghost use Rattle.close_rules.specs.declared.label.Label.{Label};
ghost use Rattle.cert_fields.specs.Trees.{label_text};
ghost use Rattle.cert_fields.specs.TreeReading.{label_at};
ghost use Rattle.cert_fields.specs.Trees.{AnyLabel};

use crate::{CertFault, Spelt, put_two, two_of, u8_of};
use close_rules::Label;
use std::alloc::{AllocError, Global};

/// The label at the front, and the bytes behind it.
#[tactic(auto, unfolding(crate::specs::TreeReading::label_at))]
pub(crate) fn label_of(bytes: &[u8]) -> Result<(Label, &[u8]), CertFault>
    ensures read { Gives (λ x. (x.0, x.1.now)) result (label_at bytes.now) }
    ensures no_memory { result ≢ Err CertFault.Memory }
{
    let (tag, rest) = u8_of(bytes)?;
    match tag {
        1 => {
            let ((j, t), rest) = two_of(rest)?;
            Ok((Label::Mark(j, t), rest))
        }
        2 => {
            let ((t, x), rest) = two_of(rest)?;
            Ok((Label::Split(t, x), rest))
        }
        _ => Err(CertFault::NotACertificate),
    }
}

/// Appends a label. After want of memory nothing is appended.
pub(crate) fn append_label(out: &mut Vec<u8>, label: &Label) -> Result<(), AllocError>
    ensures ok { OnOk result (out.new.items ≡ out.old.items ++ label_text label.now) }
    ensures err { OnErr result (out.new.items ≡ out.old.items) }
{
    match *label {
        Label::Mark(j, t) => put_two(out, 1, j, t),
        Label::Split(t, x) => put_two(out, 2, t, x),
    }
}

/// Appends a label: a tag and two numbers. After want of memory nothing is appended.
pub fn put_label(_alloc: Global, out: &mut Vec<u8>, label: &Label) -> Result<(), AllocError>
    ensures ok { OnOk result (out.new.items ≡ out.old.items ++ label_text label.now) }
    ensures err { OnErr result (out.new.items ≡ out.old.items) }
{
    append_label(out, label)
}

/// The label whose spelling the bytes begin with, and the length of that spelling; `None` exactly
/// where they begin with none.
pub fn take_label(bytes: &[u8]) -> Option<(Label, usize)>
    ensures { MatchOption result
        ((v : Label) (n : ℕ) → Begins AnyLabel label_text bytes.now v n → ⊥)
        (λ x. Begins AnyLabel label_text bytes.now x.0 x.1) }
{
    match label_of(bytes) {
        Ok((label, rest)) => Some((label, bytes.len() - rest.len())),
        Err(_) => None,
    }
}

impl Spelt for Label {
    ghost text = { label_text };

    ghost fits = { AnyLabel };

    ghost read_at = { label_at };

    fn read(_alloc: Global, bytes: &[u8]) -> Result<(Label, &[u8]), CertFault> {
        label_of(bytes)
    }

    fn put(&self, out: &mut Vec<u8>) -> Result<(), AllocError> {
        append_label(out, self)
    }

    #[tactic(auto, using(crate::proofs::Fields::label_exact))]
    fn exact() {}
}
