ghost use Rattle.std.specs.Prelude.{◌≡◌, ◌++◌, OnOk, OnErr};
ghost use Rattle.cert_fields.specs.Spelling.{Takes, u16_text};
ghost use Rattle.cert_fields.specs.Reading.{u16_at};
ghost use Rattle.cert_fields.specs.Trees.{tree_text, IsTreeOf, AnyImage, AnySkipped, skipped_text};
ghost use Rattle.cert_fields.specs.TreeReading.{skipped_at};

use crate::trees::{put_tree, take_tree};
use crate::{CertFault, Spelt, put_u16, u16_of};
use evade_space::Skipped;
use std::alloc::{AllocError, Global};
use tree_core::Tree;

impl Spelt for u16 {
    ghost text = { u16_text };

    ghost fits = { AnyImage };

    ghost read_at = { u16_at };

    fn read(_alloc: Global, bytes: &[u8]) -> Result<(u16, &[u8]), CertFault> {
        u16_of(bytes)
    }

    fn put(&self, out: &mut Vec<u8>) -> Result<(), AllocError> {
        put_u16(out, *self)
    }

    #[tactic(auto, using(crate::proofs::Exact::u16_exact))]
    fn exact() {}
}

impl Spelt for Skipped {
    ghost text = { skipped_text };

    ghost fits = { AnySkipped };

    ghost read_at = { skipped_at };

    fn read(_alloc: Global, bytes: &[u8]) -> Result<(Skipped, &[u8]), CertFault> {
        Ok((Skipped, bytes))
    }

    fn put(&self, _out: &mut Vec<u8>) -> Result<(), AllocError> {
        Ok(())
    }

    #[tactic(auto, using(crate::proofs::Fields::skipped_exact))]
    fn exact() {}
}

/// The evade tree whose spelling the bytes begin with, and the length of that spelling.
pub fn take_evade_tree(
    alloc: Global,
    bytes: &[u8],
) -> Result<(Tree<u16, Skipped>, usize), CertFault>
    ensures { let text = tree_text u16_text skipped_text in
        Takes (IsTreeOf AnyImage AnySkipped) text result bytes.now }
{
    take_tree(alloc, bytes)
}

/// Appends an evade tree. After want of memory nothing is appended.
pub fn put_evade_tree(
    _alloc: Global,
    out: &mut Vec<u8>,
    tree: &Tree<u16, Skipped>,
) -> Result<(), AllocError>
    ensures ok { OnOk result (out.new.items ≡ out.old.items ++
        tree_text u16_text skipped_text tree.now) }
    ensures err { OnErr result (out.new.items ≡ out.old.items) }
    ensures spelled { OnOk result (IsTreeOf AnyImage AnySkipped tree.now) }
{
    put_tree(out, tree)
}
