ghost use Rattle.std.specs.Prelude.{◌≡◌, ◌≤◌, ◌↔◌, IfOk, IsTrue};
ghost use Rattle.lat_base.specs.Shape.{target_count};
ghost use Rattle.lat_base.specs.declared.limits.TheConstants.{MOST_BALLOTS};
ghost use Rattle.cert_types.specs.License.{IsAttackedDeck};
ghost use Rattle.cert_check.specs.Answers.{HasTargets, IsLicenseAnswer, IsOpenTreeAnswer};

use crate::robust::open_robust_fault;
use crate::rules::keeps_rules;
use cert_types::License;
use close_rules::{Label, Reason};
use deck_space::Decks;
use deck_state::Partial;
use lat_ballots::Deck;
use lat_base::{Rules, Shape};
use std::alloc::{AllocError, Global};
use symmetry::is_canonical;
use tree_core::{Tree, Verdict0, check_open};

// Whether a deck has `from` ballots, is canonical and obeys the rules.
fn is_attacked(shape: &Shape, rules: &Rules, from: u16, deck: &Deck) -> bool
    requires { deck.now.targets ≡ target_count shape.now }
    ensures { IsTrue result ↔ IsAttackedDeck shape.now rules.now from deck.now }
{
    deck.ballots() == from && is_canonical(shape, deck) && keeps_rules(shape, rules, deck)
}

// The first node, but for open ones, that doesn't hold of a tree over the decks of `from` ballots.
fn open_tree_fault(
    alloc: Global,
    shape: &Shape,
    rules: &Rules,
    from: u16,
    tree: &Tree<Label, Reason>,
) -> Result<Option<u64>, AllocError>
    requires { from ≤ MOST_BALLOTS }
    ensures { IfOk result (IsOpenTreeAnswer shape.now rules.now from tree.now) }
{
    tree.lists_a_tree();
    let mut state = Partial::open(alloc, shape, rules, from)?;
    match check_open(alloc, &Decks::new(), &mut state, tree)? {
        Verdict0::Holds => Ok(None),
        Verdict0::Fails(node) => Ok(Some(node)),
    }
}

/// The first node of a license that doesn't hold, where open ones do; 0 also where its deck hasn't
/// `from` ballots, isn't canonical or breaks a rule. The only error is want of memory.
pub(crate) fn license_fault(
    alloc: Global,
    shape: &Shape,
    rules: &Rules,
    from: u16,
    license: &License,
) -> Result<Option<u64>, AllocError>
    requires few { from ≤ MOST_BALLOTS }
    requires targets { HasTargets shape.now license.now }
    ensures { IfOk result (IsLicenseAnswer shape.now rules.now from license.now) }
{
    match license {
        License::Tree(tree) => {
            let fault = open_tree_fault(alloc, shape, rules, from, tree)?;
            Ok(fault)
        }
        License::Deck(deck, tree) => {
            if !is_attacked(shape, rules, from, deck) {
                return Ok(Some(0));
            }
            let fault = open_robust_fault(alloc, shape, deck, tree)?;
            Ok(fault)
        }
    }
}
