ghost use Rattle.std.specs.Prelude.{◌≡◌, ◌<◌, ◌++◌, IfOk};
ghost use Rattle.lat_base.specs.Names.{NamesFit};
ghost use Rattle.lat_base.specs.Shape.{target_count};
ghost use Rattle.deck_text.specs.TargetNames.{target_names};
ghost use Rattle.deck_text.specs.TotalsText.{total_line, totals_text};

use crate::table::Table;
use crate::target_name::TargetName;
use lat_ballots::Deck;
use lat_base::{Names, Shape};
use lat_tabulate::total;
use std::alloc::{AllocError, Global};

// The table with the row of target t.
#[tactic(auto, using(crate::proofs::Decimals::number_ids))]
fn write_total(
    alloc: Global,
    table: Table,
    shape: &Shape,
    names: &Names,
    deck: &Deck,
    t: u16,
) -> Result<Table, AllocError>
    requires fit { NamesFit names.now.contests shape.now }
    requires targets { deck.now.targets ≡ target_count shape.now }
    requires target { t < target_count shape.now }
    ensures { IfOk result
        (λ after. after
        ≡ table ++ total_line shape.now (target_names names.now.contests) deck.now.ballots t) }
{
    let name = TargetName::of(shape, names, t);
    let votes = total(shape, deck, t).to_string(alloc)?;
    table.row(name.contest, name.target, votes.as_bytes())
}

/// The text of the file of a deck's totals: the header `contest,target,total`, and for each target
/// of the style, in order, the ids of its contest and its own and the votes that the deck gives it,
/// each target counting for itself. Fields are separated by commas, each row ends with one line
/// feed, and no field has quotes (RFC 4180).
///
/// The one error is want of memory.
pub fn totals_csv(
    alloc: Global,
    shape: &Shape,
    names: &Names,
    deck: &Deck,
) -> Result<Vec<u8>, AllocError>
    requires fit { NamesFit names.now.contests shape.now }
    requires targets { deck.now.targets ≡ target_count shape.now }
    ensures { IfOk result
        (λ bytes. bytes.items ≡ totals_text shape.now names.now.contests deck.now.ballots) }
{
    let mut table = Table::new(alloc).row(b"contest", b"target", b"total")?;
    for t in 0..shape.targets() {
        table = write_total(alloc, table, shape, names, deck, t)?;
    }
    table.into_bytes()
}
