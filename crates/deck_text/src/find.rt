ghost use Rattle.std.specs.Prelude.{◌≡◌, ◌<◌, length, IfSome};
ghost use Rattle.std.specs.List.{position_from};
ghost use Rattle.lat_base.specs.Names.{NamesFit, names_at};
ghost use Rattle.lat_base.specs.Shape.{target_count, first_target};
ghost use Rattle.deck_text.specs.TargetNames.{is_called, names_in, target_names, target_called};

use lat_base::{Names, Shape};

// The number of the target of contest c with these ids.
#[tactic(auto, using(crate::proofs::Called::none_called, crate::proofs::Called::called_here, crate::proofs::Called::called_later, crate::proofs::Called::called_end, crate::proofs::Called::next_first))]
fn find_in(shape: &Shape, names: &Names, c: u16, contest: &[u8], target: &[u8]) -> Option<u16>
    requires fit { NamesFit names.now.contests shape.now }
    requires contest { c < length shape.now }
    ensures number { result ≡ position_from (is_called contest.now target.now)
        (first_target shape.now c) (names_in (names_at names.now.contests c)) }
    ensures range { IfSome result (λ t. t < target_count shape.now) }
{
    if names.contest(c).as_bytes() != contest {
        return None;
    }
    let _contests = shape.contests();
    let first = shape.first_of(c);
    let next = shape.first_of(c + 1);
    for t in first..next {
        if names.target(c, t - first).as_bytes() == target {
            return Some(t);
        }
    }
    None
}

/// The number of the target with these ids, where the style has one.
#[tactic(auto, using(crate::proofs::Called::contest_called, crate::proofs::Called::next_first))]
pub fn find_target(shape: &Shape, names: &Names, contest: &[u8], target: &[u8]) -> Option<u16>
    requires { NamesFit names.now.contests shape.now }
    ensures number { result
        ≡ target_called (target_names names.now.contests) contest.now target.now }
    ensures range { IfSome result (λ t. t < target_count shape.now) }
{
    for c in 0..shape.contests() {
        if let Some(t) = find_in(shape, names, c, contest, target) {
            return Some(t);
        }
    }
    None
}
