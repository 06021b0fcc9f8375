ghost use Rattle.std.specs.Prelude.{◌≡◌, ◌<◌, ◌+◌, length};
ghost use Rattle.lat_base.specs.Shape.{target_count, first_target, contest_at};

use lat_base::Shape;

/// Target number `i` of contest `c`.
#[tactic(auto, using(readings::proofs::Places::nth_within))]
pub fn target_of(shape: &Shape, c: u16, i: u16) -> u16
    requires contest { c < length shape.now }
    requires target { i < (contest_at shape.now c).targets }
    ensures value { result ≡ first_target shape.now c + i }
    ensures within { result < target_count shape.now }
{
    let _contests = shape.contests();
    shape.first_of(c) + i
}
