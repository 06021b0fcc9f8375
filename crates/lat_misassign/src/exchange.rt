ghost use Rattle.std.specs.Prelude.{◌≡◌, ◌<◌, ◌≤◌, length, true};
ghost use Rattle.lat_base.specs.Shape.{target_count, IsShape};
ghost use Rattle.lat_misassign.specs.Sources.{is_in, counterpart, exchanged};

use lat_base::Shape;

// Whether target `u` is of contest `c`.
fn is_in(shape: &Shape, c: u16, u: u16) -> bool
    requires contest { c < length shape.now }
    requires shape { IsShape shape.now }
    ensures { result ≡ is_in shape.now c u }
{
    shape.first_of(c) <= u && u < shape.first_of(c + 1)
}

// The target of contest `d` at the place that target `u` has in contest `c`.
fn counterpart(shape: &Shape, c: u16, d: u16, u: u16) -> u16
    requires from { c < length shape.now }
    requires to { d < length shape.now }
    requires shape { IsShape shape.now }
    requires target { u < target_count shape.now }
    requires inside { is_in shape.now c u ≡ true }
    ensures { result ≡ counterpart shape.now c d u }
{
    shape.first_of(d) + (u - shape.first_of(c))
}

// The source of target `u` where the contests `c` and `d` are exchanged target by target.
pub(crate) fn exchanged(shape: &Shape, c: u16, d: u16, u: u16) -> u16
    requires first { c < length shape.now }
    requires second { d < length shape.now }
    requires shape { IsShape shape.now }
    requires target { u < target_count shape.now }
    ensures { result ≡ exchanged shape.now c d u }
{
    if is_in(shape, c, u) {
        counterpart(shape, c, d, u)
    } else if is_in(shape, d, u) {
        counterpart(shape, d, c, u)
    } else {
        u
    }
}
