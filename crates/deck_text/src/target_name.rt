ghost use Rattle.std.specs.Prelude.{◌≡◌, ◌<◌, IsTrue};
ghost use Rattle.std.specs.List.{list_all};
ghost use Rattle.lat_base.specs.Id.{is_id_byte};
ghost use Rattle.lat_base.specs.Names.{NamesFit};
ghost use Rattle.lat_base.specs.Shape.{target_count};
ghost use Rattle.deck_text.specs.TargetNames.{target_names, name_at};

use lat_base::{Names, Shape};

/// The name of a target: the id of its contest, and its own.
#[derive(Clone, Copy)]
pub struct TargetName<'a> {
    pub contest: &'a [u8],
    pub target: &'a [u8],
}

impl<'a> TargetName<'a> {
    /// The name of target `t` of the style.
    pub fn of(shape: &Shape, names: &'a Names, t: u16) -> TargetName<'a>
        requires fit { NamesFit names.now.contests shape.now }
        requires target { t < target_count shape.now }
        ensures contest { result.contest.now
            ≡ (name_at (target_names names.now.contests) t).contest }
        ensures target { result.target.now ≡ (name_at (target_names names.now.contests) t).target }
        ensures contest_id { IsTrue (list_all is_id_byte result.contest.now) }
        ensures target_id { IsTrue (list_all is_id_byte result.target.now) }
    {
        let c = shape.contest_of(t);
        let i = t - shape.first_of(c);
        TargetName {
            contest: names.contest(c).as_bytes(),
            target: names.target(c, i).as_bytes(),
        }
    }
}
