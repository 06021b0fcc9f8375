ghost use Rattle.std.specs.Prelude.{◌≡◌, ◌+◌, ◌<◌, ◌^◌, true, IfOk, OnOk, OnErr};
ghost use Rattle.lat_base.specs.Rules.{rule_set};
ghost use Rattle.sample_styles.specs.Drawing.{style_after, behind_style};
ghost use Rattle.sample_styles.specs.SampleStyles.{sample_id};

use crate::Sample;
use crate::generator::draw_style;
use lat_base::{Id, IdFault, Rules, Shape};
use std::alloc::{AllocError, Global};
use std::marker::Model;

/// Where the drawing of styles stands: the generator's number, and how many styles were made.
#[derive(Debug, Drop)]
pub struct Samples {
    x: u32,
    made: u32,
}

impl Model for Samples {
    ghost use Rattle.sample_styles.specs.Drawing.{Drawing};

    ghost Value = { Drawing };

    ghost view = { λ a. record { x = a.x; made = a.made } };
}

// The id of style i: the letter s and then i in decimal.
#[tactic(auto, using(crate::proofs::SampleIds::sample_id_fits))]
fn sample_id(alloc: Global, i: u32) -> Result<Id, AllocError>
    ensures { IfOk result (λ id. id ≡ sample_id i) }
{
    let number = i.to_string(alloc)?;
    let mut text = Vec::from_slice(alloc, b"s")?;
    text.extend_from_slice(number.as_bytes())?;
    match Id::new(alloc, text.as_slice()) {
        Ok(id) => Ok(id),
        Err(IdFault::Memory) => Err(AllocError),
        Err(IdFault::Bad) => unreachable!(),
    }
}

impl Samples {
    /// The drawing at its beginning, with this seed as the generator's number.
    pub fn new(seed: u32) -> Samples
        ensures { result ≡ record { x = seed; made = 0 } }
    {
        Samples { x: seed, made: 0 }
    }

    /// The next style. Its id is `s` and its number, counted from 1, in decimal; it has 1 to 3
    /// contests, each with 1 to 4 targets and a limit of 1 or 2. The only error is want of memory;
    /// the drawing is then as before, and the same style comes next.
    #[tactic(auto, using(crate::proofs::SampleShapes::style_is_shape))]
    pub fn next_style(&mut self, alloc: Global) -> Result<Sample, AllocError>
        requires { self.old.made + 1 < 2 ^ 32 }
        ensures id { IfOk result (λ sample. sample.id ≡ sample_id (self.old.made + 1)) }
        ensures shape { IfOk result (λ sample. sample.shape ≡ style_after self.old.x) }
        ensures x { OnOk result (self.new.x ≡ behind_style self.old.x) }
        ensures made { OnOk result (self.new.made ≡ self.old.made + 1) }
        ensures err { OnErr result (self.new ≡ self.old) }
    {
        let mut x = self.x;
        let contests = draw_style(alloc, &mut x)?;
        let shape = Shape::from_valid(alloc, contests)?;
        let made = self.made + 1;
        let id = sample_id(alloc, made)?;
        self.x = x;
        self.made = made;
        Ok(Sample { id, shape })
    }
}

/// The rules of the styles that are drawn: different totals in a contest, and at least one vote for
/// each target, one blank ballot, and one that overvotes each contest that can be overvoted.
pub fn sample_rules() -> Rules
    ensures { result ≡ rule_set true 1 1 1 }
{
    Rules::from_valid(true, 1, 1, 1)
}
