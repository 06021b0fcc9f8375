ghost use Rattle.std.specs.Prelude.{◌≤◌};

/// The words of `sample`: the number from which the generator starts, how many styles it makes, the
/// size cap in ballots, and the budget in nodes.
#[derive(Clone, Copy, Debug)]
pub struct SampleWords {
    pub seed: u32,
    pub styles: u32,
    pub max: u16,
    pub budget: u64,
    ghost few_styles: { styles ≤ 1000 },
    ghost some: { 1 ≤ max },
    ghost few: { max ≤ 1024 },
    ghost spendable: { 1 ≤ budget },
}
