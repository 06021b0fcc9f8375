ghost use Rattle.std.specs.Prelude.{◌≤◌};

/// The words of `all`: the definition's file, the size cap in ballots, and the budget in nodes.
#[derive(Clone, Copy, Debug)]
pub struct AllWords<'a> {
    pub definition: &'a str,
    pub max: u16,
    pub budget: u64,
    ghost some: { 1 ≤ max },
    ghost few: { max ≤ 1024 },
    ghost spendable: { 1 ≤ budget },
}
