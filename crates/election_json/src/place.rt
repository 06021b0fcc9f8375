/// A place in a definition. Contests, styles and the entries of their arrays are numbered from 0.
#[derive(Clone, Copy, Debug, PartialEq, Eq)]
pub enum Place {
    /// The whole definition.
    Top,
    /// `/rules`
    Rules,
    /// `/rules/distinct`
    Distinct,
    /// `/rules/least`
    Least,
    /// `/rules/blank`
    Blank,
    /// `/rules/over`
    Over,
    /// `/contests`
    Contests,
    /// `/contests/I`
    Contest(u32),
    /// `/contests/I/id`
    ContestId(u32),
    /// `/contests/I/limit`
    Limit(u32),
    /// `/contests/I/targets`
    Targets(u32),
    /// `/contests/I/targets/J`
    Target(u32, u32),
    /// `/styles`
    Styles,
    /// `/styles/I`
    Style(u32),
    /// `/styles/I/id`
    StyleId(u32),
    /// `/styles/I/contests`
    StyleContests(u32),
    /// `/styles/I/contests/J`
    StyleContest(u32, u32),
}
