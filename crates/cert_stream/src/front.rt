use cert_types::Verdict;
use lat_base::{Names, Rules, Shape};

/// All that stands in front of the deck: the head, the verdict, and the number of ballots of the
/// deck, if there is one.
#[derive(Debug, Drop)]
pub(crate) struct Front {
    pub(crate) names: Names,
    pub(crate) shape: Shape,
    pub(crate) rules: Rules,
    pub(crate) verdict: Verdict,
    pub(crate) best: Option<u16>,
}
