use cert_types::Verdict;
use lat_base::Names;

/// What stands in front of the trees of a certificate.
#[derive(Debug, Drop)]
pub struct Head {
    /// The names of the style, its contests and their targets.
    pub names: Names,
    /// The number of targets of the style.
    pub targets: u16,
    /// The certificate's own verdict.
    pub verdict: Verdict,
    /// The number of ballots of its deck, or `None` where it has no deck.
    pub best: Option<u16>,
}
