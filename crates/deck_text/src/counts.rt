ghost use Rattle.std.specs.Prelude.{◌≡◌, ◌<◌, ◌+◌, ◌^◌, ◌++◌, ◌∷◌, [], List, IfOk};
ghost use Rattle.std.specs.Fmt.{decimal};
ghost use Rattle.cert_types.specs.declared.verdict.Verdict.{Verdict};
ghost use Rattle.deck_text.specs.CountyText.{counts_of, count_line};

use cert_types::Verdict;
use std::alloc::{AllocError, Global};
use std::marker::Model;

/// What was found of many styles, counted: how many styles there are, how many of them have a least
/// size, no deck within the cap, or neither yet, and the ballots of all least sizes together.
#[derive(Clone, Copy, Debug)]
pub struct Counts {
    styles: u32,
    least: u32,
    none: u32,
    unsettled: u32,
    // 64 bits, so that the sum never falls short
    ballots: u64,
}

impl Model for Counts {
    ghost use Rattle.std.specs.Prelude.{◌≤◌, ◌*◌};
    ghost use Rattle.deck_text.specs.CountyText.{StyleCounts};

    ghost Value = { StyleCounts };

    ghost view = { λ a. record {
      styles = a.styles;
      least = a.least;
      none = a.none;
      unsettled = a.unsettled;
      ballots = a.ballots;
    } };

    ghost invariant = { λ a. (a.least ≤ a.styles) × (a.none ≤ a.styles) ×
        (a.unsettled ≤ a.styles) × (a.ballots ≤ 65535 * a.styles) };

    ghost inverse = { λ n. record {
      styles = n.styles;
      least = n.least;
      none = n.none;
      unsettled = n.unsettled;
      ballots = n.ballots;
    } };
}

// The line with a word and a number more.
fn with_count(
    alloc: Global,
    mut line: Vec<u8>,
    word: &[u8],
    number: u64,
) -> Result<Vec<u8>, AllocError>
    ensures { IfOk result (λ after. after.items ≡ line.items ++ word.now ++ decimal number) }
{
    line.extend_from_slice(word)?;
    let digits = number.to_string(alloc)?;
    line.extend_from_slice(digits.as_bytes())?;
    Ok(line)
}

impl Counts {
    /// The counts of no style.
    pub fn new() -> Counts
        ensures { result ≡ counts_of [] }
    {
        Counts {
            styles: 0,
            least: 0,
            none: 0,
            unsettled: 0,
            ballots: 0,
        }
    }

    /// Counts the answer of one style more, of which there are below 2^32.
    pub fn add(&mut self, verdict: Verdict)
        requires { self.old.styles + 1 < 2 ^ 32 }
        ensures styles { self.new.styles ≡ self.old.styles + 1 }
        ensures counts { (before : List Verdict) → self.old ≡ counts_of before →
            self.new ≡ counts_of (before ++ verdict ∷ []) }
    {
        self.styles += 1;
        match verdict {
            Verdict::Least(k) => {
                self.least += 1;
                self.ballots += u64::from(k);
            }
            Verdict::NoneWithin(_) => self.none += 1,
            Verdict::Bounds(_) => self.unsettled += 1,
        }
    }

    /// The line of the counts: `styles N least A none B open C ballots S`, with a line feed.
    ///
    /// The one error is want of memory.
    pub fn line(&self, alloc: Global) -> Result<Vec<u8>, AllocError>
        ensures { IfOk result (λ bytes. bytes.items ≡ count_line self.now) }
    {
        let line = with_count(alloc, Vec::new(alloc), b"styles ", u64::from(self.styles))?;
        let line = with_count(alloc, line, b" least ", u64::from(self.least))?;
        let line = with_count(alloc, line, b" none ", u64::from(self.none))?;
        let line = with_count(alloc, line, b" open ", u64::from(self.unsettled))?;
        let mut line = with_count(alloc, line, b" ballots ", self.ballots)?;
        line.extend_from_slice(b"\n")?;
        Ok(line)
    }
}
