use crate::words::number;
use anyhow::Result;
use lat_base::Rules;

/// The rules of a word: distinct (`true`, or else not), least, blank and over, with slashes between
/// them. The error is what is no number, or what `Rules::new` refuses.
pub fn rules_of(word: &str) -> Result<Rules> {
    let (distinct, rest) = word.split_once('/').unwrap_or((word, ""));
    let (least, rest) = rest.split_once('/').unwrap_or((rest, ""));
    let (blank, over) = rest.split_once('/').unwrap_or((rest, ""));
    let least = number(least)?;
    let blank = number(blank)?;
    let over = number(over)?;
    Ok(Rules::new(distinct == "true", least, blank, over)?)
}
