ghost use Rattle.std.specs.Prelude.{◌≡◌, ◌+◌, ◌<◌, ◌^◌, OnOk};

use crate::style::style_text;
use anyhow::Result;
use row_words::{number, split_word};
use sample_styles::Samples;
use std::alloc::Global;

// Adds the id and the contests of the next style.
fn push_style(alloc: Global, text: &mut String, samples: &mut Samples) -> Result<()>
    requires { samples.old.made + 1 < 2 ^ 32 }
    ensures { OnOk result (samples.new.made ≡ samples.old.made + 1) }
{
    let sample = samples.next_style(alloc)?;
    let mark = if text.is_empty() { "" } else { "; " };
    let id = str::from_utf8(sample.id.as_bytes()).unwrap_or("?");
    let contests = style_text(alloc, &sample.shape)?;
    write!(text, "{mark}{id} {contests}")?;
    Ok(())
}

/// The first styles of a seed, so many.
pub fn drawn(alloc: Global, rest: &str) -> Result<String> {
    let (seed, count) = split_word(rest);
    let mut text = String::new(alloc);
    let mut samples = Samples::new(seed.parse::<u32>().unwrap_or(0));
    for _ in 0..number(count)? {
        push_style(alloc, &mut text, &mut samples)?;
    }
    Ok(text)
}
