use lat_base::Shape;
use std::alloc::{AllocError, Global};

/// A style as a word.
pub fn style_text(alloc: Global, shape: &Shape) -> Result<String, AllocError> {
    let mut text = String::new(alloc);
    for c in 0..shape.contests() {
        let contest = shape.contest(c);
        let mark = if text.is_empty() { "" } else { "," };
        let limit = contest.limit;
        let targets = contest.targets;
        write!(text, "{mark}{limit}:{targets}")?;
    }
    Ok(text)
}
