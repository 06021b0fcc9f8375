//! The generator, and what is drawn by it.

ghost use Rattle.std.specs.Prelude.{◌≡◌, ◌<◌, IfOk, OnOk};
ghost use Rattle.sample_styles.specs.Drawing.{next, drawn, contest_after, behind_contest, style_after, behind_style};

use lat_base::Contest;
use std::alloc::{AllocError, Global};

// The next number below n.
fn draw(x: &mut u32, n: u16) -> u16
    requires { 0 < n }
    ensures next { x.new ≡ next x.old }
    ensures drawn { result ≡ drawn n (next x.old) }
    ensures below { result < n }
{
    *x = ((u64::from(*x) * 1103515245 + 12345) % 2147483648) as u32;
    (*x / 65536 % u32::from(n)) as u16
}

// The next contest: its targets, and then its limit.
fn draw_contest(x: &mut u32) -> Contest
    ensures contest { result ≡ contest_after x.old }
    ensures behind { x.new ≡ behind_contest x.old }
{
    let targets = 1 + draw(x, 4);
    let limit = 1 + draw(x, 2);
    Contest { limit, targets }
}

/// The contests of the next style: how many there are, and then each in order.
pub fn draw_style(alloc: Global, x: &mut u32) -> Result<Vec<Contest>, AllocError>
    ensures contests { IfOk result (λ contests. contests.items ≡ style_after x.old) }
    ensures behind { OnOk result (x.new ≡ behind_style x.old) }
{
    let count = 1 + draw(x, 3);
    let mut contests = Vec::new(alloc);
    for _ in 0..count {
        contests.push(draw_contest(x))?;
    }
    Ok(contests)
}
