use crate::anew::is_right;
use deck_state::{Mark, Partial};

/// How many of the steps of a walk decided a mark, took one back, and left the counts right.
#[derive(Clone, Copy, Debug)]
pub struct Walked {
    pub decided: u32,
    pub undone: u32,
    pub right: u32,
}

// What a step of a walk was.
#[derive(Clone, Copy, Debug, PartialEq, Eq)]
enum Move {
    Decided,
    Undone,
    Nothing,
}

// Takes a step back, or decides a mark where it is undecided, as a drawn number says.
fn take_move(partial: &mut Partial, drawn: u32) -> Move {
    if drawn >> 30 == 0 && partial.depth() > 0 {
        partial.undo();
        return Move::Undone;
    }
    let ballots = partial.ballots();
    let targets = partial.shape().targets();
    if ballots == 0 {
        return Move::Nothing;
    }
    let j = ((drawn >> 10) % u32::from(ballots)) as u16;
    let t = ((drawn >> 20) % u32::from(targets)) as u16;
    if partial.mark(j, t) != Mark::Undecided {
        return Move::Nothing;
    }
    partial.decide(j, t, drawn & 512 == 0);
    Move::Decided
}

/// Walks so many steps, which are drawn from a number on, and counts anew after each.
pub fn walk(partial: &mut Partial, seed: u32, steps: u16) -> Walked {
    let mut drawn = seed;
    let mut walked = Walked {
        decided: 0,
        undone: 0,
        right: 0,
    };
    for _ in 0..steps {
        drawn = drawn.wrapping_mul(1_103_515_245).wrapping_add(12_345);
        let step = take_move(partial, drawn);
        walked.decided = walked
            .decided
            .saturating_add(u32::from(step == Move::Decided));
        walked.undone = walked
            .undone
            .saturating_add(u32::from(step == Move::Undone));
        walked.right = walked.right.saturating_add(u32::from(is_right(partial)));
    }
    walked
}
