// The search for the best target of a day.
ghost use Rattle.std.specs.Prelude.{◌≡◌, ◌-◌, ◌<◌};
ghost use Rattle.day.specs.Day.{Day, start_target};
ghost use Rattle.searching.specs.Searching.{head_at, moves_in, LentSearch, Searching, Finds};

use crate::kept::{Found, Kept};
use crate::{first_target, kept};
use deciding::Decision;
use fields::Head;

// The head with another target.
fn at_target(h: Head, target: u64) -> Head
    ensures { result ≡ head_at h target }
{
    Head { target, ..h }
}

// The moves of a plan. Long and none both count as refused.
fn moves_of(decision: Decision) -> Option<u64>
    ensures { result ≡ moves_in decision }
{
    match decision {
        Decision::Plan(p) => Some(p.moves),
        Decision::Long(_) => None,
        Decision::None(_) => None,
    }
}

// The start is run, where there is always a plan.
fn begin(
    h: Head,
    start: u64,
    jobs: usize,
    minutes: &[usize],
    allowed: &[usize],
    booked: [usize; 64],
) -> Kept
    ensures { (d : Day) → LentSearch d h jobs minutes.now allowed.now booked
        → start ≡ start_target d → Searching d result }
{
    let first = deciding::decide(at_target(h, start), jobs, minutes, allowed, booked);
    let moves = moves_of(first.decision).unwrap_or(0);
    let places = first.places;
    Kept {
        low: 0,
        found: Found {
            target: start,
            runs: 1,
            moves,
            places,
        },
    }
}

// The middle of the two bounds is run.
fn next(
    k: Kept,
    h: Head,
    jobs: usize,
    minutes: &[usize],
    allowed: &[usize],
    booked: [usize; 64],
) -> Kept
    requires { k.low < k.found.target }
    ensures narrower { result.found.target - result.low < k.found.target - k.low }
    ensures goes_on { (d : Day) → LentSearch d h jobs minutes.now allowed.now booked
        → Searching d k → Searching d result }
{
    let middle = k.low + (k.found.target - k.low) / 2;
    let tried = deciding::decide(at_target(h, middle), jobs, minutes, allowed, booked);
    if let Some(moves) = moves_of(tried.decision) {
        kept::lowered(k, middle, moves, tried.places)
    } else {
        kept::raised(k, middle)
    }
}

// The best target of a day, with its plan: the start, and then the middle of the bounds until they meet. The target of
// the head is not looked at.
pub fn search(
    h: Head,
    jobs: usize,
    minutes: &[usize],
    allowed: &[usize],
    booked: [usize; 64],
) -> Found
    ensures { (d : Day) → LentSearch d h jobs minutes.now allowed.now booked
        → Finds d result }
{
    let start = first_target::start_target(jobs, h.benches as usize, minutes, &booked);
    let mut kept = begin(h, start as u64, jobs, minutes, allowed, booked);
    while kept.low < kept.found.target {
        kept = next(kept, h, jobs, minutes, allowed, booked);
    }
    kept.found
}
