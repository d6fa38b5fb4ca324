// What weighs inside a set of benches: booked minutes, light jobs that can go nowhere else, and heavy jobs.
ghost use Rattle.std.specs.Prelude.{◌≡◌, ℕ, ◌<◌, not, ◌&&◌, get_or};
ghost use Rattle.bits.specs.Bits.{is_set};
ghost use Rattle.sums.specs.Sum.{on, sum};
ghost use Rattle.day.specs.Day.{Day, light};
ghost use Rattle.demand.specs.Demand.{lies_inside};
ghost use Rattle.start.specs.StartArrays.{heavy_of};
ghost use Rattle.placements.specs.LeastWeight.{blocks as blocks_day};
ghost use Rattle.weighing.specs.Weights.{within, Bookings, Weighs, OfTheDay};
ghost use Rattle.placing.specs.ClassArrays.{Holds};

use placing::Bay;

// Whether all benches of one set are in the other.
fn inside(allowed: usize, set: usize) -> bool
    ensures { result ≡ within allowed set }
{
    sets::less(allowed, set) == 0
}

// The minutes of a light job that can go nowhere but into the set, and 0 of any other.
fn confined(bay: Bay, minutes: usize, allowed: usize) -> usize
    ensures { result ≡ on (not (heavy_of bay.p bay.q bay.target minutes) && within allowed bay.set)
        minutes }
{
    if inside(allowed, bay.set) && !start::heavy(bay.p, bay.q, bay.target, minutes) {
        minutes
    } else {
        0
    }
}

// What such jobs weigh together.
fn light_weight(bay: Bay, jobs: usize, minutes: &[usize], allowed: &[usize]) -> usize
    ensures { (d : Day) → Holds d bay jobs minutes.now allowed.now
        → result ≡ sum d.jobs (λ j. on (light d j && lies_inside d (is_set 64 bay.set) j) (d.minutes j)) }
{
    let mut total = 0usize;
    for j in 0..jobs {
        let more = confined(bay, arrays::at(minutes, j), arrays::at(allowed, j));
        total = total.saturating_add(more);
    }
    total
}

// The minutes booked on a bench of the set, and 0 of any other.
fn booked_at(set: usize, v: usize, booked: &[usize]) -> usize
    ensures { result ≡ on (is_set 64 set v) (get_or booked.now v 0) }
{
    if sets::has(set, v) {
        arrays::at(booked, v)
    } else {
        0
    }
}

// What is booked on the benches of the set.
fn booked_weight(benches: usize, set: usize, booked: &[usize]) -> usize
    ensures { (d : Day) → Bookings d benches booked.now
        → result ≡ sum d.benches (λ v. on (is_set 64 set v) (d.booked v)) }
{
    let mut total = 0usize;
    for v in 0..benches {
        total = total.saturating_add(booked_at(set, v, booked));
    }
    total
}

// Whether the set, which has a bench and none but the day's, blocks the day.
pub fn blocks(bay: Bay, jobs: usize, minutes: &[usize], allowed: &[usize], booked: &[usize]) -> bool
    ensures { (d : Day)
        → Weighs d bay jobs minutes.now allowed.now booked.now
        → OfTheDay d bay.set → result ≡ blocks_day d (is_set 64 bay.set) }
{
    let Some(heavy) = placing::least_heavy(bay, jobs, minutes, allowed) else {
        return true;
    };
    let light = light_weight(bay, jobs, minutes, allowed);
    let fixed = booked_weight(bay.benches, bay.set, booked).saturating_add(light);
    arrays::times(sets::choices(bay.set), bay.target) < fixed.saturating_add(heavy)
}
