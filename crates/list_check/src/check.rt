// The check of a list of places: entry j is job j's bench.
ghost use Rattle.std.specs.Prelude.{◌≡◌, ℕ, ◌<◌, ◌^◌, List};
ghost use Rattle.fields.specs.Contents.{Contents};
ghost use Rattle.frame.specs.Sound.{SoundSheet};
ghost use Rattle.frame.specs.Tables.{Tables};
ghost use Rattle.day.specs.Day.{day_of, largest_of, fullest_of, within_bound};
ghost use Rattle.list_check.specs.ListCheck.{listed_of, check_list};
ghost use Rattle.list_check.specs.ListClaim.{ListClaim};

use answers::{ListAnswer, ListPassed};
use frame::{Fault, Head};
use loads::BenchSum;

// Whether a load is within the bound: 3q × load ≤ (5q + p) × T.
fn within(h: Head, load: usize) -> bool
    ensures { (c : Contents) → SoundSheet c → h ≡ c.head → load < 2 ^ 30
        → result ≡ within_bound (day_of c) load }
{
    let q = h.q as usize;
    let scale = arrays::times(3, q);
    let share = arrays::times(5, q).saturating_add(h.p as usize);
    arrays::times(scale, load) <= arrays::times(share, h.target as usize)
}

// The largest load of the list, what is booked with it, and the lowest bench that has it.
fn largest_load(
    benches: usize,
    jobs: usize,
    booked: &[u64],
    minutes: &[u64],
    list: &[u64],
) -> BenchSum
    ensures { (c : Contents) → (allowed : List ℕ)
        → Tables c benches booked.now jobs minutes.now allowed
        → result ≡ record {
          largest = largest_of (day_of c) list.now;
          fullest = fullest_of (day_of c) list.now;
        } }
{
    let mut load = [0usize; 64];
    arrays::to_numbers(benches, booked, &mut load);
    lists::sum_list(jobs, benches, minutes, list, &mut load)
}

// The answer for the jobs of a sheet.
fn check_places(
    h: Head,
    jobs: usize,
    booked: &[u64],
    minutes: &[u64],
    allowed: &[u64],
    list: &[u64],
) -> ListAnswer
    ensures { (c : Contents) → h ≡ c.head
        → Tables c h.benches booked.now jobs minutes.now allowed.now
        → result ≡ listed_of (day_of c) list.now }
{
    if list.len() != jobs {
        return ListAnswer::Fault(Fault::PlaceCount);
    }
    if !lists::fit_all(jobs, allowed, list) {
        return ListAnswer::NotPassed;
    }
    let sum = largest_load(h.benches as usize, jobs, booked, minutes, list);
    if !within(h, sum.largest) {
        return ListAnswer::NotPassed;
    }
    let largest = sum.largest as u64;
    let fullest = sum.fullest as u64;
    ListAnswer::Passed(ListPassed { largest, fullest })
}

// Whether each job of a sheet is on an allowed bench, and no load exceeds the bound for the sheet's target.
pub fn check_list(s: &[u8], list: &[u64]) -> ListAnswer
    ensures equation { result ≡ check_list s.now list.now }
    ensures claim { ListClaim s.now list.now result }
{
    match reading::read(s) {
        Err(f) => ListAnswer::Fault(f),
        Ok(sheet) => check_places(
            sheet.head,
            sheet.count,
            &sheet.booked,
            &sheet.minutes,
            &sheet.allowed,
            list,
        ),
    }
}
