// The comparison of two plans of a sheet.
ghost use Rattle.std.specs.Prelude.{◌≡◌, ℕ, List};
ghost use Rattle.sums.specs.Search.{all};
ghost use Rattle.fields.specs.Contents.{Contents};
ghost use Rattle.frame.specs.Tables.{Tables};
ghost use Rattle.day.specs.Day.{day_of};
ghost use Rattle.comparison.specs.Comparison.{same_place, compared_of, compare_plans};
ghost use Rattle.comparison.specs.CompareArrays.{gives_in};

use crate::compared::Compared;
use frame::Fault;

// Whether the list gives each job one bench of its set.
fn gives_each(jobs: usize, allowed: &[u64], list: &[u64]) -> bool
    ensures { result ≡ gives_in jobs allowed.now list.now }
{
    list.len() == jobs && lists::fit_all(jobs, allowed, list)
}

// Whether both lists put job j on the same bench.
fn same_place(first: &[u64], second: &[u64], j: usize) -> bool
    ensures { result ≡ same_place first.now second.now j }
{
    arrays::at(first, j) == arrays::at(second, j)
}

// Whether both lists put each job on the same bench.
fn same_places(jobs: usize, first: &[u64], second: &[u64]) -> bool
    ensures { result ≡ all jobs (same_place first.now second.now) }
{
    (0..jobs).all(|j| same_place(first, second, j))
}

// The answer for the jobs of a sheet.
fn compare_lists(jobs: usize, allowed: &[u64], first: &[u64], second: &[u64]) -> Compared
    ensures { (c : Contents) → (benches : ℕ) → (booked minutes : List ℕ)
        → Tables c benches booked jobs minutes allowed.now
        → result ≡ compared_of (day_of c) first.now second.now }
{
    if !gives_each(jobs, allowed, first) {
        return Compared::Fault(Fault::Table(0));
    }
    if !gives_each(jobs, allowed, second) {
        return Compared::Fault(Fault::Table(1));
    }
    if same_places(jobs, first, second) {
        return Compared::Same;
    }
    Compared::Different
}

// Whether two plans of a sheet put every job on the same bench.
pub fn compare(s: &[u8], first: &[u64], second: &[u64]) -> Compared
    ensures { result ≡ compare_plans s.now first.now second.now }
{
    match reading::read(s) {
        Err(f) => Compared::Fault(f),
        Ok(sheet) => compare_lists(sheet.count, &sheet.allowed, first, second),
    }
}
