// The heavy jobs, one by one.
ghost use Rattle.std.specs.Prelude.{◌≡◌};
ghost use Rattle.bits.specs.Bits.{is_set};
ghost use Rattle.day.specs.Day.{Day};
ghost use Rattle.placements.specs.LeastWeight.{least_heavy};
ghost use Rattle.placing.specs.ClassArrays.{Holds};

use crate::classes;
use crate::classes::{Bay, Classes};

// The least weight that a placement leaves inside the set, and none where there is no placement.
pub fn least_heavy(bay: Bay, jobs: usize, minutes: &[usize], allowed: &[usize]) -> Option<usize>
    ensures { (d : Day) → Holds d bay jobs minutes.now allowed.now
        → result ≡ least_heavy d (is_set 64 bay.set) }
{
    let mut labels = [0usize; 64];
    let mut extra = [0usize; 64];
    classes::number(&mut labels);
    let mut c = Classes { shut: 0, base: 0 };
    for j in 0..jobs {
        c = classes::put_job(
            c,
            bay,
            arrays::at(minutes, j),
            arrays::at(allowed, j),
            &mut labels,
            &mut extra,
        )?;
    }
    Some(c.base)
}
