// The loads of benches, job by job.
ghost use Rattle.std.specs.Prelude.{◌≡◌};
ghost use Rattle.loads.specs.Loads.{added_at, loads_after};

// Job j's amount is put on its bench, unless the job is left.
fn add(amount: &[usize], left: &[bool], place: &[usize], own: &mut [usize], j: usize)
    ensures { own.new
        ≡ added_at amount.now left.now place.now own.old j }
{
    if arrays::at(left, j) {
        return;
    }
    let v = arrays::at(place, j);
    let sum = arrays::at(own, v).saturating_add(arrays::at(amount, j));
    arrays::put(own, v, sum);
}

// Adds to entry v the amounts of the jobs on bench v that are not left.
pub fn own_loads(jobs: usize, amount: &[usize], left: &[bool], place: &[usize], own: &mut [usize])
    ensures { own.new
        ≡ loads_after jobs amount.now left.now place.now own.old }
{
    for j in 0..jobs {
        add(amount, left, place, own, j);
    }
}
