// The first fault of a page of sets: bench b is the bit of weight 2^(63 - b).
ghost use Rattle.std.specs.Prelude.{◌≡◌};
ghost use Rattle.page_faults.specs.PageFaults.{unfit, overlap, set_verdict, page_verdict};

use fields::Fault;

// Whether a set is empty or has a bench that the head lacks.
fn is_unfit(benches: usize, set: usize) -> bool
    ensures { result ≡ unfit benches set }
{
    set == 0 || set_check::foreign(benches, set).is_some()
}

// Whether two sets share a bench.
fn meets(seen: usize, set: usize) -> bool
    ensures { result ≡ overlap seen set }
{
    sets::common(seen, set) != 0
}

// The fault of a set, where `seen` has the benches of the earlier ones.
fn set_verdict(benches: usize, seen: usize, set: usize, at: usize) -> Result<(), Fault>
    ensures { result ≡ set_verdict (unfit benches set) (overlap seen set) at }
{
    let bad = is_unfit(benches, set);
    let shared = meets(seen, set);
    if bad {
        return Err(Fault::SetBench(at));
    }
    if shared {
        return Err(Fault::SharedBench(at));
    }
    Ok(())
}

// The fault of the first set on the page that has one.
pub fn page_verdict(benches: usize, page: &[u64]) -> Result<(), Fault>
    ensures { result ≡ page_verdict benches page.now }
{
    let mut seen = 0;
    for (i, set) in page.iter().enumerate() {
        let set = *set as usize;
        set_verdict(benches, seen, set, i)?;
        seen = sets::either(seen, set);
    }
    Ok(())
}
