// What the search keeps from run to run, and what it finds.
ghost use Rattle.std.specs.Prelude.{◌≡◌};
ghost use Rattle.searching.specs.Searching.{lowered_to, raised_to};

// A target that gives a plan, how many targets were run, and its plan: its moves, and in `places` the bench of each
// job.
#[derive(Drop)]
pub struct Found {
    pub target: u64,
    pub runs: u64,
    pub moves: u64,
    pub places: [u8; 512],
}

// One more than the highest target known to be refused, and the lowest one found to give a plan.
#[derive(Drop)]
pub struct Kept {
    pub low: u64,
    pub found: Found,
}

// After a plan at the target t.
pub fn lowered(k: Kept, t: u64, moves: u64, places: [u8; 512]) -> Kept
    ensures { result ≡ lowered_to k t moves places }
{
    let runs = k.found.runs.saturating_add(1);
    Kept {
        low: k.low,
        found: Found {
            target: t,
            runs,
            moves,
            places,
        },
    }
}

// After a refusal of the target t.
pub fn raised(k: Kept, t: u64) -> Kept
    ensures { result ≡ raised_to k t }
{
    let low = t.saturating_add(1);
    let mut found = k.found;
    found.runs = found.runs.saturating_add(1);
    Kept { low, found }
}
