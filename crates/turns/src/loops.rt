// The turns of the run.
ghost use Rattle.std.specs.Prelude.{◌≡◌, length};
ghost use Rattle.day.specs.Day.{Day};
ghost use Rattle.algorithm.specs.Start.{start as start_of};
ghost use Rattle.algorithm.specs.Run.{budget as budget_of};
ghost use Rattle.run.specs.Held.{Ready, Holds, Last};

use rock_graph::Graph;
use rocks::Limits;
use run::State;

// Explorations and pushes one after another, until no bench is overloaded or no push is possible. The tables that every
// turn reads are made first; those of the state are lent to each turn and stay where they are.
pub fn turns(
    first: State,
    budget: usize,
    n: Limits,
    low: &[usize],
    high: &[usize],
    weight: &[usize],
    amount: &[usize],
    pebble: &[bool],
    allowed: &[usize],
    place: &mut [u8],
    own: &mut [usize],
    reach: &mut [usize],
    dir: &mut [usize],
) -> State
    ensures { (d : Day)
        → Ready d n low.now high.now weight.now amount.now
        pebble.now allowed.now
        → Holds d 0 (start_of d) first place.old own.old reach.old
        → length dir.old ≡ 64 → budget ≡ budget_of d → Last d result place.new dir.new }
{
    let graph = Graph::new(n, low, high, weight);
    let mut choice = [0usize; 512];
    start::choose(n.jobs, pebble, allowed, &mut choice);
    let mut load = [0usize; 64];
    let mut joined = [0usize; 64];
    let mut level = [0usize; 64];
    let mut s = first;
    // One exploration more than there can be moves.
    for _ in 0..budget.saturating_add(1) {
        s = s.orient(
            n,
            &graph,
            own,
            reach,
            dir,
            &mut load,
            &mut joined,
            &mut level,
        );
        if s.active == 0 {
            return s;
        }
        let Some(next) = s.push(
            n, &graph, amount, &choice, dir, &load, &joined, &level, place, own, reach,
        ) else {
            return s;
        };
        s = next;
    }
    s
}
