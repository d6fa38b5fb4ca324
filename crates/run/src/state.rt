// The state of the run: where each job is, the moves made, and the last exploration.
ghost use Rattle.std.specs.Prelude.{◌≡◌, List, map, Bool, ℕ};
ghost use Rattle.day.specs.Day.{Day};
ghost use Rattle.algorithm.specs.Start.{State as RunState, start as start_of};
ghost use Rattle.rock_graph.specs.Graph.{lows, highs, weights, Mapped};
ghost use Rattle.explore.specs.ExploreArrays.{Benchwise};
ghost use Rattle.push.specs.KeptArrays.{Chosen};
ghost use Rattle.start.specs.StartArrays.{Placed};
ghost use Rattle.run.specs.Held.{Begins, Room, Ready, Holds, Explores, Pushed};

use arrays::Number;
use rock_graph::Graph;
use rocks::{Limits, Standing};

// The moves made, and the benches that the last exploration activated; before the first one there is none. The tables
// of the state stay where they are, and each method is lent those that it reads or changes:
// - place: the bench of each job; own, reach: the load of each bench besides its rocks, and the benches that the
//   pebbles on it may go to;
// - of the last exploration, dir and load: directions of the rocks and loads under them; joined, level: the round in
//   which each bench joined the conflict set, and its level.
#[derive(Clone, Copy)]
pub struct State {
    pub moves: usize,
    pub active: usize,
}

impl State {
    // start d: every job on its lowest bench, and rocks hanging off a cycle peeled. `left` has the rocks, and then
    // those that are left; `own` the booked load of each bench.
    pub fn start<S: Standing>(
        n: Limits,
        pebble: &[bool],
        allowed: &[usize],
        amount: &[usize],
        job: &[usize],
        low: &[usize],
        high: &[usize],
        balance: &[S],
        left: &mut [bool],
        place: &mut [u8],
        own: &mut [usize],
        reach: &mut [usize],
    ) -> State
        ensures unexplored { result.active ≡ 0 }
        ensures started { (d : Day) → (minutes : List ℕ)
            → Begins d n minutes allowed.now amount.now job.now low.now
            high.now (map S.balance balance.now) own.old left.old pebble.now
            → Room left.old place.old own.old reach.old
            → Holds d 0 (start_of d) result place.new own.new reach.new
            × Placed d (start_of d) left.new place.new }
    {
        let mut lowest = [0usize; 512];
        start::place_lowest(n.jobs, allowed, &mut lowest);
        start::peel(n, job, low, high, balance, left, &mut lowest);
        loads::own_loads(n.jobs, amount, left, &lowest, own);
        explore::fill_reach(n, pebble, allowed, &lowest, reach);
        arrays::from_numbers(n.jobs, &lowest, place);
        State {
            moves: 0,
            active: 0,
        }
    }

    // explored d s, from nothing.
    pub fn orient(
        mut self,
        n: Limits,
        graph: &Graph,
        own: &[usize],
        reach: &[usize],
        dir: &mut [usize],
        load: &mut [usize],
        joined: &mut [usize],
        level: &mut [usize],
    ) -> State
        ensures { (d : Day) → (m : ℕ) → (s : RunState) → (amount : List ℕ) → (pebble : List Bool)
            → (allowed : List ℕ) → (place : List ℕ)
            → Ready d n (lows graph.now) (highs graph.now) (weights graph.now) amount
            pebble allowed
            → Mapped n graph.now → Holds d m s self place own.now reach.now
            → Benchwise dir.old load.old joined.old level.old
            → Holds d m s result place own.now reach.now
            × Explores d s result dir.new load.new joined.new level.new }
    {
        explore::clear(n, own, dir, load, joined, level);
        let active = explore::explore(n, graph, own, reach, dir, load, joined, level);
        self.active = active;
        self
    }

    // next_state d s and one move more where push_job finds a job, and else nothing.
    pub fn push(
        mut self,
        n: Limits,
        graph: &Graph,
        amount: &[usize],
        choice: &[usize],
        dir: &[usize],
        load: &[usize],
        joined: &[usize],
        level: &[usize],
        place: &mut [u8],
        own: &mut [usize],
        reach: &mut [usize],
    ) -> Option<State>
        ensures { (d : Day) → (m : ℕ) → (s : RunState) → (pebble : List Bool) → (allowed : List ℕ)
            → Ready d n (lows graph.now) (highs graph.now) (weights graph.now)
            amount.now pebble allowed
            → Mapped n graph.now → Chosen n.jobs pebble allowed choice.now
            → Holds d m s self place.old own.old reach.old
            → Explores d s self dir.now load.now joined.now level.now
            → Pushed d m s self place.old own.old reach.old
            result place.new own.new reach.new }
    {
        let mut receivers = [0usize; 66];
        push::fill_receivers(n, graph, own, dir, load, joined, level, &mut receivers);
        let m = push::first_push(n, choice, place, level, &receivers)?;
        let before = usize::from(arrays::at(place, m.job));
        arrays::put(place, m.job, u8::of(m.bench));
        push::shift(
            n.jobs, amount, choice, place, own, reach, before, m.bench, m.job,
        );
        self.moves = self.moves.saturating_add(1);
        Some(self)
    }
}
