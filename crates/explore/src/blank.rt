// The tables of an exploration before its first round.
ghost use Rattle.std.specs.Prelude.{◌≡◌, length};
ghost use Rattle.explore.specs.ExploreArrays.{Blank, Benchwise};

use rocks::Limits;

// No rock is directed, the loads are the own loads, and no bench is in the conflict set or activated, whatever was
// there.
pub fn clear(
    n: Limits,
    own: &[usize],
    dir: &mut [usize],
    load: &mut [usize],
    joined: &mut [usize],
    level: &mut [usize],
)
    ensures { length own.now ≡ 64
        → Benchwise dir.old load.old joined.old level.old
        → Blank n own.now dir.new load.new joined.new level.new }
{
    let never = n.benches.saturating_add(1);
    arrays::fill(dir, 0);
    arrays::to_numbers(load.len(), own, load);
    arrays::fill(joined, never);
    arrays::fill(level, never);
}
