// Tables of the answer: weights and places of the rocks.
ghost use Rattle.std.specs.Prelude.{◌≡◌, get_or};
ghost use Rattle.arrays.specs.Arrays.{filled};
ghost use Rattle.run.specs.TableArrays.{placed_of};

use arrays::Number;

// Entry r becomes the weight of the job of rock r.
pub fn pick(rocks: usize, job: &[usize], amount: &[usize], weight: &mut [usize])
    ensures { weight.new ≡ filled rocks
        (λ r. get_or amount.now (get_or job.now r 0) 0) weight.old }
{
    for r in 0..rocks {
        arrays::put(weight, r, arrays::at(amount, arrays::at(job, r)));
    }
}

// The job of each rock goes where the rock is directed.
pub fn place_rocks(rocks: usize, job: &[usize], dir: &[usize], place: &mut [u8])
    ensures { place.new ≡ placed_of rocks job.now dir.now place.old }
{
    for r in 0..rocks {
        let v = arrays::at(dir, r).saturating_sub(1);
        arrays::put(place, arrays::at(job, r), u8::of(v));
    }
}
