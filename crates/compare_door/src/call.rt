// Comparing two plans of a sheet, for C.
ghost use Rattle.std.specs.Prelude.{◌≡◌};
ghost use Rattle.comparison.specs.Comparison.{compare_plans};
ghost use Rattle.tables.specs.Tables.{numbers_of};
ghost use Rattle.door.specs.PlanDoor.{compared_word};

use comparison::Compared;

// Whether two lists of places put every job on the same bench.
pub fn compare(sheet: &[u8], first: &[u8], second: &[u8]) -> u64
    ensures { result ≡ compared_word
        (compare_plans sheet.now (numbers_of first.now) (numbers_of second.now)) }
{
    // A list of 513 places is as wrong as any longer one.
    let mut one = [0u64; 513];
    let mut two = [0u64; 513];
    let n = entries::load(first, &mut one);
    let m = entries::load(second, &mut two);
    match comparison::compare(sheet, &one[..n], &two[..m]) {
        Compared::Same => tables::SAME,
        Compared::Different => tables::DIFFERENT,
        Compared::Fault(f) => tables::fault_word(f),
    }
}
