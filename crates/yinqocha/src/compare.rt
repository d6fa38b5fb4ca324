// Comparing two plans of a sheet, for C.
ghost use Rattle.std.specs.Prelude.{◌≡◌};
ghost use Rattle.comparison.specs.Comparison.{compare_plans};
ghost use Rattle.tables.specs.Tables.{numbers_of};
ghost use Rattle.door.specs.PlanDoor.{compared_word};

// Whether two lists of places put every job on the same bench.
#[unsafe(no_mangle)]
pub extern "C" fn yinqocha_compare(sheet: &[u8], first: &[u8], second: &[u8]) -> u64
    ensures { result ≡ compared_word
        (compare_plans sheet.now (numbers_of first.now) (numbers_of second.now)) }
{
    compare_door::compare(sheet, first, second)
}
