// Numbers at the front of a table.
ghost use Rattle.std.specs.Prelude.{◌≡◌, ◌/◌, min, [], ◌∷◌};
ghost use Rattle.tables.specs.Tables.{put_fitting};

use crate::table;

// The whole entries of a table of so many bytes, at most k.
pub fn room(bytes: usize, k: usize) -> usize
    ensures { result ≡ min (bytes / 8) k }
{
    (bytes / 8).min(k)
}

// The numbers, to the front of a table, as many as it has room for.
pub fn put_front(from: &[u64], t: &mut [u8])
    ensures { t.new ≡ put_fitting from.now t.old }
{
    for (i, &number) in from.iter().enumerate() {
        table::put(t, i, number);
    }
}

// Three numbers, to the front of a table, as many as it has room for.
pub fn put_three(t: &mut [u8], first: u64, second: u64, third: u64)
    ensures { t.new ≡ put_fitting (first ∷ second ∷ third ∷ []) t.old }
{
    put_front(&[first, second, third], t);
}
