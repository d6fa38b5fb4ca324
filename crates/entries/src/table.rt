// Tables that are read: numbers of 8 bytes each, the least significant byte first.
ghost use Rattle.std.specs.Prelude.{◌≡◌, min, length};
ghost use Rattle.bits.specs.Little.{little};
ghost use Rattle.tables.specs.Tables.{entries_of, entry_of, numbers_of, given_numbers, found_from, loaded_into};

// How many entries a table has; a begun entry counts.
pub fn entries(t: &[u8]) -> usize
    ensures { result ≡ entries_of t.now }
{
    t.len().div_ceil(8)
}

// Entry n of a table; bytes that it lacks count as 0.
pub fn entry(t: &[u8], n: usize) -> u64
    ensures { result ≡ entry_of t.now n }
{
    if t.len() / 8 < n {
        return 0;
    }
    little8(&t[8 * n..])
}

// Fills the front of `into` with the entries of a table, as many as there are and fit, and says how many.
pub fn load(t: &[u8], into: &mut [u64]) -> usize
    ensures counted { result ≡ min (entries_of t.now) (length into.old) }
    ensures loaded { into.new ≡ loaded_into (numbers_of t.now) into.old }
{
    let n = entries(t).min(into.len());
    for i in 0..n {
        into[i] = entry(t, i);
    }
    n
}

// The same, with `missing` for a last entry that lacks bytes and has none above 0.
pub fn load_given(t: &[u8], missing: u64, into: &mut [u64]) -> usize
    ensures counted { result ≡ min (entries_of t.now) (length into.old) }
    ensures loaded { into.new ≡ loaded_into (given_numbers t.now missing)
        into.old }
{
    let n = load(t, into);
    // The entry behind the whole ones: where there is one, it lacks bytes.
    let last = t.len() / 8;
    if last < n && into[last] == 0 {
        into[last] = missing;
    }
    n
}

// The first entry from number `from` on that is not 0.
pub fn first_from(t: &[u8], from: usize) -> Option<usize>
    ensures { result ≡ found_from t.now from }
{
    (from..entries(t)).find(|&n| entry(t, n) != 0)
}

// The number of the first eight bytes; bytes that s lacks count as 0.
fn little8(s: &[u8]) -> u64
    ensures { result ≡ little s.now 8 }
{
    let mut bytes = [0u8; 8];
    if s.len() < 8 {
        bytes[..s.len()].copy_from_slice(s);
    } else {
        bytes.copy_from_slice(&s[..8]);
    }
    u64::from_le_bytes(bytes)
}
