// Tables that are written: numbers of 8 bytes each, the least significant byte first.
ghost use Rattle.std.specs.Prelude.{◌≡◌};
ghost use Rattle.tables.specs.Tables.{put_entry};

// Entry n of a table becomes v; a table without room for the entry keeps its contents.
pub fn put(t: &mut [u8], n: usize, v: u64)
    ensures { t.new ≡ put_entry t.old n v }
{
    if n < t.len() / 8 {
        t[8 * n..8 * n + 8].copy_from_slice(&v.to_le_bytes());
    }
}
