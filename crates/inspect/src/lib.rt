// Reading, shown as a table of numbers: for tests only.
#![tactic(auto)]

ghost use Rattle.std.specs.Prelude.{◌≡◌, ◌+◌, ◌*◌, ◌≤◌, ◌++◌, length, take, drop};
ghost use Rattle.bits.specs.Little.{little_all};
ghost use Rattle.fields.specs.Tests.{job_table};
ghost use Rattle.frame.specs.Reading.{read_sheet};
ghost use Rattle.inspect.specs.Inspect.{inspect_word, inspect_table, head_numbers, job_numbers};

use frame::{Fault, Head};

// Reads a sheet and puts what was read into the table.
#[unsafe(no_mangle)]
pub extern "C" fn yinqocha_inspect(sheet: &[u8], table: &mut [u8]) -> u64
    ensures { (result ≡ inspect_word (read_sheet sheet.now) (length table.old))
        × (table.new ≡ inspect_table (read_sheet sheet.now) table.old) }
{
    let s = match reading::read(sheet) {
        Ok(s) => s,
        Err(f) => return tables::fault_word(f),
    };
    let n = s.count;
    if table.len() < 544 + 16 * n {
        return tables::fault_word(Fault::Table(0));
    }
    put_head(s.head, table);
    put_booked(&s.booked, table);
    put_jobs(n, &s.minutes, &s.allowed, table);
    n as u64
}

fn put_head(h: Head, table: &mut [u8])
    requires { 32 ≤ length table.old }
    ensures { table.new ≡ little_all 8 (head_numbers h) ++ drop 32 table.old }
{
    tables::put_front(&[h.benches, h.p, h.q, h.target], table);
}

// One number for each of 64 benches, behind those of the head.
fn put_booked(booked: &[u64], table: &mut [u8])
    requires { (length booked.now ≡ 64) × (544 ≤ length table.old) }
    ensures { table.new ≡ take 32 table.old ++ little_all 8 booked.now
        ++ drop 544 table.old }
{
    tables::put_front(booked, &mut table[32..544]);
}

fn put_jobs(n: usize, minutes: &[u64], allowed: &[u64], table: &mut [u8])
    requires { (n ≤ length minutes.now) × (n ≤ length allowed.now) × (544 + 16 * n ≤ length table.old) }
    ensures { table.new ≡ take 544 table.old
        ++ little_all 8 (job_numbers (job_table n minutes.now allowed.now))
        ++ drop (544 + 16 * n) table.old }
{
    for i in 0..n {
        tables::put(table, 68 + 2 * i, minutes[i]);
        tables::put(table, 69 + 2 * i, allowed[i]);
    }
}
