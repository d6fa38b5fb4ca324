// Reading a sheet, for C.
ghost use Rattle.std.specs.Prelude.{◌≡◌, ◌+◌, ◌*◌, ◌≤◌, ◌++◌, length, take, drop};
ghost use Rattle.bits.specs.Little.{little_all};
ghost use Rattle.fields.specs.Tests.{job_table};
ghost use Rattle.frame.specs.Reading.{read_sheet};
ghost use Rattle.read_door.specs.ReadDoor.{head_numbers, job_numbers, read_word, contents_table};

use frame::{Fault, Head};

// Reads a sheet and puts what it holds to the front of the table `contents`.
pub fn read(sheet: &[u8], contents: &mut [u8]) -> u64
    ensures word { result ≡ read_word (read_sheet sheet.now) (length contents.old) }
    ensures table { contents.new ≡ contents_table (read_sheet sheet.now)
        contents.old }
{
    let s = match reading::read(sheet) {
        Ok(s) => s,
        Err(f) => return tables::fault_word(f),
    };
    let n = s.count;
    if contents.len() < 544 + 16 * n {
        return tables::fault_word(Fault::Table(0));
    }
    put_head(s.head, contents);
    put_booked(&s.booked, contents);
    put_jobs(n, &s.minutes, &s.allowed, contents);
    n as u64
}

fn put_head(h: Head, contents: &mut [u8])
    requires { 32 ≤ length contents.old }
    ensures { contents.new ≡ little_all 8 (head_numbers h) ++ drop 32 contents.old }
{
    tables::put_front(&[h.benches, h.p, h.q, h.target], contents);
}

// One number for each of 64 benches, behind those of the head.
fn put_booked(booked: &[u64], contents: &mut [u8])
    requires { (length booked.now ≡ 64) × (544 ≤ length contents.old) }
    ensures { contents.new ≡ take 32 contents.old ++ little_all 8 booked.now
        ++ drop 544 contents.old }
{
    tables::put_front(booked, &mut contents[32..544]);
}

// Two numbers for each job, behind the booked ones.
fn put_jobs(n: usize, minutes: &[u64], allowed: &[u64], contents: &mut [u8])
    requires { (n ≤ length minutes.now) × (n ≤ length allowed.now) × (544 + 16 * n ≤ length contents.old) }
    ensures { contents.new ≡ take 544 contents.old
        ++ little_all 8 (job_numbers (job_table n minutes.now allowed.now))
        ++ drop (544 + 16 * n) contents.old }
{
    for i in 0..n {
        tables::put(contents, 68 + 2 * i, minutes[i]);
        tables::put(contents, 69 + 2 * i, allowed[i]);
    }
}
