// Result words: a fault's number in the high 32 bits and its place in the low ones, or a value below 2 ^ 32.
ghost use Rattle.std.specs.Prelude.{◌≡◌};
ghost use Rattle.tables.specs.Words.{fault_word};

use fields::Fault;

// Planning.
pub const PLAN: u64 = 1;

pub const LONG: u64 = 2;

pub const NONE: u64 = 3;

// The best target.
pub const BEST: u64 = 1;

// Comparing.
pub const DIFFERENT: u64 = 0;

pub const SAME: u64 = 1;

// The checks, which say `LONG` too.
pub const NOT_PASSED: u64 = 0;

pub const PASSED: u64 = 1;

// The entry of an answer that names no job and no set.
pub const NOTHING: u64 = 0;

pub fn fault_word(f: Fault) -> u64
    ensures { result ≡ fault_word f }
{
    f.number() * 4294967296 + (f.place() % 4294967296) as u64
}
