// The types of the entries of arrays.
ghost use Rattle.std.specs.Prelude.{◌≡◌, ℕ, ◌%◌, false};

// A type of entries, with what is read past the end of an array.
pub trait Entry: Copy {
    ghost blank: { Self };

    fn blank() -> Self
        ensures { result ≡ blank };
}

// Entries that are numbers; of a number too wide for them, its lowest bits.
pub trait Number: Entry {
    ghost number: { Self → ℕ };

    ghost of: { ℕ → Self };

    fn number(self) -> usize
        ensures { result ≡ number self };

    fn of(n: usize) -> Self
        ensures { result ≡ of n };
}

impl Entry for bool {
    ghost blank = { false };

    fn blank() -> bool {
        false
    }
}

impl Entry for u8 {
    ghost blank = { 0 };

    fn blank() -> u8 {
        0
    }
}

impl Number for u8 {
    ghost number = { λ x. x };

    ghost of = { λ n. n % 256 };

    fn number(self) -> usize {
        usize::from(self)
    }

    fn of(n: usize) -> u8 {
        (n % 256) as u8
    }
}

impl Entry for u64 {
    ghost blank = { 0 };

    fn blank() -> u64 {
        0
    }
}

impl Number for u64 {
    ghost number = { λ x. x };

    ghost of = { λ n. n };

    fn number(self) -> usize {
        self as usize
    }

    fn of(n: usize) -> u64 {
        n as u64
    }
}

impl Entry for usize {
    ghost blank = { 0 };

    fn blank() -> usize {
        0
    }
}

impl Number for usize {
    ghost number = { λ x. x };

    ghost of = { λ n. n };

    fn number(self) -> usize {
        self
    }

    fn of(n: usize) -> usize {
        n
    }
}
