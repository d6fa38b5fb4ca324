// What a sheet holds.

// Benches, the share p / q, and the target in minutes.
#[derive(Clone, Copy)]
pub struct Head {
    pub benches: u64,
    pub p: u64,
    pub q: u64,
    pub target: u64,
}

// Minutes booked on a bench before the day begins.
#[derive(Clone, Copy)]
pub struct Booking {
    pub bench: usize,
    pub minutes: u64,
}

// Minutes, and the benches allowed as the sheet's 64-bit field: bench b is the bit of weight 2 ^ (63 - b).
#[derive(Clone, Copy)]
pub struct Job {
    pub minutes: u64,
    pub allowed: u64,
}

impl Job {
    // Stands for minutes that are not given: a number too wide for the field.
    pub const NO_MINUTES: u64 = 1048576;
}

// A whole sheet. Entry b of `booked` is bench b. Entry n of the other arrays is job n; entries from `count` on are 0.
#[derive(Drop)]
pub struct Sheet {
    pub head: Head,
    pub booked: [u64; 64],
    pub count: usize,
    pub minutes: [u64; 512],
    pub allowed: [u64; 512],
}
