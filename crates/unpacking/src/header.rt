// Frames: headers and the bodies of each kind.
ghost use Rattle.std.specs.Prelude.{◌≡◌, ◌<◌, ◌^◌, ◌%◌, [], ◌∷◌, drop};
ghost use Rattle.bits.specs.Bits.{big};
ghost use Rattle.bits.specs.Layout.{field, joined};
ghost use Rattle.fields.specs.Format.{ours, header_layout, version_of, kind_of, length_of};
ghost use Rattle.fields.specs.Format.{head_layout, job_layout, booking_layout, head_of, job_of, booking_of};

use crate::bytes;
use fields::{Booking, Head, Job};

// The 24 bits before a body.
#[derive(Drop)]
pub struct FrameHeader {
    pub version: u64,
    pub kind: u64,
    pub length: usize,
}

impl FrameHeader {
    // The version that is read; frames of any other are skipped.
    pub const VERSION: u64 = 1;
    // The kinds of version 1.
    pub const HEAD: u64 = 1;

    pub const JOB: u64 = 2;

    pub const END: u64 = 3;

    pub const BOOKING: u64 = 4;
    // Bytes of a header, and of the body of each kind that has one.
    pub const SIZE: usize = 3;

    pub const HEAD_LENGTH: usize = 7;

    pub const JOB_LENGTH: usize = 11;

    pub const BOOKING_LENGTH: usize = 4;

    // The header at the front of s; bytes that s lacks count as 0.
    pub fn read(s: &[u8]) -> FrameHeader
        ensures { (result.version ≡ version_of s.now)
            × (result.kind ≡ kind_of s.now)
            × (result.length ≡ length_of s.now)
            × (result.length < 65536) }
    {
        let n = bytes::big3(s);
        FrameHeader {
            version: n / 1048576 % 16,
            kind: n / 65536 % 16,
            length: (n % 65536) as usize,
        }
    }

    // The 24 bits of the header of a version 1 frame, as a number. A kind or length too wide is cut to its field.
    pub fn packed(kind: u64, length: usize) -> u64
        ensures { result ≡ joined header_layout (ours ∷ kind % 2 ^ 4 ∷ length % 2 ^ 16 ∷ []) }
    {
        (Self::VERSION * 16 + kind % 16) * 65536 + (length % 65536) as u64
    }
}

// The head that a body of seven bytes holds.
pub fn read_head(body: &[u8]) -> Head
    ensures { result ≡ head_of body.now }
{
    let n = bytes::big7(body);
    Head {
        benches: n / 562949953421312 % 128,
        p: n / 4398046511104 % 128,
        q: n / 34359738368 % 128,
        target: n / 32 % 1073741824,
    }
}

// Its spare bits.
pub fn head_spare(body: &[u8]) -> u64
    ensures { result ≡ field head_layout 4 body.now }
{
    bytes::big7(body) % 32
}

// The job that a body of eleven bytes holds.
pub fn read_job(body: &[u8]) -> Job
    ensures { result ≡ job_of body.now }
{
    let front = bytes::big8(body);
    let back = job_back(body);
    Job {
        minutes: front / 17592186044416 % 1048576,
        allowed: front % 17592186044416 * 1048576 + back / 16 % 1048576,
    }
}

// Its spare bits.
pub fn job_spare(body: &[u8]) -> u64
    ensures { result ≡ field job_layout 2 body.now }
{
    job_back(body) % 16
}

// The number of the bytes 8 to 10.
fn job_back(body: &[u8]) -> u64
    ensures { (result ≡ big (drop 8 body.now) 3) × (result < 2 ^ 24) }
{
    (bytes::byte(body, 8) * 256 + bytes::byte(body, 9)) * 256 + bytes::byte(body, 10)
}

// The booking that a body of four bytes holds.
pub fn read_booking(body: &[u8]) -> Booking
    ensures { result ≡ booking_of body.now }
{
    let n = bytes::big4(body);
    Booking {
        bench: (n / 67108864 % 64) as usize,
        minutes: n / 64 % 1048576,
    }
}

// Its spare bits.
pub fn booking_spare(body: &[u8]) -> u64
    ensures { result ≡ field booking_layout 2 body.now }
{
    bytes::big4(body) % 64
}
