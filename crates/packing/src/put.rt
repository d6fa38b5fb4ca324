// Frames put into an output. Where the output lacks the room nothing is put; a number too wide is cut to its field.
ghost use Rattle.std.specs.Prelude.{◌≡◌, ◌+◌, ◌≤◌, ◌++◌, length, take, drop};
ghost use Rattle.bits.specs.Bits.{bytes_of};
ghost use Rattle.fields.specs.Format.{head_frame, booking_frame, job_frame, end_frame};
ghost use Rattle.packing.specs.Packing.{cut_head, cut_booking, cut_job, frame_put};

use fields::{Booking, Head, Job};
use unpacking::FrameHeader;

// The head's frame, at the front of the output.
pub fn put_head(h: Head, out: &mut [u8])
    ensures { out.new ≡ frame_put (head_frame (cut_head h)) 0 out.old }
{
    if out.len() < 10 {
        return;
    }
    let fields = ((h.benches % 128 * 128 + h.p % 128) * 128 + h.q % 128) * 1073741824
        + h.target % 1073741824;
    put(
        out,
        0,
        3,
        FrameHeader::packed(FrameHeader::HEAD, FrameHeader::HEAD_LENGTH),
    );
    put(out, 3, 7, fields * 32);
}

// A booking's frame, at the front of the output.
pub fn put_booking(b: Booking, out: &mut [u8])
    ensures { out.new ≡ frame_put (booking_frame (cut_booking b)) 0 out.old }
{
    if out.len() < 7 {
        return;
    }
    let fields = (b.bench % 64) as u64 * 1048576 + b.minutes % 1048576;
    put(
        out,
        0,
        3,
        FrameHeader::packed(FrameHeader::BOOKING, FrameHeader::BOOKING_LENGTH),
    );
    put(out, 3, 4, fields * 64);
}

// A job's frame, at the front of the output.
pub fn put_job(j: Job, out: &mut [u8])
    ensures { out.new ≡ frame_put (job_frame (cut_job j)) 0 out.old }
{
    if out.len() < 14 {
        return;
    }
    put(
        out,
        0,
        3,
        FrameHeader::packed(FrameHeader::JOB, FrameHeader::JOB_LENGTH),
    );
    put(
        out,
        3,
        8,
        j.minutes % 1048576 * 17592186044416 + j.allowed / 1048576,
    );
    put(out, 11, 3, j.allowed % 1048576 * 16);
}

// The end's frame, at byte `at`.
pub fn put_end(out: &mut [u8], at: usize)
    ensures { out.new ≡ frame_put end_frame at out.old }
{
    if out.len() < 3 {
        return;
    }
    if out.len() - 3 < at {
        return;
    }
    put(out, at, 3, FrameHeader::packed(FrameHeader::END, 0));
}

// The k lowest bytes of v, the highest first, at byte `at` of the output.
fn put(out: &mut [u8], at: usize, k: usize, v: u64)
    requires { (k ≤ 8) × (at + k ≤ length out.old) }
    ensures { out.new ≡ take at out.old ++ bytes_of k v ++ drop (at + k) out.old }
{
    out[at..at + k].copy_from_slice(&v.to_be_bytes()[8 - k..]);
}
