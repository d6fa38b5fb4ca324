// The frame at a place of the sheet: the faults 2 to 11, 14 and 15, in order, or what the frame holds.
ghost use Rattle.std.specs.Prelude.{◌≡◌, ◌<◌};
ghost use Rattle.bits.specs.Bits.{is_set};
ghost use Rattle.fields.specs.Format.{head_kind, job_kind, end_kind, booking_kind, frame_size};
ghost use Rattle.fields.specs.Tests.{none_had};
ghost use Rattle.judging.specs.Steps.{frame_of, frame_at};

use fields::{Booking, Fault, Head, Job};
use unpacking::FrameHeader;

// Which frames may come: the head; bookings, jobs or the end; or none of version 1.
#[derive(Clone, Copy)]
pub enum Stage {
    Start,
    Open,
    Closed,
}

// What a frame turns out to be.
#[derive(Drop)]
pub enum Frame {
    Foreign,
    Head(Head),
    Booking(Booking),
    Job(Job),
    End,
}

// The bytes of the frame at the front of `rest`, header and body.
pub fn frame_size(rest: &[u8]) -> usize
    ensures { (result ≡ frame_size rest.now) × (result < 65539) }
{
    let header = FrameHeader::read(rest);
    FrameHeader::SIZE + header.length
}

// Faults 2 to 11, 14 and 15 of the frame at the front of `rest`, or what it holds. It begins at byte `at` of the sheet;
// a head with so many benches, n jobs and bookings for the benches of the set `had` have been read.
pub fn frame_at(
    rest: &[u8],
    at: usize,
    stage: Stage,
    benches: u64,
    n: usize,
    had: usize,
) -> Result<Frame, Fault>
    ensures { result ≡ frame_at stage benches n (is_set 64 had) at rest.now }
{
    let header = FrameHeader::read(rest);
    let start = FrameHeader::SIZE;
    let end = start + header.length;
    if rest.len() < end {
        return Err(Fault::Truncated(at));
    }
    if header.version != FrameHeader::VERSION {
        return Ok(Frame::Foreign);
    }
    judge(&rest[start..end], at, header.kind, stage, benches, n, had)
}

// Faults 3 to 11, 14 and 15 of the frame of version 1 at byte `at`, whose body is given, or what it holds.
fn judge(
    body: &[u8],
    at: usize,
    kind: u64,
    stage: Stage,
    benches: u64,
    n: usize,
    had: usize,
) -> Result<Frame, Fault>
    ensures { result ≡ frame_of stage benches n (is_set 64 had) at kind body.now }
{
    match kind {
        FrameHeader::HEAD => judge_head(body, at, stage),
        FrameHeader::JOB => judge_job(body, at, stage, benches, n),
        FrameHeader::END => judge_end(body, at, stage),
        FrameHeader::BOOKING => judge_booking(body, at, stage, benches, n, had),
        _ => Err(Fault::UnknownKind(at)),
    }
}

fn judge_head(body: &[u8], at: usize, stage: Stage) -> Result<Frame, Fault>
    ensures { result ≡ frame_of stage 0 0 none_had at head_kind body.now }
{
    let Stage::Start = stage else {
        return Err(Fault::Misplaced(at));
    };
    if body.len() != FrameHeader::HEAD_LENGTH {
        return Err(Fault::WrongLength(at));
    }
    if unpacking::head_spare(body) != 0 {
        return Err(Fault::SpareBit(at));
    }
    let h = unpacking::read_head(body);
    checks::check_head(h, at)?;
    Ok(Frame::Head(h))
}

fn judge_job(body: &[u8], at: usize, stage: Stage, benches: u64, n: usize) -> Result<Frame, Fault>
    ensures { result ≡ frame_of stage benches n none_had at job_kind body.now }
{
    let Stage::Open = stage else {
        return Err(Fault::Misplaced(at));
    };
    if body.len() != FrameHeader::JOB_LENGTH {
        return Err(Fault::WrongLength(at));
    }
    if unpacking::job_spare(body) != 0 {
        return Err(Fault::SpareBit(at));
    }
    let j = unpacking::read_job(body);
    checks::check_job(benches, n, j, at)?;
    Ok(Frame::Job(j))
}

fn judge_end(body: &[u8], at: usize, stage: Stage) -> Result<Frame, Fault>
    ensures { result ≡ frame_of stage 0 0 none_had at end_kind body.now }
{
    let Stage::Open = stage else {
        return Err(Fault::Misplaced(at));
    };
    if body.len() != 0 {
        return Err(Fault::WrongLength(at));
    }
    Ok(Frame::End)
}

fn judge_booking(
    body: &[u8],
    at: usize,
    stage: Stage,
    benches: u64,
    n: usize,
    had: usize,
) -> Result<Frame, Fault>
    ensures { result ≡ frame_of stage benches n (is_set 64 had) at booking_kind body.now }
{
    let Stage::Open = stage else {
        return Err(Fault::Misplaced(at));
    };
    if 0 < n {
        return Err(Fault::Misplaced(at));
    }
    if body.len() != FrameHeader::BOOKING_LENGTH {
        return Err(Fault::WrongLength(at));
    }
    if unpacking::booking_spare(body) != 0 {
        return Err(Fault::SpareBit(at));
    }
    let b = unpacking::read_booking(body);
    checks::check_booking(benches, had, b, at)?;
    Ok(Frame::Booking(b))
}
