// The faults of a sheet, of the writer and of papers to be checked, by number, each with its place.
ghost use Rattle.std.specs.Prelude.{◌≡◌};
ghost use Rattle.fields.specs.Numbers.{number_of, place_of};

#[derive(Clone, Copy, Debug, PartialEq, Eq)]
pub enum Fault {
    // 1: the sheet is longer than 65,536 bytes.
    TooLong,
    // 2: the sheet ends inside a frame, or without an end frame.
    Truncated(usize),
    // 3: a version 1 frame of no known kind.
    UnknownKind(usize),
    // 4: a version 1 frame out of its place.
    Misplaced(usize),
    // 5: a body of another length than its kind has.
    WrongLength(usize),
    // 6: a spare bit is 1.
    SpareBit(usize),
    // 7: no bench or more than 64; from the writer also a target too wide.
    BenchCount(usize),
    // 8: a bad share; from the writer also p or q too wide.
    Share(usize),
    // 9: the 513th job.
    JobCount(usize),
    // 10: from the writer only, minutes too wide or not given.
    Minutes(usize),
    // 11: no bench allowed, or one that the head lacks.
    Allowed(usize),
    // 12: three or more benches and q × minutes > p × W; the place is the job.
    HeavyHyperEdge(usize),
    // 13: a table or the output is too short.
    Table(usize),
    // 14: a booking for a bench that the head lacks; from the writer also minutes too wide.
    BookedBench(usize),
    // 15: a second booking frame for a bench.
    BookedTwice(usize),
    // 16: a list of places that does not have one for each job.
    PlaceCount,
    // 17: an empty set of benches, or one with a bench that the head lacks; the place is the bench, on a page of sets
    // the set's number.
    SetBench(usize),
    // 18: a set on a page that shares a bench with an earlier one; the place is the set's number.
    SharedBench(usize),
}

impl Fault {
    // The number that users see.
    pub fn number(self) -> u64
        ensures { result ≡ number_of self }
    {
        match self {
            Fault::TooLong => 1,
            Fault::Truncated(_) => 2,
            Fault::UnknownKind(_) => 3,
            Fault::Misplaced(_) => 4,
            Fault::WrongLength(_) => 5,
            Fault::SpareBit(_) => 6,
            Fault::BenchCount(_) => 7,
            Fault::Share(_) => 8,
            Fault::JobCount(_) => 9,
            Fault::Minutes(_) => 10,
            Fault::Allowed(_) => 11,
            Fault::HeavyHyperEdge(_) => 12,
            Fault::Table(_) => 13,
            Fault::BookedBench(_) => 14,
            Fault::BookedTwice(_) => 15,
            Fault::PlaceCount => 16,
            Fault::SetBench(_) => 17,
            Fault::SharedBench(_) => 18,
        }
    }

    // The place that users see: a byte, a job, a bench, a set on a page or 0.
    pub fn place(self) -> usize
        ensures { result ≡ place_of self }
    {
        match self {
            Fault::TooLong | Fault::PlaceCount => 0,
            Fault::Truncated(at)
            | Fault::UnknownKind(at)
            | Fault::Misplaced(at)
            | Fault::WrongLength(at)
            | Fault::SpareBit(at)
            | Fault::BenchCount(at)
            | Fault::Share(at)
            | Fault::JobCount(at)
            | Fault::Minutes(at)
            | Fault::Allowed(at)
            | Fault::HeavyHyperEdge(at)
            | Fault::Table(at)
            | Fault::BookedBench(at)
            | Fault::BookedTwice(at)
            | Fault::SetBench(at)
            | Fault::SharedBench(at) => at,
        }
    }
}
