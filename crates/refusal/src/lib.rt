// Why a call is refused. The numbers stand here and nowhere else.
#![tactic(auto)]

ghost use Rattle.std.specs.Prelude.{◌≡◌};
ghost use Rattle.refusal.specs.Refusals.{number_of, verdict_number};

// One reason for each numbered refusal, in the order of the numbers.
#[derive(Clone, Copy, Debug, PartialEq, Eq)]
pub enum Refusal {
    // a range start is at least 2^48
    StartTooLarge = 1,
    // a range is longer than 65,535
    RangeTooLong = 2,
    // the block size is 0
    NoBlockSize = 3,
    // a lent buffer is shorter than the call's result or work needs
    BufferTooShort = 4,
    // more than 65,535 centroids, or not as many listed as there should be
    WrongCentroids = 5,
    // document offsets break their rule, term slices differ in length, or an id names no document
    WrongDocuments = 6,
    // a block's summary is empty
    EmptySummary = 7,
    // list length, dimension or block count outside its limit
    OutsideLimits = 8,
    // a list to be searched is malformed
    MalformedList = 9,
    // query components don't strictly rise, lengths differ, or a value breaks its bound
    WrongQuery = 10,
    // k is 0
    NothingToKeep = 11,
    // the kept entries are too many or out of order, or they or a pushed score hold a NaN
    WrongKeptList = 12,
    // an unvisited range reaches past the terms
    PastTheTerms = 13,
    // components don't strictly rise or reach the dimension, or a value breaks its bound
    WrongTerms = 14,
    // no document has the asked start
    NoSuchStart = 15,
}

impl Refusal {
    // The refusal's number, from 1 on.
    pub fn number(self) -> u64
        ensures { result ≡ number_of self }
    {
        self as u64
    }
}

// The number of an answer, for the C functions, which answer in numbers: 0 where the call is accepted, else the refusal's.
pub fn verdict_number(verdict: Result<(), Refusal>) -> u64
    ensures { result ≡ verdict_number verdict }
{
    match verdict {
        Ok(()) => 0,
        Err(refusal) => refusal.number(),
    }
}
