// A document's range of terms in one number, as a posting list holds it.
#![tactic(auto)]

ghost use Rattle.std.specs.Prelude.{◌≡◌, ◌-◌, leb, ltb};
ghost use Rattle.packing.specs.Packing.{start_limit, length_limit, packed, unpacked};

use number_types::RangeStart;
use refusal::Refusal;

// A range as its start and its length in one number: packed numbers rise by start, then by length.
#[derive(Clone, Copy)]
pub struct PackedPosting(pub u64);

// A packed range, taken apart. Its end is its start plus its length.
#[derive(Drop)]
pub struct UnpackedRange {
    pub start: RangeStart,
    pub length: u64,
    pub end: u64,
}

impl PackedPosting {
    // Every start is below this limit.
    pub const START_LIMIT: u64 = 0x1_0000_0000_0000;

    // No length is above this limit.
    pub const LENGTH_LIMIT: u64 = 0xffff;

    // What one more in the start adds to the packed number.
    const START_WEIGHT: u64 = PackedPosting::LENGTH_LIMIT + 1;

    // Whether a range with this start can be packed.
    pub fn start_fits(start: RangeStart) -> bool
        ensures { result ≡ ltb start.0 start_limit }
    {
        start.0 < PackedPosting::START_LIMIT
    }

    // Whether a range of this length can be packed.
    pub fn length_fits(length: u64) -> bool
        ensures { result ≡ leb length length_limit }
    {
        length <= PackedPosting::LENGTH_LIMIT
    }

    // The range from `start` to `end` in one number; an end below its start counts as length 0. Refuses a start at its limit
    // or past it, and then a length above its limit.
    pub fn pack(start: RangeStart, end: u64) -> Result<PackedPosting, Refusal>
        ensures { result ≡ packed start.0 end }
    {
        let at = start.0;
        if at >= PackedPosting::START_LIMIT {
            return Err(Refusal::StartTooLarge);
        }
        let length = range_length(start, end);
        if length > PackedPosting::LENGTH_LIMIT {
            return Err(Refusal::RangeTooLong);
        }
        Ok(PackedPosting(at * PackedPosting::START_WEIGHT + length))
    }

    // The range that was packed: of any number, since each is the pack of some range.
    pub fn unpack(self) -> UnpackedRange
        ensures { result ≡ unpacked self.0 }
    {
        let start = self.0 / PackedPosting::START_WEIGHT;
        let length = self.0 % PackedPosting::START_WEIGHT;
        UnpackedRange {
            start: RangeStart(start),
            length,
            end: start + length,
        }
    }
}

fn range_length(start: RangeStart, end: u64) -> u64
    ensures { result ≡ end - start.0 }
{
    if end < start.0 { 0 } else { end - start.0 }
}
