// Small steps of a block's turn: visit bytes, the skip test and a count. Nothing is assumed of the slices.
#![tactic(auto)]

ghost use Rattle.std.specs.Prelude.{◌≡◌, not, ◌+◌, min, get_or, set, eqb};
ghost use Rattle.search_steps.specs.Skips.{skips_at};

use number_types::RangeStart;

// A start is visited where it has a byte that is not 0.
pub fn is_visited(visits: &[u8], start: RangeStart) -> bool
    ensures { result ≡ not (eqb (get_or visits.now start.0 0) 0) }
{
    cells::at(visits, start.0 as usize, 0) != 0
}

// A visit writes 1.
pub fn visit(visits: &mut [u8], start: RangeStart)
    ensures { visits.new ≡ set visits.old start.0 1 }
{
    cells::put(visits, start.0 as usize, 1);
}

// Whether a block is skipped: k are kept, and its score is below the factor times the worst kept score.
pub fn skips(k: u64, factor: f32, score: f32, length: u64, worst: f32) -> bool
    ensures { result ≡ skips_at k factor score length worst }
{
    (length == k) & (score < factor * worst)
}

// A count with one more; the greatest number stays as it is. A search does not come there: it counts no more than there are visit bytes
// or turns.
pub fn one_more(n: u64) -> u64
    ensures { result ≡ min (n + 1) 18446744073709551615 }
{
    if n == 18446744073709551615 {
        return n;
    }
    n + 1
}
