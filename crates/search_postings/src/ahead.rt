// Looking ahead. A search waits for memory that is touched for the first time; one term of each cache line of a few pages is read before
// the first of these pages is, so that these waits are one. Nothing is assumed of the slices, and no contract speaks of what is answered:
// any answer would do.
ghost use Rattle.std.specs.Prelude.{◌≡◌, length as len};

use documents::Terms;
use packing::PackedPosting;

// How many components, or values, there are in a cache line.
const LINE: usize = 16;

// The bits that are set in any of the components and visit bytes looked at, and whether no page's values looked at are below zero in sum: two
// facts, neither a flag for the other.
#[derive(Drop)]
struct Seen {
    bits: u32,
    fine: bool,
}

// With the first term, every sixteenth after it, and the last: one or more of each cache line. Each page has a sum of its own, so that none
// waits for another's.
fn touch(seen: Seen, components: &[u32], values: &[f32]) -> Seen
    requires { len components.now ≡ len values.now }
{
    let n = components.len();
    if n == 0 {
        return seen;
    }
    let last = n - 1;
    let mut bits = seen.bits | components[last];
    let mut sum = values[last];
    for i in (0..n).step_by(LINE) {
        bits |= components[i];
        sum += values[i];
    }
    Seen {
        bits,
        fine: seen.fine & (sum >= 0.0),
    }
}

// The same with a posting's terms, and with its visit byte.
fn look(seen: Seen, terms: Terms<'_>, visits: &[u8], posting: PackedPosting) -> Seen {
    let range = posting.unpack();
    let from = range.start.0 as usize;
    let to = range.end as usize;
    let visit = cells::at(visits, from, 0);
    let n = documents::term_count(terms.components, terms.values);
    if n < to {
        return seen;
    }
    touch(
        Seen {
            bits: seen.bits | (visit as u32),
            fine: seen.fine,
        },
        &terms.components[from..to],
        &terms.values[from..to],
    )
}

// Whether no component looked at lies past a query's table, and no page's values looked at are below zero in sum. It takes a few steps for
// each cache line of the postings' terms.
pub(crate) fn look_ahead(terms: Terms<'_>, visits: &[u8], postings: &[u64]) -> bool {
    let mut seen = Seen {
        bits: 0,
        fine: true,
    };
    for posting in postings {
        seen = look(seen, terms, visits, PackedPosting(*posting));
    }
    (seen.bits < 32768) & seen.fine
}
