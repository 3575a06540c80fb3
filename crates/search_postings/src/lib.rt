// One posting after another: a range that was not visited is read against the query by its table and sieve, and a scored one is kept if
// it is among the k best. Nothing is assumed of the slices, nor that the table and the sieve are those of the query.
#![tactic(auto)]

mod ahead;
mod pairs;

ghost use Rattle.std.specs.Prelude.{◌≡◌, ◌+◌, ◌-◌, ◌≤◌, ◌<◌, min, length as len};
ghost use Rattle.sequences.specs.Lists.{from};
ghost use Rattle.kept_list.specs.Lent.{lent};
ghost use Rattle.search_postings.specs.Ranges.{range_through};
ghost use Rattle.search_postings.specs.Postings.{lends, turned, held_evaluate, held_probe};
ghost use Rattle.search_postings.specs.Pairs.{probe_rest, leads_to};
ghost use Rattle.search_postings.specs.Lent.{through_lent};

use ahead::look_ahead;
use documents::Terms;
use number_types::RangeStart;
use packing::PackedPosting;
use pairs::evaluate_two;
use refusal::Refusal;
use search_page::Laid;

// What reading a posting's range says.
#[derive(Drop)]
pub enum RangeReading {
    ReachesPast,
    Breaks,
    Score(f32),
}

// The postings evaluated and the blocks skipped so far.
#[derive(Clone, Copy)]
pub struct Counts {
    pub evaluated: u64,
    pub skipped: u64,
}

// Why a posting stopped the search, and its position.
#[derive(Clone, Copy)]
pub struct Stop {
    pub reason: Refusal,
    pub position: u64,
}

// Where a step over the next postings leads: to a position, with these counts.
#[derive(Clone, Copy)]
struct Next {
    counts: Counts,
    next: usize,
}

// How many postings are looked at ahead.
const AHEAD: usize = 8;

// The terms from a start to below an end, read by the table or through the sieve, whichever is expected.
fn read_range(
    narrow: bool,
    laid: Laid<'_>,
    terms: Terms<'_>,
    start: RangeStart,
    end: u64,
) -> RangeReading
    requires { start.0 ≤ end }
    ensures { result ≡ range_through laid.entry.table.now laid.entry.sieve.now laid.entry.query.components.now laid.entry.query.values.now
        terms.entry.components.now terms.entry.values.now start.0 end }
{
    let from = start.0 as usize;
    let to = end as usize;
    let n = documents::term_count(terms.components, terms.values);
    if n < to {
        return RangeReading::ReachesPast;
    }
    let r = search_page::read(
        narrow,
        laid,
        &terms.components[from..to],
        &terms.values[from..to],
    );
    match r {
        None => RangeReading::Breaks,
        Some(x) => RangeReading::Score(x),
    }
}

// One posting: passed over where its start was visited; else its range is read, and a scored one is kept if it is among the k best,
// and its start is marked. The answer is the counts after it, or the stop at it; nothing changes where it stops the search.
fn evaluate(
    narrow: bool,
    laid: Laid<'_>,
    terms: Terms<'_>,
    k: u64,
    posting: PackedPosting,
    position: u64,
    length: &mut u64,
    packed: &mut [u64],
    scores: &mut [f32],
    visits: &mut [u8],
    counts: Counts,
) -> Result<Counts, Stop>
    ensures { turned result (lends (lent length.new packed.new scores.new) visits.new)
        ≡ held_evaluate k (through_lent laid.entry.table.now laid.entry.sieve.now laid.entry.query terms.entry)
        posting.0 position counts (lends (lent length.old packed.old scores.old) visits.old) }
{
    let range = posting.unpack();
    if search_steps::is_visited(visits, range.start) {
        return Ok(counts);
    }
    let r = read_range(narrow, laid, terms, range.start, range.end);
    match r {
        RangeReading::ReachesPast => Err(Stop {
            reason: Refusal::PastTheTerms,
            position,
        }),
        RangeReading::Breaks => Err(Stop {
            reason: Refusal::WrongTerms,
            position,
        }),
        RangeReading::Score(x) => {
            search_held::keep_found(k, posting, range.start, x, length, packed, scores, visits);
            Ok(Counts {
                evaluated: search_steps::one_more(counts.evaluated),
                skipped: counts.skipped,
            })
        }
    }
}

// A step over the next posting, or over the next two at a time where there are two before the stop and the table is expected to have a
// place for each of their components.
fn step_on(
    narrow: bool,
    laid: Laid<'_>,
    terms: Terms<'_>,
    k: u64,
    postings: &[u64],
    i: usize,
    stop: usize,
    length: &mut u64,
    packed: &mut [u64],
    scores: &mut [f32],
    visits: &mut [u8],
    counts: Counts,
) -> Result<Next, Stop>
    requires i_lt_stop { i < stop }
    requires stop_bound { stop ≤ len postings.now }
    ensures turned { probe_rest k (through_lent laid.entry.table.now laid.entry.sieve.now laid.entry.query terms.entry) postings.now stop result
        (lends (lent length.new packed.new scores.new) visits.new)
        ≡ held_probe k (through_lent laid.entry.table.now laid.entry.sieve.now laid.entry.query terms.entry) postings.now (from i (stop - i)) counts
        (lends (lent length.old packed.old scores.old) visits.old) }
    ensures further { i < leads_to stop result }
{
    let posting = PackedPosting(postings[i]);
    let wanted = narrow & (2 <= stop - i);
    let both = evaluate_two(
        wanted,
        laid.table,
        terms,
        k,
        posting,
        PackedPosting(cells::at(postings, i + 1, 0)),
        length,
        packed,
        scores,
        visits,
        counts,
    );
    if let Some(c) = both {
        return Ok(Next {
            counts: c,
            next: i + 2,
        });
    }
    let c = evaluate(
        narrow, laid, terms, k, posting, i as u64, length, packed, scores, visits, counts,
    )?;
    Ok(Next {
        counts: c,
        next: i + 1,
    })
}

// The postings from one position to below another, as far as there are any, one after another: the counts after them, or the stop at one
// of them. Some at a time are looked at ahead, so that their terms are on their way when they are read; what that says changes only the
// way of reading. It takes time in proportion to the terms of the postings evaluated, and a few steps for each one passed over.
pub fn probe_postings(
    laid: Laid<'_>,
    terms: Terms<'_>,
    k: u64,
    postings: &[u64],
    first: usize,
    end: u64,
    length: &mut u64,
    packed: &mut [u64],
    scores: &mut [f32],
    visits: &mut [u8],
    counts: Counts,
) -> Result<Counts, Stop>
    ensures { turned result (lends (lent length.new packed.new scores.new) visits.new)
        ≡ held_probe k (through_lent laid.entry.table.now laid.entry.sieve.now laid.entry.query terms.entry) postings.now (from first (min end
        (len postings.now) - first)) counts (lends (lent length.old packed.old scores.old) visits.old) }
{
    let stop = (end as usize).min(postings.len());
    let mut c = counts;
    let mut narrow = true;
    let mut known = first;
    let mut i = first;
    // a step goes on by one posting or by two
    while i < stop {
        if known <= i {
            known = (stop - i).min(AHEAD) + i;
            narrow = look_ahead(terms, visits, &postings[i..known]);
        }
        let s = step_on(
            narrow, laid, terms, k, postings, i, stop, length, packed, scores, visits, c,
        )?;
        c = s.counts;
        i = s.next;
    }
    Ok(c)
}
