// Two postings at a time: where both are read by the table alone, their pages are read together, and each is then kept as if it had been
// read by itself. Nothing is assumed of the slices.
ghost use Rattle.std.specs.Prelude.{◌≡◌};
ghost use Rattle.kept_list.specs.Lent.{lent};
ghost use Rattle.search_postings.specs.Postings.{lends};
ghost use Rattle.search_postings.specs.Pairs.{read_both, went_on, held_known, both_turned, held_two};

use crate::Counts;
use documents::Terms;
use packing::PackedPosting;
use search_page::Scores;

// The scores of two postings that are wanted together. There are none where one of the starts was visited, where a range reaches past
// the terms, or where a page is not read by the table.
fn read_both(
    wanted: bool,
    table: &[f32; 32768],
    terms: Terms<'_>,
    visits: &[u8],
    one: PackedPosting,
    two: PackedPosting,
) -> Option<Scores>
    ensures { result ≡ read_both wanted table.now terms.entry.components.now terms.entry.values.now visits.now one.0 two.0 }
{
    if !wanted {
        return None;
    }
    let a = one.unpack();
    let b = two.unpack();
    if search_steps::is_visited(visits, a.start) | search_steps::is_visited(visits, b.start) {
        return None;
    }
    let a_from = a.start.0 as usize;
    let a_to = a.end as usize;
    let b_from = b.start.0 as usize;
    let b_to = b.end as usize;
    let n = documents::term_count(terms.components, terms.values);
    if (n < a_to) | (n < b_to) {
        return None;
    }
    search_page::read_two(
        table,
        &terms.components[a_from..a_to],
        &terms.values[a_from..a_to],
        &terms.components[b_from..b_to],
        &terms.values[b_from..b_to],
    )
}

// One posting whose score is known: passed over where its start was visited, else kept if it is among the k best, marked and counted.
fn evaluate_known(
    k: u64,
    posting: PackedPosting,
    score: f32,
    length: &mut u64,
    packed: &mut [u64],
    scores: &mut [f32],
    visits: &mut [u8],
    counts: Counts,
) -> Counts
    ensures { went_on result (lends (lent length.new packed.new scores.new) visits.new)
        ≡ held_known k posting.0 score counts (lends (lent length.old packed.old scores.old) visits.old) }
{
    let start = posting.unpack().start;
    if search_steps::is_visited(visits, start) {
        return counts;
    }
    search_held::keep_found(k, posting, start, score, length, packed, scores, visits);
    Counts {
        evaluated: search_steps::one_more(counts.evaluated),
        skipped: counts.skipped,
    }
}

// Two postings one after the other, and the counts after both, where they are wanted together and can be read so; else nothing changes,
// and they are to be taken one by one.
pub(crate) fn evaluate_two(
    wanted: bool,
    table: &[f32; 32768],
    terms: Terms<'_>,
    k: u64,
    one: PackedPosting,
    two: PackedPosting,
    length: &mut u64,
    packed: &mut [u64],
    scores: &mut [f32],
    visits: &mut [u8],
    counts: Counts,
) -> Option<Counts>
    ensures { both_turned result (lends (lent length.new packed.new scores.new) visits.new)
        ≡ held_two k (read_both wanted table.now terms.entry.components.now terms.entry.values.now visits.old one.0 two.0) one.0 two.0 counts
        (lends (lent length.old packed.old scores.old) visits.old) }
{
    let s = read_both(wanted, table, terms, visits, one, two)?;
    let c = evaluate_known(k, one, s.one, length, packed, scores, visits, counts);
    let d = evaluate_known(k, two, s.two, length, packed, scores, visits, c);
    Some(d)
}
