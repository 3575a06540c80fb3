// The sparse layout of a list's summaries: the score of each summary for a query. Its check stands in crate search_checks.
#![tactic(auto)]

pub mod summaries;

ghost use Rattle.std.specs.Prelude.{◌≡◌, false, ◌++◌, ◌+◌, ◌≤◌, length, drop, replicate, pos};
ghost use Rattle.std.proofs.Math.Seq.{slice};
ghost use Rattle.std.specs.Float.{fin};
ghost use Rattle.sparse_scores.specs.Layout.{entry, entries, entries_at, place_of};
ghost use Rattle.sparse_scores.specs.Scores.{scores_of, put_in};
ghost use Rattle.documents.specs.Lent.{terms_lent};
ghost use Rattle.sparse_scores.specs.Walk.{grown, grown_by, Spans};
ghost use Rattle.sparse_scores.specs.Lent.{layout_lent};

use documents::Terms;
use number_types::BlockNumber;
use summaries::Summaries;

// Sets the first n scores to +0.
fn clear(n: usize, block_scores: &mut [f32])
    requires { n ≤ length block_scores.old }
    ensures { block_scores.new ≡ replicate n (fin false 0 (pos 0)) ++ drop n block_scores.old }
{
    block_scores[..n].fill(0.0);
}

// The place of c, looked for from the place `at` of the component looked for before; from the start, should the query's components fall.
fn next_place(summary_components: &[u32], at: usize, last: u32, c: u32) -> usize
    requires { at ≡ place_of last summary_components.now }
    ensures { result ≡ place_of c summary_components.now }
{
    if c < last {
        return documents::seek(summary_components, 0, c);
    }
    documents::seek(summary_components, at, c)
}

// Where the entries of a component start and end.
#[derive(Drop)]
struct Range {
    from: usize,
    to: usize,
}

// The range of the entries of the component c, if it stands at a place; else an empty one.
fn range_at(summary_components: &[u32], component_offsets: &[u64], place: usize, c: u32) -> Range
    ensures { Spans summary_components.now component_offsets.now place c result.from result.to }
{
    if summary_components.len() <= place {
        return Range { from: 0, to: 0 };
    }
    if summary_components[place] != c {
        return Range { from: 0, to: 0 };
    }
    let next = place + 1;
    if component_offsets.len() <= next {
        return Range { from: 0, to: 0 };
    }
    Range {
        from: component_offsets[place] as usize,
        to: component_offsets[next] as usize,
    }
}

// The number of a block as an entry holds it.
fn block_of(id: u16) -> BlockNumber
    ensures { result.0 ≡ id }
{
    BlockNumber(id as u64)
}

// Adds an entry's value times the query's to the score of its block's summary, if that is one of the first n.
fn add_entry(
    n: usize,
    minimums: &[f32],
    steps: &[f32],
    value: f32,
    block: BlockNumber,
    code: u8,
    block_scores: &mut [f32],
)
    requires n_in_bounds { n ≤ length minimums.now }
    requires n_in_bounds_2 { n ≤ length steps.now }
    requires n_in_bounds_3 { n ≤ length block_scores.old }
    ensures { block_scores.new ≡ grown n minimums.now steps.now value (entry block.0 code) block_scores.old }
{
    let s = block.0 as usize;
    if s < n {
        block_scores[s] = block_scores[s] + ((code as f32) * steps[s] + minimums[s]) * value;
    }
}

// The same for the entries from `from` to below `to`.
fn add_entries(
    n: usize,
    minimums: &[f32],
    steps: &[f32],
    value: f32,
    from: usize,
    to: usize,
    summary_ids: &[u16],
    codes: &[u8],
    block_scores: &mut [f32],
)
    requires n_in_bounds { n ≤ length minimums.now }
    requires n_in_bounds_2 { n ≤ length steps.now }
    requires n_in_bounds_3 { n ≤ length block_scores.old }
    requires to_in_bounds { to ≤ length summary_ids.now }
    requires to_in_bounds_2 { to ≤ length codes.now }
    ensures { block_scores.new ≡ grown_by n minimums.now steps.now value (slice from to (entries summary_ids.now codes.now))
        block_scores.old }
{
    for i in from..to {
        add_entry(
            n,
            minimums,
            steps,
            value,
            block_of(summary_ids[i]),
            codes[i],
            block_scores,
        );
    }
}

// Adds what one term of the query adds: the values of the entries of its component, which stands at a place if at all, times its value.
fn add_term(
    n: usize,
    place: usize,
    c: u32,
    value: f32,
    summaries: Summaries<'_>,
    block_scores: &mut [f32],
)
    requires n_in_bounds { n ≤ length summaries.minimums.now }
    requires n_in_bounds_2 { n ≤ length summaries.steps.now }
    requires n_in_bounds_3 { n ≤ length block_scores.old }
    ensures { block_scores.new ≡ grown_by n summaries.entry.minimums.now summaries.entry.steps.now value (entries_at (layout_lent
        summaries.entry) place c) block_scores.old }
{
    let range = range_at(
        summaries.summary_components,
        summaries.component_offsets,
        place,
        c,
    );
    let end = range
        .to
        .min(summaries.summary_ids.len().min(summaries.codes.len()));
    add_entries(
        n,
        summaries.minimums,
        summaries.steps,
        value,
        range.from,
        end,
        summaries.summary_ids,
        summaries.codes,
        block_scores,
    );
}

// The score of each summary for a query, into the front of the lent scores: for each of the query's terms, the entries of its component.
// Past the summaries nothing changes. It costs the query's terms, the components and the entries that they meet, whatever the lists hold.
pub fn distances(query: Terms<'_>, summaries: Summaries<'_>, block_scores: &mut [f32])
    ensures { block_scores.new ≡ put_in (scores_of (layout_lent summaries.entry) (terms_lent query.entry)) block_scores.old }
{
    let n = summaries
        .minimums
        .len()
        .min(summaries.steps.len())
        .min(block_scores.len());
    clear(n, block_scores);
    let mut place = 0usize;
    let mut last = 0u32;
    for (c, value) in query.components.iter().zip(query.values) {
        place = next_place(summaries.summary_components, place, last, *c);
        last = *c;
        add_term(n, place, *c, *value, summaries, block_scores);
    }
}
