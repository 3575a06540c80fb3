// Searching, as recorded. The words of a case: 1: by score; 2: k; 3: the factor; 4: how many are kept; 5: how many afterwards;
// 6: evaluated; 7: skipped; from 8 on where the slices start: the twelve that are read, the kept packed numbers, scores and visits before,
// and afterwards these three, the dots and the order.
#![tactic(auto)]

ghost use Rattle.std.specs.Prelude.{◌≡◌, get_or, replicate};
ghost use Rattle.kept_list.specs.Lent.{lent};
ghost use Rattle.sparse_scores.specs.Layout.{arrays};
ghost use Rattle.search_probe.specs.Probed.{terms, lends};
ghost use Rattle.search.specs.Searched.{question};
ghost use Rattle.c_search.specs.Found.{seen};
ghost use Rattle.replay_search.specs.Case.{question_from, lent_in, counts_held, buffers_held, found_as, found_from, searches_agree};

use documents::Terms;
use replay_expected::same;
use replay_words::{slice_of, word, words_of};
use sparse_scores::summaries::Summaries;

// Whether a search is accepted and counts as recorded.
fn counts(w: &[u32], number: u64, length: u64, evaluated: u64, skipped: u64) -> bool
    ensures { result ≡ counts_held w.now number length evaluated skipped }
{
    (number == 0)
        & (length == word(w, 5) as u64)
        & (evaluated == word(w, 6) as u64)
        & (skipped == word(w, 7) as u64)
}

// Whether the buffers that are written hold what was recorded, and past it what they held before.
fn holds(
    w: &[u32],
    packed: &[u64],
    scores: &[f32],
    visits: &[u8],
    block_scores: &[f32],
    block_order: &[u64],
) -> bool
    ensures { result ≡ buffers_held w.now packed.now scores.now visits.now block_scores.now block_order.now }
{
    same(packed, words_of(w, 23), 0)
        & same(scores, words_of(w, 24), 0xffff_ffff)
        & same(visits, words_of(w, 25), 0)
        & same(block_scores, words_of(w, 26), 0xffff_ffff)
        & same(block_order, words_of(w, 27), 6)
}

// The search itself, with the kept list and the visits as they were before, and other numbers in the buffers for dots and order.
fn searches_with(
    w: &[u32],
    by_score: u64,
    query_components: &[u32],
    query_values: &[f32],
    k: u64,
    factor: f32,
    components: &[u32],
    values: &[f32],
    postings: &[u64],
    block_offsets: &[u64],
    summary_components: &[u32],
    component_offsets: &[u64],
    summary_ids: &[u16],
    codes: &[u8],
    minimums: &[f32],
    steps: &[f32],
    odd: f32,
    kept: u64,
    packed: &mut [u64],
    scores: &mut [f32],
    visits: &mut [u8],
) -> bool
    ensures { result ≡ found_as w.now (seen by_score (question k factor (terms query_components.now query_values.now components.now
        values.now) postings.now block_offsets.now (arrays summary_components.now component_offsets.now summary_ids.now
        codes.now minimums.now steps.now))
        (lends (lent kept packed.old scores.old) visits.old) (replicate 32 odd) (replicate 32 6)) }
{
    let mut length = kept;
    let mut block_scores = [odd; 32];
    let mut block_order = [6u64; 32];
    let mut position = 0;
    let mut evaluated = 0;
    let mut skipped = 0;
    let number = c_search::find(
        by_score,
        Terms {
            components: query_components,
            values: query_values,
        },
        k,
        factor,
        Terms { components, values },
        postings,
        block_offsets,
        Summaries {
            summary_components,
            component_offsets,
            summary_ids,
            codes,
            minimums,
            steps,
        },
        &mut length,
        packed,
        scores,
        visits,
        &mut block_scores,
        &mut block_order,
        &mut position,
        &mut evaluated,
        &mut skipped,
    );
    counts(w, number, length, evaluated, skipped)
        & holds(w, packed, scores, visits, &block_scores, &block_order)
}

// The search of the slices that stand in the words.
fn searches_from(
    w: &[u32],
    longs: &[u64],
    floats: &[f32],
    shorts: &[u16],
    bytes: &[u8],
    packed: &mut [u64],
    scores: &mut [f32],
    visits: &mut [u8],
) -> bool
    ensures { result ≡ found_from w.now (question_from w.now longs.now floats.now shorts.now bytes.now)
        (lends (lent (get_or w.now 4 0) packed.old scores.old) visits.old) }
{
    searches_with(
        w,
        word(w, 1) as u64,
        words_of(w, 8),
        slice_of(w, 9, floats),
        word(w, 2) as u64,
        replay_words::float(w, 3),
        words_of(w, 10),
        slice_of(w, 11, floats),
        slice_of(w, 12, longs),
        slice_of(w, 13, longs),
        words_of(w, 14),
        slice_of(w, 15, longs),
        slice_of(w, 16, shorts),
        slice_of(w, 17, bytes),
        slice_of(w, 18, floats),
        slice_of(w, 19, floats),
        float32::value_of_key(0xffff_ffff),
        word(w, 4) as u64,
        packed,
        scores,
        visits,
    )
}

// The search that goes on from the kept list and the visits that stand in the words.
fn searches_on(w: &[u32], longs: &[u64], floats: &[f32], shorts: &[u16], bytes: &[u8]) -> bool
    ensures { result ≡ found_from w.now (question_from w.now longs.now floats.now shorts.now bytes.now) (lent_in w.now) }
{
    let mut packed = [0u64; 8];
    let mut scores = [0.0f32; 8];
    let mut visits = [0u8; 256];
    replay_words::fill(words_of(w, 20), &mut packed);
    replay_words::fill(words_of(w, 21), &mut scores);
    replay_words::fill(words_of(w, 22), &mut visits);
    searches_from(
        w,
        longs,
        floats,
        shorts,
        bytes,
        &mut packed,
        &mut scores,
        &mut visits,
    )
}

// Whether a recorded search is what a search means: accepted, with the recorded counts and results, and nothing changed past them.
pub fn searches_agree(w: &[u32]) -> bool
    ensures { result ≡ searches_agree w.now }
{
    let mut longs = [0u64; 1024];
    let mut floats = [0.0f32; 1024];
    let mut shorts = [0u16; 1024];
    let mut bytes = [0u8; 1024];
    replay_words::fill(w, &mut longs);
    replay_words::fill(w, &mut floats);
    replay_words::fill(w, &mut shorts);
    replay_words::fill(w, &mut bytes);
    searches_on(w, &longs, &floats, &shorts, &bytes)
}
