// The C functions of Merinocloud: the proved functions over numbers and slices, for a host in Rust or C.
// A slice crosses as a pointer and a length, a lent number as a pointer. Each function answers 0 where the call is accepted,
// and else the number of its refusal.
#![tactic(auto)]

mod build;

ghost use Rattle.std.specs.Prelude.{◌≡◌};
ghost use Rattle.kept_list.specs.Entry.{scored};
ghost use Rattle.kept_list.specs.Lent.{lent};
ghost use Rattle.kept_list.specs.Push.{pushed};
ghost use Rattle.sparse_scores.specs.Layout.{arrays};
ghost use Rattle.search_probe.specs.Probed.{terms, lends};
ghost use Rattle.search.specs.Searched.{question};
ghost use Rattle.c_search.specs.Found.{shown, seen};
ghost use Rattle.merino.specs.Pushed.{crossed, seen as seen_pushed};

use documents::Terms;
use kept_list::Scored;
use sparse_scores::summaries::Summaries;

// Pushes an entry onto the kept list of `length` entries in `packed` and `scores`: kept_push::push.
#[unsafe(no_mangle)]
pub extern "C" fn merino_push(
    k: u64,
    length: &mut u64,
    packed: &mut [u64],
    scores: &mut [f32],
    new_packed: u64,
    new_score: f32,
) -> u64
    ensures { crossed result (lent length.new packed.new scores.new)
        ≡ seen_pushed (pushed k (scored new_packed new_score) (lent length.old packed.old scores.old)) }
{
    let verdict = kept_push::push(
        k,
        length,
        packed,
        scores,
        Scored::new(new_packed, new_score),
    );
    refusal::verdict_number(verdict)
}

// Searches a posting list: search::search where `by_score` is 0, search::sort_and_search where it is 1; any other number does as 1, and is
// reserved. `position` is left with the posting at which 13 or 14 stopped the search, `evaluated` and `skipped` with the counts of a
// search that was not stopped; else they are 0.
#[unsafe(no_mangle)]
pub extern "C" fn merino_search(
    by_score: u64,
    query_components: &[u32],
    query_values: &[f32],
    k: u64,
    factor: f32,
    components: &[u32],
    values: &[f32],
    postings: &[u64],
    block_offsets: &[u64],
    summary_components: &[u32],
    component_offsets: &[u64],
    summary_ids: &[u16],
    codes: &[u8],
    minimums: &[f32],
    steps: &[f32],
    length: &mut u64,
    packed: &mut [u64],
    scores: &mut [f32],
    visits: &mut [u8],
    block_scores: &mut [f32],
    block_order: &mut [u64],
    position: &mut u64,
    evaluated: &mut u64,
    skipped: &mut u64,
) -> u64
    ensures { shown result position.new evaluated.new skipped.new (lends (lent length.new packed.new
        scores.new) visits.new) block_scores.new block_order.new
        ≡ seen by_score (question k factor (terms query_components.now query_values.now components.now values.now)
        postings.now block_offsets.now (arrays summary_components.now component_offsets.now summary_ids.now
        codes.now minimums.now steps.now)) (lends (lent length.old packed.old scores.old)
        visits.old) block_scores.old block_order.old }
{
    c_search::find(
        by_score,
        Terms {
            components: query_components,
            values: query_values,
        },
        k,
        factor,
        Terms { components, values },
        postings,
        block_offsets,
        Summaries {
            summary_components,
            component_offsets,
            summary_ids,
            codes,
            minimums,
            steps,
        },
        length,
        packed,
        scores,
        visits,
        block_scores,
        block_order,
        position,
        evaluated,
        skipped,
    )
}
