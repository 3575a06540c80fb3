// One posting list, built: admitted, blocked, summarized, laid out. Document 01, "Leaves first".
#![tactic(auto)]

ghost use Rattle.std.specs.Prelude.{◌≡◌};
ghost use Rattle.documents.specs.Lent.{lent as lent_documents};
ghost use Rattle.build_meaning.specs.Built.{input};
ghost use Rattle.build_meaning.specs.Building.{outputs, scratches, lent, leaves, builds};

use build_meaning::BuiltSizes;
use configuration::{BlockingStrategy, SummarizationStrategy};
use documents::Documents;
use refusal::Refusal;

// Builds a posting list from the listed documents. The result stands in front of the eight output buffers, past which nothing changes;
// the answer has its sizes. Refused, in this order: 8 (length, dimension), 6, 14 (listed documents and centroids), 1, 2 (listed
// documents), 3 or 5, 8 (blocks), 4 (scratch), 7, 4 (output): all output is zero then. Scratch is zero either way;
// `build_scratch::scratch_needs` says how long it must be.
pub fn build(
    dimension: u64,
    blocking: BlockingStrategy,
    summarization: SummarizationStrategy,
    documents: Documents<'_>,
    ids: &[u64],
    centroids: &[u64],
    postings: &mut [u64],
    block_offsets: &mut [u64],
    summary_components: &mut [u32],
    component_offsets: &mut [u64],
    summary_ids: &mut [u16],
    codes: &mut [u8],
    minimums: &mut [f32],
    steps: &mut [f32],
    order: &mut [u64],
    blocks: &mut [u64],
    sorted: &mut [u64],
    known: &mut [u64],
    taken: &mut [u64],
    counts: &mut [u64],
    starts: &mut [u64],
    slots: &mut [u64],
    weights: &mut [f32],
    sums: &mut [f32],
    keys: &mut [u64],
) -> Result<BuiltSizes, Refusal>
    ensures { leaves result (lent (outputs postings.new block_offsets.new summary_components.new component_offsets.new summary_ids.new
        codes.new minimums.new steps.new) (scratches order.new blocks.new sorted.new known.new taken.new
        counts.new starts.new slots.new weights.new sums.new keys.new))
        ≡ builds (input dimension blocking summarization (lent_documents documents.entry) ids.now centroids.now)
        (lent (outputs postings.old block_offsets.old summary_components.old component_offsets.old summary_ids.old codes.old
        minimums.old steps.old) (scratches order.old blocks.old sorted.old known.old taken.old counts.old
        starts.old slots.old weights.old sums.old keys.old)) }
{
    let made = build_blocks::make(
        dimension, blocking, documents, ids, centroids, order, blocks, sorted, known, taken,
        counts, starts, slots, weights, sums, keys,
    );
    build_result::finish(
        made,
        dimension,
        summarization,
        documents,
        ids.len(),
        postings,
        block_offsets,
        summary_components,
        component_offsets,
        summary_ids,
        codes,
        minimums,
        steps,
        order,
        blocks,
        counts,
        starts,
        sums,
        keys,
        slots,
    )
}
