// A short list built with scratch of its own: what a small program calls that has no buffers to lend.
#![tactic(auto)]

ghost use Rattle.std.specs.Prelude.{◌≡◌};
ghost use Rattle.documents.specs.Lent.{lent};
ghost use Rattle.build_meaning.specs.Built.{input};
ghost use Rattle.build_meaning.specs.Building.{outputs};
ghost use Rattle.build_small.specs.Short.{made, made_short};

use build_meaning::BuiltSizes;
use configuration::{BlockingStrategy, SummarizationStrategy};
use documents::Documents;
use refusal::Refusal;

// posting_list::build with 512 places for the terms of the centroids (slots and weights) and 64 in every other scratch buffer, so that a
// list which needs more is refused with 4. The result stands in front of the eight output buffers; refused, they are zero.
pub fn build(
    dimension: u64,
    blocking: BlockingStrategy,
    summarization: SummarizationStrategy,
    documents: Documents<'_>,
    ids: &[u64],
    centroids: &[u64],
    postings: &mut [u64],
    block_offsets: &mut [u64],
    summary_components: &mut [u32],
    component_offsets: &mut [u64],
    summary_ids: &mut [u16],
    codes: &mut [u8],
    minimums: &mut [f32],
    steps: &mut [f32],
) -> Result<BuiltSizes, Refusal>
    ensures { made result (outputs postings.new block_offsets.new summary_components.new component_offsets.new summary_ids.new
        codes.new minimums.new steps.new)
        ≡ made_short (input dimension blocking summarization (lent documents.entry) ids.now centroids.now)
        (outputs postings.old block_offsets.old summary_components.old component_offsets.old summary_ids.old codes.old
        minimums.old steps.old) }
{
    let mut order = [0u64; 64];
    let mut blocks = [0u64; 64];
    let mut sorted = [0u64; 64];
    let mut known = [0u64; 64];
    let mut taken = [0u64; 64];
    let mut counts = [0u64; 64];
    let mut starts = [0u64; 64];
    let mut slots = [0u64; 512];
    let mut weights = [0.0f32; 512];
    let mut scores = [0.0f32; 64];
    let mut keys = [0u64; 64];
    posting_list::build(
        dimension,
        blocking,
        summarization,
        documents,
        ids,
        centroids,
        postings,
        block_offsets,
        summary_components,
        component_offsets,
        summary_ids,
        codes,
        minimums,
        steps,
        &mut order,
        &mut blocks,
        &mut sorted,
        &mut known,
        &mut taken,
        &mut counts,
        &mut starts,
        &mut slots,
        &mut weights,
        &mut scores,
        &mut keys,
    )
}
