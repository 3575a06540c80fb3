// The C function that builds a posting list.
ghost use Rattle.std.specs.Prelude.{◌≡◌};
ghost use Rattle.documents.specs.Documents.{documents};
ghost use Rattle.build_meaning.specs.Built.{input};
ghost use Rattle.build_meaning.specs.Building.{outputs, scratches, lent, builds};
ghost use Rattle.c_build.specs.Chosen.{blocking_of, summarization_of};
ghost use Rattle.c_build.specs.Shown.{shown_built, seen_built};

use documents::Documents;

// Builds a posting list: posting_list::build with the strategies that the numbers choose. The last five are left with the sizes of
// the list, and with 0 where the build is refused.
#[unsafe(no_mangle)]
pub extern "C" fn merino_build(
    dimension: u64,
    blocking: u64,
    block_size: u64,
    centroid_fraction: f32,
    min_cluster_size: u64,
    doc_cut: u64,
    summarization: u64,
    n_components: u64,
    summary_energy: f32,
    offsets: &[u64],
    components: &[u32],
    values: &[f32],
    ids: &[u64],
    centroids: &[u64],
    postings: &mut [u64],
    block_offsets: &mut [u64],
    summary_components: &mut [u32],
    component_offsets: &mut [u64],
    summary_ids: &mut [u16],
    codes: &mut [u8],
    minimums: &mut [f32],
    steps: &mut [f32],
    order: &mut [u64],
    blocks: &mut [u64],
    sorted: &mut [u64],
    known: &mut [u64],
    taken: &mut [u64],
    counts: &mut [u64],
    starts: &mut [u64],
    slots: &mut [u64],
    weights: &mut [f32],
    sums: &mut [f32],
    keys: &mut [u64],
    postings_written: &mut u64,
    block_offsets_written: &mut u64,
    summary_components_written: &mut u64,
    entries_written: &mut u64,
    summaries_written: &mut u64,
) -> u64
    ensures { shown_built result postings_written.new block_offsets_written.new summary_components_written.new entries_written.new
        summaries_written.new
        (lent (outputs postings.new block_offsets.new summary_components.new component_offsets.new summary_ids.new codes.new
        minimums.new steps.new) (scratches order.new blocks.new sorted.new known.new taken.new counts.new
        starts.new slots.new weights.new sums.new keys.new))
        ≡ seen_built (builds (input dimension (blocking_of blocking block_size centroid_fraction min_cluster_size doc_cut) (summarization_of summarization n_components summary_energy)
        (documents offsets.now components.now values.now) ids.now centroids.now)
        (lent (outputs postings.old block_offsets.old summary_components.old component_offsets.old summary_ids.old codes.old
        minimums.old steps.old) (scratches order.old blocks.old sorted.old known.old taken.old counts.old
        starts.old slots.old weights.old sums.old keys.old))) }
{
    let cut = c_build::blocking_of(
        blocking,
        block_size,
        centroid_fraction,
        min_cluster_size,
        doc_cut,
    );
    let kept = c_build::summarization_of(summarization, n_components, summary_energy);
    let answer = posting_list::build(
        dimension,
        cut,
        kept,
        Documents {
            offsets,
            components,
            values,
        },
        ids,
        centroids,
        postings,
        block_offsets,
        summary_components,
        component_offsets,
        summary_ids,
        codes,
        minimums,
        steps,
        order,
        blocks,
        sorted,
        known,
        taken,
        counts,
        starts,
        slots,
        weights,
        sums,
        keys,
    );
    c_build::show_built(
        answer,
        postings_written,
        block_offsets_written,
        summary_components_written,
        entries_written,
        summaries_written,
    )
}
