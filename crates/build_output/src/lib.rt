// The second pass over a list's blocks: once their entries are counted and the room is judged, the layout, the packed postings and the
// block offsets are written, each in front of its buffer, or all output is cleared.
#![tactic(auto)]

ghost use Rattle.std.specs.Prelude.{◌≡◌, [], map};
ghost use Rattle.std.proofs.lemmas.List.Edits.{sets};
ghost use Rattle.documents.specs.Documents.{documents};
ghost use Rattle.documents.specs.Lent.{lent};
ghost use Rattle.build_meaning.specs.Building.{outputs, zeros, float_zeros};
ghost use Rattle.build_sizes.specs.Sized.{posting_of};
ghost use Rattle.build_output.specs.Placed.{written, second_pass};
ghost use Rattle.build_output.specs.Settled.{left, settled};

use build_block_summary::Blocks;
use build_meaning::BuiltSizes;
use configuration::SummarizationStrategy;
use documents::Documents;
use number_types::DocumentId;
use packing::PackedPosting;
use refusal::Refusal;

// A document's range in one number; 0 for one that cannot be packed.
fn posting(offsets: &[u64], id: DocumentId) -> u64
    ensures { result ≡ posting_of (documents offsets.now [] []) id.0 }
{
    let range = documents::range_of(offsets, id);
    PackedPosting::pack(range.start, range.end).map_or(0, |packed| packed.0)
}

// The packed ranges of the documents, in front of the postings; none past their end.
fn write_postings(offsets: &[u64], order: &[u64], postings: &mut [u64])
    ensures { postings.new ≡ sets postings.old 0 (map (posting_of (documents offsets.now [] [])) order.now) }
{
    let end = order.len().min(postings.len());
    for i in 0..end {
        postings[i] = posting(offsets, DocumentId(order[i]));
    }
}

// The block offsets, in front of their buffer; none past its end.
fn write_offsets(blocks: &[u64], block_offsets: &mut [u64])
    ensures { block_offsets.new ≡ sets block_offsets.old 0 blocks.now }
{
    cells::copy(blocks, block_offsets);
}

// Lays out the components whose counts stand in front of `entry_counts`, places the entries of the blocks' summaries, and writes the postings
// and the block offsets. What finds no place is left out. A block's kept keys are those of its frame in the store; one that has none is
// summarized again. The work space `keys`, `places`, `maxima`, `entry_counts` is zero then. It takes time in proportion to the keys of the
// frames, to the terms of the other blocks' documents and n log n for the n components of each, which are sorted, and to the documents,
// the blocks, the dimension and the work space, which is cleared.
fn place(
    dimension: u64,
    strategy: SummarizationStrategy,
    documents: Documents<'_>,
    listed: Blocks<'_>,
    keys: &mut [u64],
    places: &mut [u64],
    maxima: &mut [f32],
    entry_counts: &mut [u64],
    postings: &mut [u64],
    block_offsets: &mut [u64],
    summary_components: &mut [u32],
    component_offsets: &mut [u64],
    summary_ids: &mut [u16],
    codes: &mut [u8],
    store: &[u64],
)
    ensures output { written postings.new block_offsets.new summary_components.new component_offsets.new
        summary_ids.new codes.new ≡ second_pass dimension strategy (lent documents.entry)
        listed.entry.order.now listed.entry.blocks.now store.now keys.old places.old maxima.old entry_counts.old
        (written postings.old block_offsets.old summary_components.old component_offsets.old
        summary_ids.old codes.old) }
    ensures keys { keys.new ≡ zeros keys.old }
    ensures places { places.new ≡ zeros places.old }
    ensures maxima { maxima.new ≡ float_zeros maxima.old }
    ensures entry_counts { entry_counts.new ≡ zeros entry_counts.old }
{
    let n = (dimension as usize).min(entry_counts.len());
    sparse_layout::lay(
        &mut entry_counts[..n],
        summary_components,
        component_offsets,
    );
    build_fill_pass::fill(
        dimension,
        strategy,
        documents,
        listed,
        keys,
        places,
        maxima,
        &mut entry_counts[..n],
        summary_ids,
        codes,
        store,
    );
    clearing::clear(entry_counts);
    write_postings(documents.offsets, listed.order, postings);
    write_offsets(listed.blocks, block_offsets);
}

// Ends a build whose entries were counted: where the first pass answered that there is room, the second writes the result, each part in
// front of its buffer, and what finds no place is left out; where it refused, all output is cleared. The answer is the first pass's. A
// block's kept keys are those of its frame in the store; one that has none is summarized again. The work space is zero either way. The
// second pass takes time in proportion to the keys of the frames, to the terms of the other blocks' documents and n log n for the n
// components of each, which are sorted, and to the documents, the blocks, the dimension and the work space, which is cleared. After a
// refusal it is the lengths of the output and of the work space.
pub fn settle(
    answer: Result<BuiltSizes, Refusal>,
    dimension: u64,
    strategy: SummarizationStrategy,
    documents: Documents<'_>,
    listed: Blocks<'_>,
    postings: &mut [u64],
    block_offsets: &mut [u64],
    summary_components: &mut [u32],
    component_offsets: &mut [u64],
    summary_ids: &mut [u16],
    codes: &mut [u8],
    minimums: &mut [f32],
    steps: &mut [f32],
    keys: &mut [u64],
    places: &mut [u64],
    maxima: &mut [f32],
    entry_counts: &mut [u64],
    store: &[u64],
) -> Result<BuiltSizes, Refusal>
    ensures { left result (outputs postings.new block_offsets.new summary_components.new component_offsets.new
        summary_ids.new codes.new minimums.new steps.new) keys.new places.new maxima.new
        entry_counts.new ≡ settled answer dimension strategy (lent documents.entry)
        listed.entry.order.now listed.entry.blocks.now store.now (outputs postings.old block_offsets.old summary_components.old
        component_offsets.old summary_ids.old codes.old minimums.old steps.old) keys.old
        places.old maxima.old entry_counts.old }
{
    match answer {
        Err(reason) => {
            build_clearing::clear_output(
                postings,
                block_offsets,
                summary_components,
                component_offsets,
                summary_ids,
                codes,
                minimums,
                steps,
            );
            build_clearing::clear_work(keys, places, maxima, entry_counts);
            Err(reason)
        }
        Ok(sizes) => {
            place(
                dimension,
                strategy,
                documents,
                listed,
                keys,
                places,
                maxima,
                entry_counts,
                postings,
                block_offsets,
                summary_components,
                component_offsets,
                summary_ids,
                codes,
                store,
            );
            Ok(sizes)
        }
    }
}
