// Building, as recorded. The words of a case: 1: dimension; 2, 3: blocking; 4, 5: block size; 6: fraction; 7, 8: least size of a cluster;
// 9, 10: cut; 11, 12: summarization; 13, 14: components of a summary; 15: energy; from 16 on where the slices start: offsets, components,
// values, ids, centroids, and the original's postings, block offsets, components, component offsets, ids, codes, minimums and steps.
mod buffers;

ghost use Rattle.std.specs.Prelude.{◌≡◌, slice_index};
ghost use Rattle.float32.specs.Key.{value_of};
ghost use Rattle.documents.specs.Documents.{documents};
ghost use Rattle.build_meaning.specs.Built.{input};
ghost use Rattle.build_small.specs.Short.{made_short};
ghost use Rattle.replay_words.specs.Words.{slice_at};
ghost use Rattle.replay.specs.Case.{blocking_in, summarization_in, odd_key, used, agreed, agrees};

use configuration::{BlockingStrategy, SummarizationStrategy};
use documents::Documents;
use replay_words::{float, long, word};

// How the recorded build cuts its list into blocks.
fn blocking_in(w: &[u32]) -> BlockingStrategy
    ensures { result ≡ blocking_in w.now }
{
    c_build::blocking_of(long(w, 2), long(w, 4), float(w, 6), long(w, 7), long(w, 9))
}

// Which terms its summaries keep.
fn summarization_in(w: &[u32]) -> SummarizationStrategy
    ensures { result ≡ summarization_in w.now }
{
    c_build::summarization_of(long(w, 11), long(w, 13), float(w, 15))
}

// The build itself, in buffers that hold other numbers before: whether it is accepted, its results are the original's, and past these
// nothing changes. That all scratch is 0 after a build is proved of posting_list::build, for all input.
fn builds_with(
    w: &[u32],
    dimension: u64,
    blocking: BlockingStrategy,
    summarization: SummarizationStrategy,
    odd: f32,
    offsets: &[u64],
    components: &[u32],
    values: &[f32],
    ids: &[u64],
    centroids: &[u64],
) -> bool
    ensures { result ≡ agreed w.now (made_short (input dimension blocking summarization (documents offsets.now components.now values.now)
        ids.now centroids.now) (used odd)) }
{
    let mut postings = [5u64; 64];
    let mut block_offsets = [6u64; 64];
    let mut summary_components = [7u32; 32];
    let mut component_offsets = [8u64; 32];
    let mut summary_ids = [9u16; 256];
    let mut codes = [10u8; 256];
    let mut minimums = [odd; 64];
    let mut steps = [odd; 64];
    let answer = build_small::build(
        dimension,
        blocking,
        summarization,
        Documents {
            offsets,
            components,
            values,
        },
        ids,
        centroids,
        &mut postings,
        &mut block_offsets,
        &mut summary_components,
        &mut component_offsets,
        &mut summary_ids,
        &mut codes,
        &mut minimums,
        &mut steps,
    );
    buffers::agreed(
        w,
        answer,
        &postings,
        &block_offsets,
        &summary_components,
        &component_offsets,
        &summary_ids,
        &codes,
        &minimums,
        &steps,
    )
}

// The build of the slices that stand in the words.
fn builds_from(w: &[u32], longs: &[u64], floats: &[f32]) -> bool
    ensures { result ≡ agreed w.now (made_short (input (slice_index w.now 1) (blocking_in w.now) (summarization_in w.now)
        (documents (slice_at w.now 16 longs.now) (slice_at w.now 17 w.now) (slice_at w.now 18 floats.now)) (slice_at w.now 19
        longs.now) (slice_at w.now 20 longs.now)) (used (value_of odd_key))) }
{
    builds_with(
        w,
        word(w, 1) as u64,
        blocking_in(w),
        summarization_in(w),
        float32::value_of_key(0xc130_0000),
        replay_words::slice_of(w, 16, longs),
        replay_words::words_of(w, 17),
        replay_words::slice_of(w, 18, floats),
        replay_words::slice_of(w, 19, longs),
        replay_words::slice_of(w, 20, longs),
    )
}

// Whether a recorded build is what a build means: accepted, with the original's results, and nothing changed past them.
pub(crate) fn builds_agree(w: &[u32]) -> bool
    ensures { result ≡ agrees w.now }
{
    let mut longs = [0u64; 1024];
    let mut floats = [0.0f32; 1024];
    replay_words::fill(w, &mut longs);
    replay_words::fill(w, &mut floats);
    builds_from(w, &longs, &floats)
}
