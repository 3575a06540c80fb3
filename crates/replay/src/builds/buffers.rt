// What a recorded build leaves in the lent buffers, held against the original's answer.
ghost use Rattle.std.specs.Prelude.{◌≡◌};
ghost use Rattle.build_meaning.specs.Building.{outputs, in_numbers};
ghost use Rattle.build_small.specs.Short.{made};
ghost use Rattle.replay.specs.Case.{sizes_held, numbers_held, entries_held, agreed};

use build_meaning::BuiltSizes;
use refusal::Refusal;
use replay_expected::same;
use replay_words::words_of;

// Whether the build was accepted, and as many numbers stand in front of the outputs as the original has.
fn sizes(w: &[u32], answer: Result<BuiltSizes, Refusal>) -> bool
    ensures { result ≡ sizes_held w.now (in_numbers answer) }
{
    let mut postings = 0u64;
    let mut offsets = 0u64;
    let mut components = 0u64;
    let mut entries = 0u64;
    let mut summaries = 0u64;
    let number = c_build::show_built(
        answer,
        &mut postings,
        &mut offsets,
        &mut components,
        &mut entries,
        &mut summaries,
    );
    (number == 0)
        & (postings == words_of(w, 21).len() as u64)
        & (offsets == words_of(w, 22).len() as u64)
        & (components == words_of(w, 23).len() as u64)
        & (entries == words_of(w, 25).len() as u64)
        & (summaries == words_of(w, 27).len() as u64)
}

// Whether the postings, the offsets and the components are the original's.
fn numbers(
    w: &[u32],
    postings: &[u64],
    offsets: &[u64],
    components: &[u32],
    component_offsets: &[u64],
) -> bool
    ensures { result ≡ numbers_held w.now postings.now offsets.now components.now component_offsets.now }
{
    same(postings, words_of(w, 21), 5)
        & same(offsets, words_of(w, 22), 6)
        & same(components, words_of(w, 23), 7)
        & same(component_offsets, words_of(w, 24), 8)
}

// Whether the summaries' entries and their scales are the original's.
fn entries(w: &[u32], ids: &[u16], codes: &[u8], minimums: &[f32], steps: &[f32]) -> bool
    ensures { result ≡ entries_held w.now ids.now codes.now minimums.now steps.now }
{
    same(ids, words_of(w, 25), 9)
        & same(codes, words_of(w, 26), 10)
        & same(minimums, words_of(w, 27), 0xc130_0000)
        & same(steps, words_of(w, 28), 0xc130_0000)
}

// Whether the build was accepted, and the outputs hold the original's results and past them what they held before.
pub(crate) fn agreed(
    w: &[u32],
    answer: Result<BuiltSizes, Refusal>,
    postings: &[u64; 64],
    offsets: &[u64; 64],
    components: &[u32; 32],
    component_offsets: &[u64; 32],
    ids: &[u16; 256],
    codes: &[u8; 256],
    minimums: &[f32; 64],
    steps: &[f32; 64],
) -> bool
    ensures { result ≡ agreed w.now (made answer (outputs postings.now offsets.now components.now component_offsets.now ids.now
        codes.now minimums.now steps.now)) }
{
    sizes(w, answer)
        & numbers(w, postings, offsets, components, component_offsets)
        & entries(w, ids, codes, minimums, steps)
}
