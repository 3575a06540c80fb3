// What is done before a list's blocks are made: the input and the scratch are judged, and all scratch is set to zero.
#![tactic(auto)]

ghost use Rattle.std.specs.Prelude.{◌≡◌, not, [], ◌∷◌, ◌++◌};
ghost use Rattle.refusal.specs.declared.Refusal.TheVariants.{BufferTooShort};
ghost use Rattle.refusal.specs.First.{◌gives◌, first_of};
ghost use Rattle.documents.specs.Lent.{lent as lent_documents};
ghost use Rattle.build_admission.specs.Admission.{input_tests};
ghost use Rattle.build_meaning.specs.Needs.{sizes_for, scratch_needs, scratch_suffices};
ghost use Rattle.build_meaning.specs.Building.{scratches, cleared_scratch};
ghost use Rattle.build_scratch.specs.Lengths.{shown};
ghost use Rattle.build_ready.specs.Made.{make_tests};

use configuration::BlockingStrategy;
use documents::Documents;
use refusal::Refusal;
use scratch::ScratchLengths;

// The first refusal of what looks at the input alone, and then 4 where the scratch buffers of these lengths are too short.
fn judge(
    dimension: u64,
    blocking: BlockingStrategy,
    documents: Documents<'_>,
    ids: &[u64],
    centroids: &[u64],
    lent: ScratchLengths,
) -> Result<(), Refusal>
    ensures { result ≡ first_of (input_tests dimension blocking (lent_documents documents.entry) ids.now centroids.now
        ++ ((not (scratch_suffices (shown (scratch_needs (sizes_for dimension blocking (lent_documents documents.entry) ids.now
        centroids.now))) lent) gives BufferTooShort) ∷ [])) }
{
    build_admission::admitted(dimension, blocking, documents, ids, centroids)?;
    let needed = build_scratch::scratch_needs(dimension, blocking, documents, ids, centroids);
    if !build_scratch::suffices(needed, lent) {
        return Err(Refusal::BufferTooShort);
    }
    Ok(())
}

// Judges what a build is given and how long its scratch is, as far as that can be seen before there are blocks, and sets all scratch to
// zero, refused or not.
pub fn ready(
    dimension: u64,
    blocking: BlockingStrategy,
    documents: Documents<'_>,
    ids: &[u64],
    centroids: &[u64],
    order: &mut [u64],
    blocks: &mut [u64],
    sorted: &mut [u64],
    known: &mut [u64],
    taken: &mut [u64],
    counts: &mut [u64],
    starts: &mut [u64],
    slots: &mut [u64],
    weights: &mut [f32],
    sums: &mut [f32],
    keys: &mut [u64],
) -> Result<(), Refusal>
    ensures answer { result ≡ first_of (make_tests dimension blocking (lent_documents documents.entry) ids.now centroids.now
        (scratches order.old blocks.old sorted.old known.old taken.old counts.old
        starts.old slots.old weights.old sums.old keys.old)) }
    ensures scratch { scratches order.new blocks.new sorted.new known.new taken.new counts.new
        starts.new slots.new weights.new sums.new keys.new
        ≡ cleared_scratch (scratches order.old blocks.old sorted.old known.old taken.old counts.old
        starts.old slots.old weights.old sums.old keys.old) }
{
    let lent = ScratchLengths {
        order: order.len() as u64,
        blocks: blocks.len() as u64,
        sorted: sorted.len() as u64,
        known: known.len() as u64,
        taken: taken.len() as u64,
        counts: counts.len() as u64,
        starts: starts.len() as u64,
        slots: slots.len() as u64,
        weights: weights.len() as u64,
        sums: sums.len() as u64,
        keys: keys.len() as u64,
    };
    let verdict = judge(dimension, blocking, documents, ids, centroids, lent);
    build_clearing::clear_scratch(
        order, blocks, sorted, known, taken, counts, starts, slots, weights, sums, keys,
    );
    verdict
}
