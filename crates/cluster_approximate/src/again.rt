// The second pass, over the index of the centroids that remain.
ghost use Rattle.std.specs.Prelude.{◌≡◌, false, not, ◌≤◌, pos, length, replicate};
ghost use Rattle.std.specs.Float.{fin};
ghost use Rattle.sequences.specs.Lists.{every};
ghost use Rattle.documents.specs.Lent.{lent};
ghost use Rattle.cluster_meaning.specs.Clusters.{small};
ghost use Rattle.cluster_passes.specs.Passes.{over};
ghost use Rattle.cluster_approximate.specs.Approximate.{both_ranks};

use crate::gathering::gather;
use cluster_approximate_pass::second_pass;
use cluster_index::Index;
use cluster_ranks::{first_of, is_small};
use documents::Documents;
use number_types::CentroidRank;

// Gathers the centroids that remain, fills their index, and takes the documents of dissolved groups again.
fn take_again(
    documents: Documents<'_>,
    ids: &[u64],
    cut: u64,
    minimum: u64,
    centroids: &[u64],
    known: &[u64],
    competing: &mut [u64],
    counts: &[u64],
    starts: &mut [u64],
    slots: &mut [u64],
    weights: &mut [f32],
    sums: &mut [f32],
    keys: &mut [u64],
    taken: &mut [u64],
)
    requires { length centroids.now ≤ length competing.old }
    ensures { taken.new ≡ over (both_ranks (lent documents.entry) cut minimum
        centroids.now known.now counts.now (length starts.old) (length slots.old) (length weights.old)
        (length sums.old) (length keys.old)) ids.now taken.old }
{
    let m = gather(minimum, centroids, known, counts, competing);
    cluster_index::fill(documents, &competing[..m], starts, slots, weights);
    let first = first_of(centroids);
    second_pass(
        documents,
        ids,
        cut,
        minimum,
        first,
        &competing[..m],
        known,
        counts,
        Index {
            starts,
            slots,
            weights,
        },
        sums,
        keys,
        taken,
    );
}

// Whether no group dissolves, by the counts of each rank.
fn none_dissolve(minimum: u64, counts: &[u64]) -> bool
    ensures { result ≡ every (λ n. not (small minimum n)) counts.now }
{
    let mut none = true;
    for i in 0..counts.len() {
        let dissolves = is_small(counts, minimum, CentroidRank(i as u64));
        none = none & !dissolves;
    }
    none
}

// Sets all work space to zero.
fn clear(
    competing: &mut [u64],
    counts: &mut [u64],
    starts: &mut [u64],
    slots: &mut [u64],
    weights: &mut [f32],
    sums: &mut [f32],
    keys: &mut [u64],
)
    ensures competing { competing.new ≡ replicate (length competing.old) 0 }
    ensures counts { counts.new ≡ replicate (length counts.old) 0 }
    ensures starts { starts.new ≡ replicate (length starts.old) 0 }
    ensures slots { slots.new ≡ replicate (length slots.old) 0 }
    ensures weights { weights.new ≡ replicate (length weights.old) (fin false 0 (pos 0)) }
    ensures sums { sums.new ≡ replicate (length sums.old) (fin false 0 (pos 0)) }
    ensures keys { keys.new ≡ replicate (length keys.old) 0 }
{
    clearing::clear(competing);
    clearing::clear(counts);
    clearing::clear(starts);
    clearing::clear(slots);
    clearing::clear(weights);
    clearing::clear(sums);
    clearing::clear(keys);
}

// Takes the documents of dissolved groups again; where no group dissolves there are none, and no index is filled. The work space is all
// zero afterwards.
pub(crate) fn assign_again(
    documents: Documents<'_>,
    ids: &[u64],
    cut: u64,
    minimum: u64,
    centroids: &[u64],
    known: &[u64],
    competing: &mut [u64],
    counts: &mut [u64],
    starts: &mut [u64],
    slots: &mut [u64],
    weights: &mut [f32],
    sums: &mut [f32],
    keys: &mut [u64],
    taken: &mut [u64],
)
    requires { length centroids.now ≤ length competing.old }
    ensures taken { taken.new ≡ over (both_ranks (lent documents.entry) cut minimum
        centroids.now known.now counts.old (length starts.old) (length slots.old) (length weights.old)
        (length sums.old) (length keys.old)) ids.now taken.old }
    ensures competing { competing.new ≡ replicate (length competing.old) 0 }
    ensures counts { counts.new ≡ replicate (length counts.old) 0 }
    ensures starts { starts.new ≡ replicate (length starts.old) 0 }
    ensures slots { slots.new ≡ replicate (length slots.old) 0 }
    ensures weights { weights.new ≡ replicate (length weights.old) (fin false 0 (pos 0)) }
    ensures sums { sums.new ≡ replicate (length sums.old) (fin false 0 (pos 0)) }
    ensures keys { keys.new ≡ replicate (length keys.old) 0 }
{
    if none_dissolve(minimum, counts) {
        clear(competing, counts, starts, slots, weights, sums, keys);
        return;
    }
    take_again(
        documents, ids, cut, minimum, centroids, known, competing, counts, starts, slots, weights,
        sums, keys, taken,
    );
    clear(competing, counts, starts, slots, weights, sums, keys);
}
