// Clusters of a posting list's documents around given centroids: document 01, "Clusters".
#![tactic(auto)]

ghost use Rattle.std.specs.Prelude.{◌≡◌, ◌≤◌, length, take};
ghost use Rattle.documents.specs.Lent.{lent};
ghost use Rattle.clearing.specs.Zeros.{zeros};
ghost use Rattle.counting_sort.specs.Counting.{grouped};
ghost use Rattle.scratch.specs.Scratches.{scratches};
ghost use Rattle.clustering.specs.Clustered.{some_groups, groups_in, clustered_in};

use configuration::ClusteringAlgorithm;
use documents::Documents;

// The groups of as many documents as there are, and how many offsets they have: one more than groups. Of no documents there is no
// offset, and nothing changes.
fn group_some(
    n: usize,
    sorted: &[u64],
    taken: &[u64],
    counts: &mut [u64],
    order: &mut [u64],
    blocks: &mut [u64],
) -> u64
    requires { (n ≤ length sorted.now) × (n ≤ length taken.now) }
    ensures { grouped result counts.new order.new blocks.new
        ≡ some_groups (take n taken.now) (take n sorted.now) counts.old order.old blocks.old }
{
    if n == 0 {
        return 0;
    }
    let count = counting_sort::group(&taken[..n], &sorted[..n], counts, order, blocks);
    count + 1
}

// The same, and then what it needed is zero.
fn group_and_clear(
    n: usize,
    sorted: &mut [u64],
    taken: &mut [u64],
    counts: &mut [u64],
    order: &mut [u64],
    blocks: &mut [u64],
) -> u64
    requires { (n ≤ length sorted.old) × (n ≤ length taken.old) }
    ensures answer { result ≡ (some_groups (take n taken.old) (take n sorted.old) counts.old order.old blocks.old).count }
    ensures order { order.new ≡ (some_groups (take n taken.old) (take n sorted.old) counts.old order.old blocks.old).order }
    ensures blocks { blocks.new ≡ (some_groups (take n taken.old) (take n sorted.old) counts.old order.old blocks.old).blocks }
    ensures sorted { sorted.new ≡ zeros sorted.old }
    ensures taken { taken.new ≡ zeros taken.old }
    ensures counts { counts.new ≡ zeros counts.old }
{
    let count = group_some(n, sorted, taken, counts, order, blocks);
    clearing::clear(sorted);
    clearing::clear(taken);
    clearing::clear(counts);
    count
}

// Clusters the listed documents in the chosen mode: leaves the blocks' documents one after another in `order`, with zeros after them,
// and the blocks' offsets in `blocks`, from its start on; what lies past them stays. Answers how many offsets there are: one more than
// blocks, and none for an empty list. The other slices are scratch, all zero afterwards. Documents count that find a place in `sorted` and
// in `taken`, and centroids that find one in `known` and in `order`; nothing is asked of the terms. It takes time in proportion to the
// slices that it clears and to the terms of the listed documents and centroids; for n ids and m centroids to n log n and m log m for
// their sorts, and to n log m for the ranks; then in the exact mode to n times m and to the entries of the centroids' index that the
// documents' terms meet, and in the approximate mode to the sort of each document's terms and to the entries that the terms of its cut
// meet.
pub fn cluster(
    algorithm: ClusteringAlgorithm,
    minimum: u64,
    documents: Documents<'_>,
    ids: &[u64],
    centroids: &[u64],
    order: &mut [u64],
    blocks: &mut [u64],
    sorted: &mut [u64],
    known: &mut [u64],
    taken: &mut [u64],
    counts: &mut [u64],
    starts: &mut [u64],
    slots: &mut [u64],
    weights: &mut [f32],
    sums: &mut [f32],
    keys: &mut [u64],
) -> u64
    ensures answer { result ≡ (groups_in algorithm (lent documents.entry) minimum ids.now centroids.now
        (scratches order.old blocks.old sorted.old known.old taken.old counts.old
        starts.old slots.old weights.old sums.old keys.old)).count }
    ensures scratch { scratches order.new blocks.new sorted.new known.new taken.new counts.new
        starts.new slots.new weights.new sums.new keys.new
        ≡ clustered_in algorithm (lent documents.entry) minimum ids.now centroids.now
        (scratches order.old blocks.old sorted.old known.old taken.old counts.old
        starts.old slots.old weights.old sums.old keys.old) }
{
    let places = sorted.len().min(taken.len());
    let n = ids.len().min(places);
    cluster_ranks::sort_into(&ids[..n], sorted);
    cluster_by_mode::assign(
        algorithm,
        minimum,
        documents,
        &sorted[..n],
        centroids,
        known,
        order,
        counts,
        starts,
        slots,
        weights,
        sums,
        keys,
        taken,
    );
    group_and_clear(n, sorted, taken, counts, order, blocks)
}
