// The blocks of a posting list that is to be built, made in lent scratch: by a fixed size, or by clusters around given centroids.
#![tactic(auto)]

ghost use Rattle.std.specs.Prelude.{◌≡◌, ◌≤◌, length};
ghost use Rattle.refusal.specs.First.{first_of};
ghost use Rattle.documents.specs.Lent.{lent};
ghost use Rattle.blocking.specs.Blocking.{fixed_offsets};
ghost use Rattle.cluster_meaning.specs.Clusters.{assigned_by, clusters};
ghost use Rattle.build_meaning.specs.Built.{in_clusters, blocked_by};
ghost use Rattle.build_meaning.specs.Building.{scratches, laid};
ghost use Rattle.build_ready.specs.Made.{make_tests, left, holding, left_by};
ghost use Rattle.build_blocks.specs.Fits.{CutFits, GroupFits};
ghost use Rattle.build_blocks.specs.Longest.{longest_of};

use configuration::{BlockingStrategy, ClusteringAlgorithm};
use documents::Documents;
use number_types::DocumentId;
use refusal::Refusal;

// Copies the ids to the front of the order.
fn copy(ids: &[u64], order: &mut [u64])
    requires { length ids.now ≤ length order.old }
    ensures { order.new ≡ laid ids.now order.old }
{
    cells::copy(ids, order);
}

// Blocks of a fixed size: the documents stay as they are listed.
fn cut(block_size: u64, ids: &[u64], order: &mut [u64], blocks: &mut [u64]) -> u64
    requires { CutFits block_size (length ids.now) (length order.old) (length blocks.old) }
    ensures answer { result ≡ length (fixed_offsets (length ids.now) block_size) }
    ensures order { order.new ≡ laid ids.now order.old }
    ensures blocks { blocks.new ≡ laid (fixed_offsets (length ids.now) block_size) blocks.old }
{
    copy(ids, order);
    blocking::fixed_size_blocking(ids.len() as u64, block_size, blocks).unwrap()
}

// How many terms the longest of the listed documents has. One step for each id.
fn longest(documents: Documents<'_>, ids: &[u64]) -> u64
    ensures { result ≡ longest_of (lent documents.entry) ids.now }
{
    let mut most = 0u64;
    for id in ids {
        let p = cluster_index::places_of(documents, DocumentId(*id));
        most = most.max((p.to - p.from) as u64);
    }
    most
}

// Blocks by clusters. Of `counts` and `sums` clustering is lent a place for each centroid, and of `keys` one for each term of the longest
// document, so that it clears no more than these; the rest is zero and stays so.
fn by_clusters(
    algorithm: ClusteringAlgorithm,
    minimum: u64,
    documents: Documents<'_>,
    ids: &[u64],
    centroids: &[u64],
    order: &mut [u64],
    blocks: &mut [u64],
    sorted: &mut [u64],
    known: &mut [u64],
    taken: &mut [u64],
    counts: &mut [u64],
    starts: &mut [u64],
    slots: &mut [u64],
    weights: &mut [f32],
    sums: &mut [f32],
    keys: &mut [u64],
) -> u64
    requires { GroupFits (scratches order.old blocks.old sorted.old known.old taken.old counts.old
        starts.old slots.old weights.old sums.old keys.old) (lent documents) ids.now centroids.now }
    ensures answer { result ≡ length (in_clusters (clusters (assigned_by algorithm (lent documents.entry) minimum
        centroids.now ids.now))).block_offsets }
    ensures scratch { scratches order.new blocks.new sorted.new known.new taken.new counts.new
        starts.new slots.new weights.new sums.new keys.new
        ≡ holding (in_clusters (clusters (assigned_by algorithm (lent documents.entry) minimum
        centroids.now ids.now)))
        (scratches order.old blocks.old sorted.old known.old taken.old counts.old
        starts.old slots.old weights.old sums.old keys.old) }
{
    let counted = centroids.len().min(counts.len());
    let scored = centroids.len().min(sums.len());
    let most = longest(documents, ids);
    let keyed = (most as usize).min(keys.len());
    clustering::cluster(
        algorithm,
        minimum,
        documents,
        ids,
        centroids,
        order,
        blocks,
        sorted,
        known,
        taken,
        &mut counts[..counted],
        starts,
        slots,
        weights,
        &mut sums[..scored],
        &mut keys[..keyed],
    )
}

// Makes the blocks of a list in scratch: `order` is left with its documents in block order, `blocks` with the block offsets, each from
// the start of its buffer on, and all else is zero. Refused as a build is by what looks at the input alone, and then for scratch that is
// too short (4): all scratch is zero then.
pub fn make(
    dimension: u64,
    blocking: BlockingStrategy,
    documents: Documents<'_>,
    ids: &[u64],
    centroids: &[u64],
    order: &mut [u64],
    blocks: &mut [u64],
    sorted: &mut [u64],
    known: &mut [u64],
    taken: &mut [u64],
    counts: &mut [u64],
    starts: &mut [u64],
    slots: &mut [u64],
    weights: &mut [f32],
    sums: &mut [f32],
    keys: &mut [u64],
) -> Result<u64, Refusal>
    ensures { left result (scratches order.new blocks.new sorted.new known.new taken.new counts.new
        starts.new slots.new weights.new sums.new keys.new)
        ≡ left_by (first_of (make_tests dimension blocking (lent documents.entry) ids.now centroids.now
        (scratches order.old blocks.old sorted.old known.old taken.old counts.old
        starts.old slots.old weights.old sums.old keys.old)))
        (blocked_by blocking (lent documents.entry) centroids.now ids.now)
        (scratches order.old blocks.old sorted.old known.old taken.old counts.old
        starts.old slots.old weights.old sums.old keys.old) }
{
    build_ready::ready(
        dimension, blocking, documents, ids, centroids, order, blocks, sorted, known, taken,
        counts, starts, slots, weights, sums, keys,
    )?;
    // a match, since each variant has what its step needs
    match blocking {
        BlockingStrategy::FixedSize { block_size } => Ok(cut(block_size, ids, order, blocks)),
        BlockingStrategy::RandomKmeans {
            centroid_fraction: _,
            min_cluster_size,
            clustering_algorithm,
        } => Ok(by_clusters(
            clustering_algorithm,
            min_cluster_size,
            documents,
            ids,
            centroids,
            order,
            blocks,
            sorted,
            known,
            taken,
            counts,
            starts,
            slots,
            weights,
            sums,
            keys,
        )),
    }
}
