// The documents taken in the approximate mode, pass by pass: the last greatest of the centroids that compete takes a document. Nothing
// is assumed of the slices.
#![tactic(auto)]

ghost use Rattle.std.specs.Prelude.{◌≡◌, false, pos, length, replicate};
ghost use Rattle.std.specs.Float.{fin};
ghost use Rattle.documents.specs.Documents.{documents as documents_of};
ghost use Rattle.documents.specs.Lent.{lent};
ghost use Rattle.sort.specs.Ranked.{rank_in};
ghost use Rattle.cluster_passes.specs.Passes.{over};
ghost use Rattle.cluster_slots.specs.Met.{none, Clear};
ghost use Rattle.cluster_approximate_pass.specs.Taking.{nearly_choice, again_rank};
ghost use Rattle.cluster_index.specs.Lent.{entries_lent};

use cluster_index::Index;
use cluster_ranks::{is_small, rank};
use documents::Documents;
use number_types::{CentroidRank, DocumentId};

// The rank of the centroid that takes a document by so many of its largest terms, of those that compete. The scores are all +0 before
// and after.
fn near_rank(
    documents: Documents<'_>,
    document: DocumentId,
    cut: u64,
    first: DocumentId,
    competing: &[u64],
    known: &[u64],
    index: Index<'_>,
    sums: &mut [f32],
    keys: &mut [u64],
) -> CentroidRank
    requires { Clear sums.old }
    ensures answer { result.0 ≡ rank_in known.now (nearly_choice cut first.0 competing.now (entries_lent index.entry)
        (length sums.old) (length keys.old)
        (lent documents.entry) document.0) }
    ensures sums { sums.new ≡ replicate (length sums.old) none }
{
    let m = cluster_nearest::largest_keys(documents, document, cut, keys);
    let c = cluster_slots::nearest_by_keys(first, competing, index, &keys[..m], sums);
    rank(known, c)
}

// Takes each document for the first time, of as many as find a place in `taken`: all centroids of an index compete. Leaves the ranks of
// those that take them from the start of `taken` on. The scores and the keys are work space, zero afterwards: the scores are cleared
// once, and each document sets back what it added. It takes time in proportion to these two, to the sort of each document's terms, to
// the entries of the index that the terms of its cut meet, and to log m for each document's rank among m known centroids.
pub fn first_pass(
    documents: Documents<'_>,
    ids: &[u64],
    cut: u64,
    first: DocumentId,
    competing: &[u64],
    known: &[u64],
    index: Index<'_>,
    sums: &mut [f32],
    keys: &mut [u64],
    taken: &mut [u64],
)
    ensures taken { taken.new ≡ over (λ i r. rank_in known.now (nearly_choice cut first.0 competing.now (entries_lent index.entry) (length
        sums.old) (length keys.old) (lent documents.entry) i)) ids.now taken.old }
    ensures sums { sums.new ≡ replicate (length sums.old) (fin false 0 (pos 0)) }
    ensures keys { keys.new ≡ replicate (length keys.old) 0 }
{
    clearing::clear(sums);
    let n = ids.len().min(taken.len());
    for i in 0..n {
        let r = near_rank(
            documents,
            DocumentId(ids[i]),
            cut,
            first,
            competing,
            known,
            index,
            sums,
            keys,
        );
        taken[i] = r.0;
    }
    clearing::clear(keys);
}

// Takes the documents of dissolved groups again, by the ranks that stand in `taken` and the counts of each rank: those whose group has
// at most the minimum size. The rest is as in `first_pass`.
pub fn second_pass(
    documents: Documents<'_>,
    ids: &[u64],
    cut: u64,
    minimum: u64,
    first: DocumentId,
    competing: &[u64],
    known: &[u64],
    counts: &[u64],
    index: Index<'_>,
    sums: &mut [f32],
    keys: &mut [u64],
    taken: &mut [u64],
)
    ensures taken { taken.new ≡ over (again_rank known.now counts.now minimum cut first.0 competing.now (entries_lent index.entry) (length
        sums.old) (length keys.old) (lent documents.entry)) ids.now taken.old }
    ensures sums { sums.new ≡ replicate (length sums.old) (fin false 0 (pos 0)) }
    ensures keys { keys.new ≡ replicate (length keys.old) 0 }
{
    clearing::clear(sums);
    let end = ids.len().min(taken.len());
    for i in 0..end {
        let own = CentroidRank(taken[i]);
        if is_small(counts, minimum, own) {
            let r = near_rank(
                documents,
                DocumentId(ids[i]),
                cut,
                first,
                competing,
                known,
                index,
                sums,
                keys,
            );
            taken[i] = r.0;
        }
    }
    clearing::clear(keys);
}
