// The documents taken, pass by pass: the first greatest score above 0 decides, and a listed centroid takes itself the first time.
ghost use Rattle.std.specs.Prelude.{◌≡◌, ◌≤◌, length};
ghost use Rattle.documents.specs.Documents.{documents as documents_of};
ghost use Rattle.documents.specs.Lent.{lent};
ghost use Rattle.sort.specs.Ranked.{rank_in};
ghost use Rattle.cluster_passes.specs.Passes.{over};
ghost use Rattle.cluster_exact.specs.Exact.{first_choice, second_rank};
ghost use Rattle.cluster_index.specs.Lent.{entries_lent};

use cluster_index::Index;
use cluster_ranks::{is_listed, rank, took_itself};
use documents::Documents;
use number_types::{CentroidRank, DocumentId};

// The rank of the centroid that takes a document the first time: a listed centroid takes itself.
fn first_rank(
    documents: Documents<'_>,
    document: DocumentId,
    centroids: &[u64],
    known: &[u64],
    index: Index<'_>,
    sums: &mut [f32],
) -> CentroidRank
    ensures { result.0 ≡ rank_in known.now (first_choice known.now centroids.now (entries_lent index.entry)
        (length sums.old)
        (lent documents.entry) document.0) }
{
    let own = rank(known, document);
    if is_listed(known, document, own) {
        return own;
    }
    let c = cluster_nearest::nearest_to(documents, document, centroids, index, sums);
    rank(known, c)
}

// Takes each document for the first time.
pub(crate) fn first_pass(
    documents: Documents<'_>,
    ids: &[u64],
    centroids: &[u64],
    known: &[u64],
    index: Index<'_>,
    sums: &mut [f32],
    taken: &mut [u64],
)
    requires { length ids.now ≤ length taken.old }
    ensures { taken.new ≡ over (λ i r. rank_in known.now (first_choice known.now centroids.now (entries_lent index.entry) (length sums.old)
        (lent documents.entry) i)) ids.now taken.old }
{
    for (i, id) in ids.iter().enumerate() {
        let r = first_rank(documents, DocumentId(*id), centroids, known, index, sums);
        taken[i] = r.0;
    }
}

// The rank of the centroid that takes a document in the end. Only a document that took itself can change: of any other the first
// centroid with the greatest score above 0 is the one that has it.
fn second_rank(
    documents: Documents<'_>,
    document: DocumentId,
    own: CentroidRank,
    minimum: u64,
    centroids: &[u64],
    known: &[u64],
    counts: &[u64],
    index: Index<'_>,
    sums: &mut [f32],
) -> CentroidRank
    ensures { result.0 ≡ second_rank known.now counts.now minimum centroids.now (entries_lent index.entry)
        (length sums.old)
        (lent documents.entry) document.0 own.0 }
{
    if took_itself(known, counts, minimum, document, own) {
        let c = cluster_nearest::nearest_to(documents, document, centroids, index, sums);
        return rank(known, c);
    }
    own
}

// Takes the documents of dissolved groups again.
pub(crate) fn second_pass(
    documents: Documents<'_>,
    ids: &[u64],
    minimum: u64,
    centroids: &[u64],
    known: &[u64],
    counts: &[u64],
    index: Index<'_>,
    sums: &mut [f32],
    taken: &mut [u64],
)
    requires { length ids.now ≤ length taken.old }
    ensures { taken.new ≡ over (second_rank known.now counts.now minimum centroids.now (entries_lent index.entry) (length sums.old)
        (lent documents.entry)) ids.now taken.old }
{
    for (i, id) in ids.iter().enumerate() {
        let own = CentroidRank(taken[i]);
        let r = second_rank(
            documents,
            DocumentId(*id),
            own,
            minimum,
            centroids,
            known,
            counts,
            index,
            sums,
        );
        taken[i] = r.0;
    }
}
