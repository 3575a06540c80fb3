// How long the scratch buffers of a build must be. The formula stands in build_meaning/specs/Needs.antt; here it is computed for a caller
// that is to lend them, and for the build that is lent them.
#![tactic(auto)]

ghost use Rattle.std.specs.Prelude.{◌≡◌, map, ◌+◌, length};
ghost use Rattle.sequences.specs.Lists.{joined};
ghost use Rattle.documents.specs.Documents.{terms};
ghost use Rattle.documents.specs.Lent.{lent as lent_documents};
ghost use Rattle.build_meaning.specs.Needs.{sizes, sizes_for, scratch_needs, scratch_suffices};
ghost use Rattle.build_scratch.specs.Lengths.{capped, shown};

use configuration::BlockingStrategy;
use documents::Documents;
use number_types::DocumentId;
use scratch::ScratchLengths;

// How many terms the listed documents have, each counted as often as it is listed.
fn term_total(documents: Documents<'_>, listed: &[u64]) -> u64
    ensures { result ≡ capped (length (joined (map (terms (lent_documents documents.entry)) listed.now))) }
{
    let count = documents::term_count(documents.components, documents.values);
    let mut total = 0u64;
    for id in listed {
        let at = documents::places(documents.offsets, count, DocumentId(*id));
        total = total.saturating_add((at.to - at.from) as u64);
    }
    total
}

// The scratch that a build needs for so many list ids, centroids used, terms of these, and the dimension. A length that no u64 can
// hold is given as the greatest u64; no slice is that long.
pub fn needs_of_sizes(
    ids: u64,
    centroids: u64,
    centroid_terms: u64,
    dimension: u64,
) -> ScratchLengths
    ensures { result ≡ shown (scratch_needs (sizes ids centroids centroid_terms dimension)) }
{
    let most = centroids.max(dimension);
    ScratchLengths {
        order: ids,
        blocks: ids.saturating_add(1),
        sorted: ids,
        known: centroids,
        taken: ids,
        counts: most,
        starts: dimension.saturating_add(1),
        slots: centroid_terms,
        weights: centroid_terms,
        sums: most,
        keys: dimension,
    }
}

// The scratch that a build of this list needs. One pass over the centroids; nothing is assumed of the slices.
pub fn scratch_needs(
    dimension: u64,
    blocking: BlockingStrategy,
    documents: Documents<'_>,
    ids: &[u64],
    centroids: &[u64],
) -> ScratchLengths
    ensures { result ≡ shown (scratch_needs (sizes_for dimension blocking (lent_documents documents.entry) ids.now
        centroids.now)) }
{
    let taken = build_admission::centroids_taken(blocking, centroids.len());
    let terms = term_total(documents, &centroids[..taken]);
    needs_of_sizes(ids.len() as u64, taken as u64, terms, dimension)
}

// Whether each buffer is as long as it must be.
pub fn suffices(needed: ScratchLengths, lent: ScratchLengths) -> bool
    ensures { result ≡ scratch_suffices needed lent }
{
    let later = (needed.weights <= lent.weights)
        & ((needed.sums <= lent.sums) & (needed.keys <= lent.keys));
    let index = (needed.counts <= lent.counts)
        & ((needed.starts <= lent.starts) & ((needed.slots <= lent.slots) & later));
    let lists = (needed.sorted <= lent.sorted)
        & ((needed.known <= lent.known) & ((needed.taken <= lent.taken) & index));
    (needed.order <= lent.order) & ((needed.blocks <= lent.blocks) & lists)
}
