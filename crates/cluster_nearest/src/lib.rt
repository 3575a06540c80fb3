// Which centroid takes a document: by all of its terms and the first greatest score above 0, or by its largest terms and the last
// greatest score. Scores come through the centroids' index; those of the largest terms are taken in crate cluster_slots. Nothing is
// assumed of the slices.
#![tactic(auto)]

ghost use Rattle.std.specs.Prelude.{◌≡◌, min, length, take};
ghost use mathlib.Core.List.{map, foldl, zip_with};
ghost use Rattle.std.proofs.lemmas.List.Edits.{sets};
ghost use Rattle.documents.specs.Documents.{documents as documents_of, terms, paired, largest};
ghost use Rattle.documents.specs.TermKeys.{term_key, term_of};
ghost use Rattle.documents.specs.Lent.{lent};
ghost use Rattle.cluster_nearest.specs.Scored.{scores_of};
ghost use Rattle.cluster_nearest.specs.Keys.{KeysLeft};
ghost use Rattle.cluster_nearest.specs.Nearest.{candidate, if_greater, if_no_less, first_above, last_no_less};
ghost use Rattle.cluster_index.specs.Lent.{entries_lent};

use cluster_index::Index;
use documents::Documents;
use number_types::DocumentId;

// A centroid, by its document, with a document's score.
#[derive(Drop)]
pub struct Candidate {
    pub centroid: DocumentId,
    pub score: f32,
}

// The best so far, or another one if its score is greater.
fn if_greater(best: Candidate, other: Candidate) -> Candidate
    ensures { result ≡ if_greater best other }
{
    if best.score < other.score {
        other
    } else {
        best
    }
}

// The best so far, or another one unless its score is less by total order.
fn if_no_less(best: Candidate, other: Candidate) -> Candidate
    ensures { result ≡ if_no_less best other }
{
    // most are below: they are passed over by one test
    if other.score < best.score {
        return best;
    }
    if float32::at_most(best.score, other.score) {
        other
    } else {
        best
    }
}

// The first centroid with the greatest score above 0, else the first centroid: 0 where there is none.
pub fn first_above_zero(centroids: &[u64], sums: &[f32]) -> DocumentId
    ensures { result.0 ≡ first_above centroids.now sums.now }
{
    if centroids.len() == 0 {
        return DocumentId(0);
    }
    let mut best = Candidate {
        centroid: DocumentId(centroids[0]),
        score: 0.0,
    };
    for (&centroid, &sum) in centroids.iter().zip(sums) {
        best = if_greater(
            best,
            Candidate {
                centroid: DocumentId(centroid),
                score: sum,
            },
        );
    }
    best.centroid
}

// The best of the best so far and some centroids, by their scores in total order: of equal ones the last.
fn last_of(first: Candidate, centroids: &[u64], sums: &[f32]) -> Candidate
    ensures { result ≡ foldl if_no_less first (zip_with candidate centroids.now sums.now) }
{
    let mut best = first;
    for (&centroid, &score) in centroids.iter().zip(sums) {
        best = if_no_less(
            best,
            Candidate {
                centroid: DocumentId(centroid),
                score: score,
            },
        );
    }
    best
}

// The last centroid with the greatest score; another document's id where there is none. Sixteen scores at a time that are all below the best
// so far are passed over at once.
pub fn last_greatest(otherwise: DocumentId, centroids: &[u64], sums: &[f32]) -> DocumentId
    ensures { result.0 ≡ last_no_less otherwise.0 centroids.now sums.now }
{
    if centroids.len() == 0 {
        return otherwise;
    }
    if sums.len() == 0 {
        return otherwise;
    }
    let mut best = Candidate {
        centroid: DocumentId(centroids[0]),
        score: sums[0],
    };
    let n = centroids.len().min(sums.len());
    let mut i = 1usize;
    // sixteen at a time by place, since those that are left over follow after the loop
    while 16 <= n - i {
        let end = i + 16;
        if !float32::all_below(&sums[i..end], best.score) {
            best = last_of(best, &centroids[i..end], &sums[i..end]);
        }
        i = end;
    }
    best = last_of(best, &centroids[i..n], &sums[i..n]);
    best.centroid
}

// The centroid that takes a document by all of its terms. The scores by slot stay in their slice.
pub fn nearest_to(
    documents: Documents<'_>,
    id: DocumentId,
    centroids: &[u64],
    index: Index<'_>,
    sums: &mut [f32],
) -> DocumentId
    ensures sums { sums.new ≡ scores_of (entries_lent index.entry) (length sums.old)
        (terms (lent documents.entry) id.0) }
    ensures answer { result.0 ≡ first_above centroids.now sums.new }
{
    clearing::clear(sums);
    let p = cluster_index::places_of(documents, id);
    cluster_index::add_terms(
        index,
        &documents.components[p.from..p.to],
        &documents.values[p.from..p.to],
        sums,
    );
    first_above_zero(centroids, sums)
}

// Writes the key of each term to the front of a slice; those that find no place are left out.
fn write_keys(components: &[u32], values: &[f32], keys: &mut [u64])
    ensures { keys.new ≡ sets keys.old 0 (map term_key (paired components.now values.now)) }
{
    for i in 0..components.len().min(values.len()) {
        let key = term_keys::term_key(components[i], values[i]);
        cells::put(keys, i, key);
    }
}

// Leaves the keys of the terms at the front of a slice, those of the `cut` largest first, and answers how many these keys are; terms that
// find no place are left out. Only the keys of the cut are put in order, the largest first.
fn sort_keys(cut: usize, components: &[u32], values: &[f32], keys: &mut [u64]) -> usize
    ensures answer { result ≡ min (length (paired components.now values.now)) (length keys.old) }
    ensures keys { KeysLeft cut (paired components.now values.now) keys.old keys.new }
{
    write_keys(components, values, keys);
    let terms = documents::term_count(components, values);
    let n = terms.min(keys.len());
    sort::sort_front(&mut keys[..n], cut);
    n
}

// Leaves the keys of a document's terms at the front of a slice, and answers how many of them are within a cut: these come first, the
// largest at the start, and stand for so many of its largest terms. The others follow in some order. Terms that find no place are left
// out. It takes time in proportion to the terms and to the sort of those within the cut; at worst to the sort of all.
pub fn largest_keys(documents: Documents<'_>, id: DocumentId, cut: u64, keys: &mut [u64]) -> usize
    ensures keys { KeysLeft cut (terms (lent documents.entry) id.0) keys.old keys.new }
    ensures answer { result ≡ min cut (min (length (terms (lent documents.entry) id.0)) (length keys.old)) }
    ensures terms { map term_of (take result keys.new) ≡ largest cut (take (length keys.old) (terms (lent documents.entry) id.0)) }
{
    let p = cluster_index::places_of(documents, id);
    let n = sort_keys(
        cut as usize,
        &documents.components[p.from..p.to],
        &documents.values[p.from..p.to],
        keys,
    );
    (cut as usize).min(n)
}
