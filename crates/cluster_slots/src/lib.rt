// The centroid that takes a document by its largest terms, found by the entries of the centroids' index that these terms meet: their slots
// alone are added to, looked at and set back, however many centroids there are. Nothing is assumed of the slices.
#![tactic(auto)]

ghost use Rattle.std.specs.Prelude.{◌≡◌, ◌≤◌, leb, length};
ghost use mathlib.Core.List.{map, foldl};
ghost use Rattle.documents.specs.Documents.{documents};
ghost use Rattle.documents.specs.TermKeys.{term_of};
ghost use Rattle.cluster_index.specs.Index.{add_terms};
ghost use Rattle.cluster_index.specs.Lent.{entries_lent};
ghost use Rattle.cluster_slots.specs.Met.{slots_of, met, if_better, better, best_met, from_zero, last_before, chosen, clear_at, clear_met, chosen_by, set_back, nearest_by_keys, scores_after};

use cluster_index::Index;
use number_types::{CentroidSlot, DocumentId};

// A slot with its score.
#[derive(Drop)]
struct Best {
    slot: CentroidSlot,
    score: f32,
}

// The best so far, or another slot whose score is greater by total order, or the same at a later slot.
fn if_better(best: Best, slot: CentroidSlot, score: f32) -> Best
    ensures { result ≡ if_better best slot.0 score }
{
    // most are less: they are passed over by one test
    if !float32::at_most(best.score, score) {
        return best;
    }
    let own = best.slot;
    if (own.0 < slot.0) | !float32::at_most(score, best.score) {
        Best {
            slot: slot,
            score: score,
        }
    } else {
        best
    }
}

// The better of the best so far and a slot with its score. A slot past the scores is passed over.
fn best_of(best: Best, slot: CentroidSlot, sums: &[f32]) -> Best
    ensures { result ≡ better sums.now best slot.0 }
{
    let s = slot.0 as usize;
    if s < sums.len() {
        if_better(best, slot, sums[s])
    } else {
        best
    }
}

// The best of the best so far and some slots.
fn best_slot(best: Best, slots: &[u64], sums: &[f32]) -> Best
    ensures { result ≡ foldl (better sums.now) best slots.now }
{
    let mut b = best;
    for &slot in slots {
        b = best_of(b, CentroidSlot(slot), sums);
    }
    b
}

// The slots that the term with a key meets: those of its component's entries.
fn slots_met<'a>(starts: &[u64], slots: &'a [u64], weights: &[f32], key: u64) -> &'a [u64]
    ensures { result.now ≡ slots_of (documents starts.now slots.now weights.now) (term_of key) }
{
    let p = cluster_index::entries_of(
        Index {
            starts,
            slots,
            weights,
        },
        term_keys::component_of_term_key(key),
    );
    &slots[p.from..p.to]
}

// The best of the slots that the terms with these keys meet; slot 0 with a score of +0 where none is better.
fn best_met(index: Index<'_>, keys: &[u64], sums: &[f32]) -> Best
    ensures { result ≡ best_met (entries_lent index.entry) sums.now (map term_of keys.now) }
{
    let mut b = Best {
        slot: CentroidSlot(0),
        score: 0.0,
    };
    for &key in keys {
        b = best_slot(
            b,
            slots_met(index.starts, index.slots, index.weights, key),
            sums,
        );
    }
    b
}

// The last slot whose score is at least +0 by total order, if there is one. It takes as many steps as slots after that one.
fn last_from_zero(sums: &[f32]) -> Option<CentroidSlot>
    ensures { result ≡ last_before (from_zero sums.now (length sums.now)) }
{
    for k in (0..sums.len()).rev() {
        if float32::at_most(0.0, sums[k]) {
            return Some(CentroidSlot(k as u64));
        }
    }
    None
}

// The centroid of the best slot met, if its score is above +0. Else no score is above +0, and the last slot whose score is at least +0 has
// the last greatest one: all after it were met. Where there is no such slot every slot was met, and all are looked at.
fn choose(
    otherwise: DocumentId,
    competing: &[u64],
    index: Index<'_>,
    keys: &[u64],
    sums: &[f32],
) -> DocumentId
    requires { length sums.now ≤ length competing.now }
    ensures { result.0 ≡ chosen otherwise.0 competing.now (entries_lent index.entry)
        sums.now (map term_of keys.now) }
{
    let best = best_met(index, keys, sums);
    if !float32::at_most(best.score, 0.0) {
        let slot = best.slot;
        let at = slot.0 as usize;
        return DocumentId(competing[at]);
    }
    match last_from_zero(sums) {
        Some(slot) => {
            let at = slot.0 as usize;
            DocumentId(competing[at])
        }
        None => cluster_nearest::last_greatest(otherwise, competing, sums),
    }
}

// Sets the score of a slot to +0.
fn clear_slot(slot: CentroidSlot, sums: &mut [f32])
    ensures { sums.new ≡ clear_at sums.old slot.0 }
{
    let s = slot.0 as usize;
    if s < sums.len() {
        sums[s] = 0.0;
    }
}

// Sets the scores of some slots to +0.
fn clear_slots(slots: &[u64], sums: &mut [f32])
    ensures { sums.new ≡ foldl clear_at sums.old slots.now }
{
    for &slot in slots {
        clear_slot(CentroidSlot(slot), sums);
    }
}

// Sets the scores of the slots that the terms with these keys meet to +0.
fn clear_met(index: Index<'_>, keys: &[u64], sums: &mut [f32])
    ensures { sums.new ≡ clear_met (entries_lent index.entry) sums.old (map term_of keys.now) }
{
    for &key in keys {
        clear_slots(
            slots_met(index.starts, index.slots, index.weights, key),
            sums,
        );
    }
}

// Whether the terms with these keys meet so many entries, or more. It takes one step for each key at the most.
fn meets_many(index: Index<'_>, keys: &[u64], many: usize) -> bool
    ensures { result ≡ leb many (length (met (entries_lent index.entry) (map term_of keys.now))) }
{
    let mut left = many;
    for &key in keys {
        let size = slots_met(index.starts, index.slots, index.weights, key).len();
        if left <= size {
            return true;
        }
        left -= size;
    }
    left == 0
}

// What `nearest_by_keys` does, where there are no more scores than centroids that compete.
fn nearest_within(
    otherwise: DocumentId,
    competing: &[u64],
    index: Index<'_>,
    keys: &[u64],
    sums: &mut [f32],
) -> DocumentId
    requires { length sums.old ≤ length competing.now }
    ensures answer { result.0 ≡ chosen_by otherwise.0 competing.now (entries_lent index.entry)
        (add_terms (entries_lent index.entry) sums.old (map term_of keys.now)) (map term_of keys.now) }
    ensures sums { sums.new ≡ set_back (entries_lent index.entry)
        (add_terms (entries_lent index.entry) sums.old (map term_of keys.now)) (map term_of keys.now) }
{
    cluster_index::add_keys(index, keys, sums);
    // where there are as many entries as scores, one walk over the scores costs no more
    if meets_many(index, keys, sums.len()) {
        let c = cluster_nearest::last_greatest(otherwise, competing, sums);
        clearing::clear(sums);
        return c;
    }
    let c = choose(otherwise, competing, index, keys, sums);
    clear_met(index, keys, sums);
    c
}

// The centroid that takes a document by the terms with these keys, of those that compete; another document's id where none does. The terms
// are added to the scores, one of the slots is chosen, and the scores are set back to +0. From scores that are all +0 this is the last
// centroid with the greatest score, and leaves them all +0 (specs/Laws/Zeros), in time that goes by the keys and the entries that they
// meet, however many centroids compete.
pub fn nearest_by_keys(
    otherwise: DocumentId,
    competing: &[u64],
    index: Index<'_>,
    keys: &[u64],
    sums: &mut [f32],
) -> DocumentId
    ensures answer { result.0 ≡ nearest_by_keys otherwise.0 competing.now (entries_lent index.entry) sums.old
        (map term_of keys.now) }
    ensures sums { sums.new ≡ scores_after competing.now (entries_lent index.entry) sums.old
        (map term_of keys.now) }
{
    let n = competing.len().min(sums.len());
    nearest_within(otherwise, competing, index, keys, &mut sums[..n])
}
