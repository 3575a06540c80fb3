// The block maximum: each component of a block's documents once, with its maximum there.
#![tactic(auto)]

ghost use Rattle.std.specs.Prelude.{◌≡◌, cond, ◌&&◌, length, get_or, set, ltb, eqb};
ghost use mathlib.Core.List.{foldl};
ghost use Rattle.std.specs.Float.{nan};
ghost use Rattle.std.specs.Float.Ieee.{lt};
ghost use Rattle.documents.specs.Documents.{term, terms, paired};
ghost use Rattle.documents.specs.TermKeys.{component_of};
ghost use Rattle.documents.specs.Lent.{lent};
ghost use Rattle.summary_maximum.specs.Maximum.{block_terms, below};
ghost use Rattle.summary_maximum.specs.Meeting.{met, meets, meets_below};

use documents::Documents;
use number_types::DocumentId;

// Stores a value at a place if it is greater than what is there.
fn raise(xs: &mut [f32], i: usize, x: f32)
    ensures { xs.new ≡ cond (lt (get_or xs.old i nan) x) (set xs.old i x) xs.old }
{
    if cells::at(xs, i, 0.0 / 0.0) < x {
        cells::put(xs, i, x);
    }
}

// Whether a component stands at a place among the first so many keys.
fn stands_at(keys: &[u64], count: usize, place: usize, component: u64) -> bool
    ensures { result ≡ (ltb place count && eqb (get_or keys.now place 0) component) }
{
    place < count && cells::at(keys, place, 0) == component
}

// Takes one term into the block's maximum, and answers how many components are met; a component from the limit on is passed over. A
// place is trusted only if the component stands at it, so that the places may hold anything before a block.
fn meet_term(
    limit: usize,
    component: u32,
    value: f32,
    count: usize,
    keys: &mut [u64],
    places: &mut [u64],
    maxima: &mut [f32],
) -> usize
    ensures { met result keys.new places.new maxima.new
        ≡ meets_below limit (met count keys.old places.old maxima.old) (term component value) }
{
    let c = component as usize;
    if limit <= c {
        return count;
    }
    let place = cells::at(places, c, 0) as usize;
    if stands_at(keys, count, place, c as u64) {
        raise(maxima, place, value);
        return count;
    }
    if count < keys.len() {
        keys[count] = c as u64;
        cells::put(places, c, count as u64);
        cells::put(maxima, count, value);
        return count + 1;
    }
    count
}

// Takes a document's terms into the block's maximum, as they come.
fn meet(
    limit: usize,
    components: &[u32],
    values: &[f32],
    count: usize,
    keys: &mut [u64],
    places: &mut [u64],
    maxima: &mut [f32],
) -> usize
    requires { length components.now ≡ length values.now }
    ensures { met result keys.new places.new maxima.new ≡ foldl (meets_below limit) (met count keys.old places.old maxima.old)
        (paired components.now values.now) }
{
    let mut met = count;
    for (component, value) in components.iter().zip(values) {
        met = meet_term(limit, *component, *value, met, keys, places, maxima);
    }
    met
}

// The same for the document with a number.
fn meet_document(
    limit: usize,
    documents: Documents<'_>,
    id: DocumentId,
    count: usize,
    keys: &mut [u64],
    places: &mut [u64],
    maxima: &mut [f32],
) -> usize
    ensures { met result keys.new places.new maxima.new ≡ foldl (meets_below limit) (met count keys.old places.old maxima.old)
        (terms (lent documents.entry) id.0) }
{
    let n = documents::term_count(documents.components, documents.values);
    let range = documents::places(documents.offsets, n, id);
    meet(
        limit,
        &documents.components[range.from..range.to],
        &documents.values[range.from..range.to],
        count,
        keys,
        places,
        maxima,
    )
}

// Takes the terms of a block's documents, as they come, into its maximum, and answers how many components are met. Components from the
// limit on are passed over. Those that are met stand at the start of `keys` as they were first met, each with its maximum at the same
// place of `maxima` and with its own place in `places`, where each buffer has as many places as the limit (specs/Laws/Meetings). One
// pass over the block's terms; nothing is cleared before, whatever the buffers hold.
pub fn gather(
    limit: usize,
    documents: Documents<'_>,
    block: &[u64],
    keys: &mut [u64],
    places: &mut [u64],
    maxima: &mut [f32],
) -> usize
    ensures { met result keys.new places.new maxima.new ≡ foldl meets (met 0 keys.old places.old maxima.old)
        (below limit (block_terms (lent documents.entry) block.now)) }
{
    let mut count = 0usize;
    for document in block {
        let id = DocumentId(*document);
        count = meet_document(limit, documents, id, count, keys, places, maxima);
    }
    count
}

// Sets the places of the components that stand in the keys to 0.
pub fn forget(keys: &[u64], places: &mut [u64])
    ensures { places.new ≡ foldl (λ l k. set l (component_of k) 0) places.old keys.now }
{
    for key in keys {
        let component = term_keys::component_of_term_key(*key) as usize;
        cells::put(places, component, 0);
    }
}
