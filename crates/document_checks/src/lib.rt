// Whether documents are as they should be: their offsets, ids, and the terms of those that are listed. Nothing is assumed of the slices:
// each check answers for whatever it is lent.
#![tactic(auto)]

ghost use Rattle.std.specs.Prelude.{◌≡◌, length};
ghost use Rattle.sequences.specs.Lists.{never_falls};
ghost use Rattle.documents.specs.Documents.{terms};
ghost use Rattle.documents.specs.Checks.{offsets_hold_free, offsets_hold, ids_hold, slices_hold, slices_hold_below, terms_hold_below, documents_hold};
ghost use Rattle.documents.specs.Lent.{lent};

use documents::Documents;
use number_types::DocumentId;

// Whether no offset lies below the one before it. One pass over the offsets, which leaves at none of them, so that the compiler can take
// several at once.
pub fn never_falls(offsets: &[u64]) -> bool
    ensures { result ≡ never_falls offsets.now }
{
    let mut ok = true;
    for i in 1..offsets.len() {
        ok &= offsets[i - 1] <= offsets[i];
    }
    ok
}

// Whether the first offset is 0 and none falls; false where there are no offsets. One pass over the offsets.
pub fn offsets_hold_free(offsets: &[u64]) -> bool
    ensures { result ≡ offsets_hold_free offsets.now }
{
    if offsets.is_empty() {
        return false;
    }
    (offsets[0] == 0) & never_falls(offsets)
}

// Whether, besides, the last offset is the number of terms, and the slices of the terms are equally long. One pass over the offsets.
pub fn offsets_hold(documents: Documents<'_>) -> bool
    ensures { result ≡ offsets_hold (lent documents.entry) }
{
    let n = documents.offsets.len();
    if n == 0 {
        return false;
    }
    if documents.components.len() != documents.values.len() {
        return false;
    }
    if documents.offsets[n - 1] != documents.components.len() as u64 {
        return false;
    }
    offsets_hold_free(documents.offsets)
}

// Whether each id is below the number of documents. One pass over the ids, which leaves at none of them.
pub fn ids_hold(count: u64, ids: &[u64]) -> bool
    ensures { result ≡ ids_hold count ids.now }
{
    let mut ok = true;
    for id in ids {
        ok &= *id < count;
    }
    ok
}

// Whether terms hold, of which there are as many components as values: the components strictly rise, and each value is finite and at most
// 2^32 in size. It reads both slices side by side, which cold memory likes, and leaves at no term.
fn terms_hold(components: &[u32], values: &[f32]) -> bool
    requires { length components.now ≡ length values.now }
    ensures { result ≡ slices_hold components.now values.now }
{
    if components.is_empty() {
        return true;
    }
    let first = values[0];
    let mut ok = (first >= -4294967296.0) & (first <= 4294967296.0);
    for i in 1..components.len() {
        let v = values[i];
        let fits = (v >= -4294967296.0) & (v <= 4294967296.0);
        ok &= fits & (components[i - 1] < components[i]);
    }
    ok
}

// Whether there are as many components as values, and the terms hold. The compiler takes eight steps from term to term at once, and any
// left over one by one; so the last eight steps are taken by themselves, some of them a second time, and none is left over.
pub fn slices_hold(components: &[u32], values: &[f32]) -> bool
    ensures { result ≡ slices_hold components.now values.now }
{
    let n = components.len();
    if n != values.len() {
        return false;
    }
    if n < 9 {
        return terms_hold(components, values);
    }
    let front = (n - 1) / 8 * 8 + 1;
    let back = n - 9;
    let one = terms_hold(&components[..front], &values[..front]);
    let two = terms_hold(&components[back..], &values[back..]);
    one & two
}

// Whether, besides, no component reaches the dimension: since they rise, the last one decides.
pub fn slices_hold_below(dimension: u64, components: &[u32], values: &[f32]) -> bool
    ensures { result ≡ slices_hold_below dimension components.now values.now }
{
    let n = components.len();
    if n == 0 {
        return slices_hold(components, values);
    }
    let greatest = components[n - 1] as u64;
    slices_hold(components, values) & (greatest < dimension)
}

// Whether a document's components strictly rise below the dimension and its values are in bound. One pass over its terms.
pub fn document_holds(dimension: u64, documents: Documents<'_>, id: DocumentId) -> bool
    ensures { result ≡ terms_hold_below dimension (terms (lent documents.entry) id.0) }
{
    let count = documents::term_count(documents.components, documents.values);
    let at = documents::places(documents.offsets, count, id);
    slices_hold_below(
        dimension,
        &documents.components[at.from..at.to],
        &documents.values[at.from..at.to],
    )
}

// Whether that holds of each listed document. One pass over the terms of the listed documents.
pub fn documents_hold(dimension: u64, documents: Documents<'_>, ids: &[u64]) -> bool
    ensures { result ≡ documents_hold dimension (lent documents.entry) ids.now }
{
    let mut ok = true;
    for id in ids {
        ok &= document_holds(dimension, documents, DocumentId(*id));
    }
    ok
}
