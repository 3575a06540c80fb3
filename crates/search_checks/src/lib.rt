// Whether a list may be searched: the check of refusal 9. Nothing is assumed of the slices.
#![tactic(auto)]

ghost use Rattle.std.specs.Prelude.{◌≡◌, ◌≤◌, ltb, length as len};
ghost use Rattle.sequences.specs.Lists.{every, strictly_rise};
ghost use Rattle.quantizing.specs.Quantizing.{minimum_allowed, step_allowed};
ghost use Rattle.sparse_scores.specs.WellFormed.{blocks_hold, offsets_hold, well_formed};
ghost use Rattle.sparse_scores.specs.Lent.{layout_lent};
ghost use Rattle.search_checks.specs.Counting.{falls, seam_at, seams, ids_counted};

use blocking::limits::{list_too_long, too_many_blocks};
use sparse_scores::summaries::Summaries;

// Whether each component lies above the one before it. This loop and those like it leave at no element, so that the compiler can take
// several at once.
fn strictly_rise(summary_components: &[u32]) -> bool
    ensures { result ≡ strictly_rise summary_components.now }
{
    let mut ok = true;
    for i in 1..summary_components.len() {
        ok &= summary_components[i - 1] < summary_components[i];
    }
    ok
}

// Whether each summary id is below a bound of as many bits, so that the compiler can take many at once.
fn all_under(summary_ids: &[u16], bound: u16) -> bool
    ensures { result ≡ every (λ i. ltb i bound) summary_ids.now }
{
    let mut ok = true;
    for id in summary_ids {
        ok &= *id < bound;
    }
    ok
}

// The greatest id that 16 bits hold.
const GREATEST_ID: u64 = 0xffff;

// Whether each summary id is below the number of summaries.
fn all_below(summary_ids: &[u16], summaries: u64) -> bool
    ensures { result ≡ every (λ i. ltb i summaries) summary_ids.now }
{
    if GREATEST_ID < summaries {
        return true;
    }
    all_under(summary_ids, summaries as u16)
}

// Whether each minimum is finite and at most 2^32 in size.
fn minimums_hold(minimums: &[f32]) -> bool
    ensures { result ≡ every minimum_allowed minimums.now }
{
    let mut ok = true;
    for m in minimums {
        ok &= (*m >= -4294967296.0) & (*m <= 4294967296.0);
    }
    ok
}

// Whether each step lies between 0 and 2^32; -0 does.
fn steps_hold(steps: &[f32]) -> bool
    ensures { result ≡ every step_allowed steps.now }
{
    let mut ok = true;
    for s in steps {
        ok &= (*s >= -4294967296.0) & (*s <= 4294967296.0) & (*s >= 0.0);
    }
    ok
}

// How many of few ids do not lie above the one before them: counted in as many bits as an id has, so that the compiler can take many at once.
fn count_few_falls(summary_ids: &[u16]) -> u16
    requires { len summary_ids.now ≤ 65536 }
    ensures { result ≡ falls summary_ids.now }
{
    let mut count = 0u16;
    for i in 1..summary_ids.len() {
        count += (summary_ids[i] <= summary_ids[i - 1]) as u16;
    }
    count
}

// The most ids whose falls 16 bits can count.
const FEW: usize = 65536;

// How many ids do not lie above the one before them: part by part, where each part starts with the last id of the one before.
fn count_falls(summary_ids: &[u16]) -> u64
    ensures { result ≡ falls summary_ids.now }
{
    let n = summary_ids.len();
    let mut count = 0u64;
    let mut i = 0usize;
    // the place moves on by nearly a whole part, not by one
    while FEW < n - i {
        let end = i + FEW;
        count += count_few_falls(&summary_ids[i..end]) as u64;
        i = end - 1;
    }
    count + count_few_falls(&summary_ids[i..n]) as u64
}

// 1 where a component's first entry, at the offset `at`, does not lie above the entry before it; 0 where the component before it has no
// entry, or it has none.
fn seam(before: u64, at: u64, summary_ids: &[u16]) -> u64
    ensures answer { result ≡ seam_at summary_ids.now before at }
    ensures small { result ≤ 1 }
{
    if at <= before {
        return 0;
    }
    let i = at as usize;
    if summary_ids.len() <= i {
        return 0;
    }
    (summary_ids[i] <= summary_ids[i - 1]) as u64
}

// How many ids that do not lie above the one before them are a component's first.
fn count_seams(component_offsets: &[u64], summary_ids: &[u16]) -> u64
    ensures { result ≡ seams summary_ids.now component_offsets.now }
{
    let mut count = 0u64;
    for i in 1..component_offsets.len() {
        count += seam(component_offsets[i - 1], component_offsets[i], summary_ids);
    }
    count
}

// Whether there is one block offset more than blocks, none falls, and the last one is not past the postings. With no block none is looked
// at.
fn blocks_hold(postings: u64, blocks: u64, component_offsets: &[u64]) -> bool
    ensures { result ≡ blocks_hold postings blocks component_offsets.now }
{
    if blocks == 0 {
        return true;
    }
    let n = component_offsets.len();
    if n == 0 {
        return false;
    }
    let last = n - 1;
    if last as u64 != blocks {
        return false;
    }
    document_checks::never_falls(component_offsets) & (component_offsets[last] <= postings)
}

// Whether component offsets start at 0, never fall, and end at the number of entries.
fn offsets_hold(component_offsets: &[u64], entries: u64) -> bool
    ensures { result ≡ offsets_hold component_offsets.now entries }
{
    let n = component_offsets.len();
    if n == 0 {
        return false;
    }
    let last = n - 1;
    (component_offsets[0] == 0)
        & (document_checks::never_falls(component_offsets) & (component_offsets[last] == entries))
}

// Whether summary ids are below the number of summaries, and only a component's first one fails to lie above the one before it:
// then they rise within each component, if the offsets hold.
fn ids_hold(component_offsets: &[u64], summary_ids: &[u16], summaries: u64) -> bool
    ensures { result ≡ ids_counted summaries component_offsets.now summary_ids.now }
{
    all_below(summary_ids, summaries)
        & (count_falls(summary_ids) == count_seams(component_offsets, summary_ids))
}

// Whether a list may be searched: all that refusal 9 asks of it. Its cost is linear in the list's summaries.
pub fn is_well_formed(postings: u64, block_offsets: &[u64], summaries: Summaries<'_>) -> bool
    ensures { result ≡ well_formed postings block_offsets.now (layout_lent summaries.entry) }
{
    let count = summaries.minimums.len() as u64;
    let entries = summaries.summary_ids.len() as u64;
    let even = (summaries.component_offsets.len() == summaries.summary_components.len() + 1)
        & ((summaries.summary_ids.len() == summaries.codes.len())
            & (summaries.minimums.len() == summaries.steps.len()));
    let many = too_many_blocks(count);
    let long = list_too_long(postings);
    let blocks = blocks_hold(postings, count, block_offsets);
    let risen = strictly_rise(summaries.summary_components);
    let offset = offsets_hold(summaries.component_offsets, entries);
    let id = ids_hold(summaries.component_offsets, summaries.summary_ids, count);
    let low = minimums_hold(summaries.minimums);
    let step = steps_hold(summaries.steps);
    (!many & !long) & (blocks & (even & (risen & (offset & (id & (low & step))))))
}
