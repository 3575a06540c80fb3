// A push onto the kept list with its refusals, and the check of a kept list that a search makes too.
#![tactic(auto)]

ghost use Rattle.std.specs.Prelude.{◌≡◌, suc, min, ◌-◌, ◌≤◌, ◌<◌, length as len};
ghost use Rattle.kept_list.specs.Lent.{lent, entry_at, entries};
ghost use Rattle.kept_list.specs.Push.{sound, well_kept, verdict_of, left, pushed};
ghost use Rattle.kept_push.specs.Standing.{each_from, stands, Fallen};

use kept_list::Scored;
use refusal::Refusal;

// The entry at a place of the two slices.
fn entry(at: usize, packed: &[u64], scores: &[f32]) -> Scored
    requires at_bound { at < len packed.now }
    requires at_bound_2 { at < len scores.now }
    ensures { result ≡ entry_at at packed.now scores.now }
{
    Scored::new(packed[at], scores[at])
}

// Whether each score from a place up to another is below the one above it. This loop and the next leave at no entry, so that the compiler
// can take several at once.
fn all_fall(from: usize, to: usize, scores: &[f32]) -> bool
    requires { (0 < from) × (from ≤ to) × (to ≤ len scores.now) }
    ensures { Fallen from to scores.now result }
{
    let mut ok = true;
    for i in from..to {
        ok &= scores[i] < scores[i - 1];
    }
    ok
}

// Whether each entry from a place up to another may stand right below the one above it.
fn all_stand(from: usize, to: usize, packed: &[u64], scores: &[f32]) -> bool
    requires { (0 < from) × (from ≤ to) × (to ≤ len packed.now) × (to ≤ len scores.now) }
    ensures { result ≡ each_from (stands packed.now scores.now) from (to - from) }
{
    let mut ok = true;
    for i in from..to {
        let above = entry(i - 1, packed, scores);
        ok &= !entry(i, packed, scores).better(above);
    }
    ok
}

// The same of entries whose scores mostly differ: then one look at the scores tells.
fn mostly_fall(from: usize, to: usize, packed: &[u64], scores: &[f32]) -> bool
    requires { (0 < from) × (from ≤ to) × (to ≤ len packed.now) × (to ≤ len scores.now) }
    ensures { result ≡ each_from (stands packed.now scores.now) from (to - from) }
{
    if all_fall(from, to, scores) {
        return true;
    }
    all_stand(from, to, packed, scores)
}

// Whether the first entries of the slices, at least one, stand best first without a NaN. A NaN is above every score, so in
// a list in order it would stand first. Sixteen entries are looked at together, and those that are left at the end.
fn is_sound(length: usize, packed: &[u64], scores: &[f32]) -> bool
    requires length_nonzero { (0 < length) × (length ≤ len packed.now) }
    requires length_len_bound { length ≤ len scores.now }
    ensures { result ≡ sound (entries (lent length packed.now scores.now)) }
{
    let first = scores[0];
    let mut ok = first == first;
    let mut i = 1usize;
    // no range: the place moves by sixteen, and the rest starts where it ends
    while 16 <= length - i {
        let next = i + 16;
        ok = ok & mostly_fall(i, next, packed, scores);
        i = next;
    }
    ok & all_stand(i, length, packed, scores)
}

// Whether refusal 12 finds no fault with a kept list: at most k entries, no more than the buffers hold, best first, no NaN.
pub fn is_well_kept(k: u64, length: u64, packed: &[u64], scores: &[f32]) -> bool
    ensures { result ≡ well_kept k (lent length packed.now scores.now) }
{
    let n = length as usize;
    if !((length <= k) & ((n <= packed.len()) & (n <= scores.len()))) {
        return false;
    }
    if n == 0 {
        return true;
    }
    is_sound(n, packed, scores)
}

// How many entries there are after a push.
pub fn after_push(k: u64, length: u64) -> u64
    ensures { result ≡ min (suc length) k }
{
    if length < k { length + 1 } else { k }
}

// The verdict on a push.
fn admit(k: u64, length: u64, packed: &[u64], scores: &[f32], e: Scored) -> Result<(), Refusal>
    ensures { result ≡ verdict_of k e (lent length packed.now scores.now) }
{
    if k == 0 {
        return Err(Refusal::NothingToKeep);
    }
    let x = e.score;
    if !(is_well_kept(k, length, packed, scores) & (x == x)) {
        return Err(Refusal::WrongKeptList);
    }
    let need = after_push(k, length) as usize;
    if !((need <= packed.len()) & (need <= scores.len())) {
        return Err(Refusal::BufferTooShort);
    }
    Ok(())
}

// A push onto the kept list. Refused with 11 where k is 0; with 12 where the kept entries number more than k or than the
// buffers hold, are out of order, or they or the pushed score hold a NaN; with 4 where a buffer has no place for the result.
// A refused push changes nothing.
pub fn push(
    k: u64,
    length: &mut u64,
    packed: &mut [u64],
    scores: &mut [f32],
    e: Scored,
) -> Result<(), Refusal>
    ensures { left result (lent length.new packed.new scores.new)
        ≡ pushed k e (lent length.old packed.old scores.old) }
{
    admit(k, *length, packed, scores, e)?;
    kept_list::settle(k, length, packed, scores, e);
    Ok(())
}
