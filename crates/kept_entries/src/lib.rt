// The kept list as a lent slice of scored entries.
#![tactic(auto)]

ghost use Rattle.std.specs.Prelude.{◌≡◌, ◌<◌, ◌-◌, ◌+◌, min, length as len, get_or};
ghost use Rattle.kept_list.specs.Lent.{inserted, settled};
ghost use Rattle.kept_list.specs.Push.{well_kept, left, pushed};
ghost use Rattle.kept_entries.specs.Entries.{no_entry, as_lent, goes_in};
ghost use Rattle.kept_entries.specs.Answers.{verdict_by, verdict_in, length_in};

use kept_list::Scored;
use refusal::Refusal;

// What is read where there is no entry: a NaN, which no kept list has.
fn no_entry() -> Scored
    ensures { result ≡ no_entry }
{
    Scored::new(0, 0.0 / 0.0)
}

// The entry at a place; past the end one with a NaN.
pub fn entry(entries: &[Scored], at: usize) -> Scored
    ensures { result ≡ get_or entries.now at no_entry }
{
    if entries.len() <= at {
        return no_entry();
    }
    entries[at]
}

// The entry is laid down at a place and goes up past the worse ones right above it, exchanged with each.
pub(crate) fn insert(entries: &mut [Scored], at: usize, e: Scored)
    requires { at < len entries.old }
    ensures { as_lent (at + 1) entries.new ≡ inserted e (as_lent at entries.old) }
{
    entries[at] = e;
    for j in (0..at).rev() {
        let over = entries[j];
        if !e.better(over) {
            return;
        }
        entries[j + 1] = over;
        entries[j] = e;
    }
}

// Where the worst of k entries stands, or the last place where there are fewer.
fn worst_place(k: u64, room: usize) -> usize
    ensures { result ≡ min (k - 1) (room - 1) }
{
    let last = (k as usize).saturating_sub(1);
    let end = room.saturating_sub(1);
    last.min(end)
}

// Whether an entry comes into the list: below k where there is a place for it, at k where it is better than the worst.
fn goes_in(k: u64, length: u64, room: usize, worst: Scored, e: Scored) -> bool
    ensures { result ≡ goes_in k length room worst e }
{
    let n = length as usize;
    let most = k as usize;
    ((n < most) & (n < room)) | ((((n == most) & (most <= room)) & (0 < most)) & e.better(worst))
}

// Where it is laid down: past the others, and at k in place of the worst.
fn place_of(k: u64, length: u64) -> usize
    ensures { result ≡ min length (k - 1) }
{
    let n = length as usize;
    let last = (k as usize).saturating_sub(1);
    n.min(last)
}

// A push without its refusals onto the first `length` entries; it answers how many there are then. Below k the entry is added; at k
// it replaces the worst one only if it is better. Nothing changes where more than k are kept or there is no place.
pub fn settle(k: u64, length: u64, entries: &mut [Scored], e: Scored) -> u64
    ensures { as_lent result entries.new ≡ settled k e (as_lent length entries.old) }
{
    let room = entries.len();
    if room == 0 {
        return length;
    }
    let last = worst_place(k, room);
    let worst = entries[last];
    if !goes_in(k, length, room, worst, e) {
        return length;
    }
    let at = place_of(k, length);
    insert(entries, at, e);
    (at + 1) as u64
}

// Whether refusal 12 finds no fault with a kept list: at most k entries, no more than the slice holds, best first, no NaN.
pub fn is_well_kept(k: u64, length: u64, entries: &[Scored]) -> bool
    ensures { result ≡ well_kept k (as_lent length entries.now) }
{
    let n = length as usize;
    if !((length <= k) & (n <= entries.len())) {
        return false;
    }
    let mut above = entry(entries, 0);
    let x = above.score;
    let mut ok = (n == 0) | (x == x);
    for i in 1..n {
        let e = entry(entries, i);
        ok &= !e.better(above);
        above = e;
    }
    ok
}

// The verdict on a push onto so many entries in a slice with so much room, of which it is known whether they are well kept.
fn admit(k: u64, length: u64, room: usize, sound: bool, e: Scored) -> Result<(), Refusal>
    ensures { result ≡ verdict_by k length room sound e }
{
    if k == 0 {
        return Err(Refusal::NothingToKeep);
    }
    let x = e.score;
    if !(sound & (x == x)) {
        return Err(Refusal::WrongKeptList);
    }
    let need = kept_push::after_push(k, length) as usize;
    if room < need {
        return Err(Refusal::BufferTooShort);
    }
    Ok(())
}

// A push onto the first `length` entries. Refused with 11 where k is 0; with 12 where the kept entries number more than k or than
// the slice holds, are out of order, or they or the pushed score hold a NaN; with 4 where the slice has no place for the result.
// A refused push changes nothing.
pub fn push(k: u64, length: u64, entries: &mut [Scored], e: Scored) -> Result<u64, Refusal>
    ensures { left (verdict_in result) (as_lent (length_in length result) entries.new) ≡ pushed k e (as_lent length entries.old) }
{
    let room = entries.len();
    let sound = is_well_kept(k, length, entries);
    admit(k, length, room, sound, e)?;
    Ok(settle(k, length, entries, e))
}

// What a push onto an array of entries leaves: its answer, and the entries.
#[derive(Drop)]
pub struct Few {
    pub answer: Result<u64, Refusal>,
    pub entries: [Scored; 16],
}

// A push onto the first `length` of sixteen entries that are held by value, as `push`: for callers that have no slice of entries to lend.
pub fn push_few(k: u64, length: u64, entries: [Scored; 16], e: Scored) -> Few
    ensures { left (verdict_in result.answer) (as_lent (length_in length result.answer) result.entries) ≡ pushed k e (as_lent length entries) }
{
    let mut list = entries;
    let answer = push(k, length, &mut list, e);
    Few {
        answer,
        entries: list,
    }
}
