// The keys that a list's blocks keep, stored by the first pass over the blocks and read by the second, so that a block is summarized once.
// A store has frames from its start on: how many keys a block keeps, and then these keys. A block that finds no place is not stored, nor
// is any after it.
#![tactic(auto)]

ghost use Rattle.std.specs.Prelude.{◌≡◌, ◌+◌, ◌-◌, ◌≤◌, length, drop};
ghost use Rattle.std.proofs.lemmas.List.Edits.{sets};
ghost use Rattle.build_kept_keys.specs.Frames.{frame, place_after, in_front};

// Stores a block's keys at a place, with their number in front, and answers the place after them. Where they find no place nothing is
// written, and the answer is the end of the store, where no later block finds one. It takes time in proportion to the keys.
pub fn keep(at: usize, keys: &[u64], store: &mut [u64]) -> usize
    ensures place { result ≡ place_after at (length keys.now) (length store.old) }
    ensures store { store.new ≡ sets store.old at (frame (length store.old - at) keys.now) }
{
    let size = store.len();
    let n = keys.len();
    if size.saturating_sub(at) <= n {
        return size;
    }
    let from = at + 1;
    let end = from + n;
    store[at] = n as u64;
    cells::copy(keys, &mut store[from..end]);
    end
}

// How many keys the frame at a place of the store has, which stand from the next place on; 0 where there is none. It takes a look at one
// number.
pub fn frame_length(at: usize, store: &[u64]) -> usize
    ensures { result ≡ in_front (drop at store.now) }
{
    let places = store.len().saturating_sub(at);
    let n = cells::at(store, at, 0);
    if n < places as u64 { n as usize } else { 0 }
}
