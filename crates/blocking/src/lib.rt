// How a posting list is cut into blocks: by a fixed size, or by a number of centroids.
#![tactic(auto)]

use refusal::Refusal;

pub mod limits;

ghost use Rattle.std.specs.Prelude.{◌≡◌, ◌*◌, ◌≤◌, ◌<◌, ◌/◌, length};
ghost use Rattle.blocking.specs.Blocking.{blocked, offsets_left, in_front, fixed_offsets, centroid_count};

use limits::{list_too_long, too_many_blocks};

// Writes where each block of a list of `ids` starts, and then where the last one ends: one more than there are blocks. Each
// block has `block_size` ids, but for the last, which has what is left too. Answers how many offsets it wrote, or why none.
// Past the offsets nothing changes, and a refusal changes nothing at all. It takes time in proportion to the number of blocks.
pub fn fixed_size_blocking(
    ids: u64,
    block_size: u64,
    block_offsets: &mut [u64],
) -> Result<u64, Refusal>
    ensures answer { result ≡ blocked ids block_size block_offsets.old }
    ensures block_offsets { block_offsets.new ≡ offsets_left ids block_size block_offsets.old }
{
    if list_too_long(ids) {
        return Err(Refusal::OutsideLimits);
    }
    if block_size == 0 {
        return Err(Refusal::NoBlockSize);
    }
    let blocks = ids / block_size;
    if too_many_blocks(blocks) {
        return Err(Refusal::OutsideLimits);
    }
    if block_offsets.len() as u64 <= blocks {
        return Err(Refusal::BufferTooShort);
    }
    write_offsets(ids, block_size, blocks as usize, block_offsets);
    Ok(blocks + 1)
}

// Writes the starts of as many blocks as there are, and then the end of the list.
fn write_offsets(ids: u64, block_size: u64, blocks: usize, block_offsets: &mut [u64])
    requires { (blocks ≡ ids / block_size) × (blocks < length block_offsets.old) × (blocks * block_size ≤ ids) }
    ensures { block_offsets.new ≡ in_front (fixed_offsets ids block_size) block_offsets.old }
{
    for i in 0..blocks {
        block_offsets[i] = i as u64 * block_size;
    }
    block_offsets[blocks] = ids;
}

// How many centroids a list of `ids` is to have: the fraction of its length, cut to a whole number, and at least 1.
pub fn centroid_count(fraction: f32, ids: u64) -> u64
    ensures { result ≡ centroid_count fraction ids }
{
    let count = float32::scaled_length(fraction, ids);
    if count < 1 { 1 } else { count }
}
