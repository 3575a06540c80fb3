// What a turn reads of lent memory and leaves there: its block, the worst kept score, and a scored posting kept. Nothing is assumed of the
// slices.
#![tactic(auto)]

ghost use Rattle.std.specs.Prelude.{◌≡◌, ◌+◌, get_or, set};
ghost use Rattle.std.specs.Float.{nan};
ghost use Rattle.kept_list.specs.Entry.{scored};
ghost use Rattle.kept_list.specs.Lent.{lent, settled};
ghost use Rattle.search_held.specs.Blocks.{worst_held, block_at};

use kept_list::Scored;
use number_types::{BlockNumber, RangeStart};
use packing::PackedPosting;

// The blocks of a list and their turns as they are lent: where each block starts and the last one ends, their scores, and the numbers
// of the blocks in the order of their turns.
#[derive(Clone, Copy)]
pub struct Turns<'a> {
    pub block_offsets: &'a [u64],
    pub block_scores: &'a [f32],
    pub block_order: &'a [u64],
}

// A block at its turn: its score, and where its postings start and end.
#[derive(Drop)]
pub struct Block {
    pub score: f32,
    pub start: u64,
    pub end: u64,
}

// The score of a block, or a NaN where there is none: with it no block is skipped.
pub fn dot_at(block_scores: &[f32], block: BlockNumber) -> f32
    ensures { result ≡ get_or block_scores.now block.0 nan }
{
    cells::at(block_scores, block.0 as usize, 0.0 / 0.0)
}

// The worst kept score, the last one; a NaN where nothing is kept.
pub fn worst_kept(length: u64, scores: &[f32]) -> f32
    ensures { result ≡ worst_held length scores.now }
{
    if length == 0 {
        return 0.0 / 0.0;
    }
    cells::at(scores, (length - 1) as usize, 0.0 / 0.0)
}

// A block starts at its own offset, and at 0 where there is none.
pub fn start_at(block_offsets: &[u64], block: BlockNumber) -> u64
    ensures { result ≡ get_or block_offsets.now block.0 0 }
{
    cells::at(block_offsets, block.0 as usize, 0)
}

// The end of a block is the offset after its own; the last number of all has none after it.
pub fn end_at(block_offsets: &[u64], block: BlockNumber) -> u64
    ensures { result ≡ get_or block_offsets.now (block.0 + 1) 0 }
{
    let at = block.0 as usize;
    if at < block_offsets.len() {
        cells::at(block_offsets, at + 1, 0)
    } else {
        0
    }
}

// The number of the block whose turn it is: the order's, as far as it goes.
pub fn number_at(block_order: &[u64], turn: u64) -> BlockNumber
    ensures { result.0 ≡ get_or block_order.now turn turn }
{
    BlockNumber(cells::at(block_order, turn as usize, turn))
}

// What a turn needs to know of the block whose turn it is.
pub fn block_at(course: Turns<'_>, turn: u64) -> Block
    ensures { result ≡ block_at course.entry.block_offsets.now course.entry.block_scores.now (get_or course.entry.block_order.now turn turn) }
{
    let block = number_at(course.block_order, turn);
    let score = dot_at(course.block_scores, block);
    let start = start_at(course.block_offsets, block);
    let end = end_at(course.block_offsets, block);
    Block {
        score: score,
        start: start,
        end: end,
    }
}

// A posting that was scored is kept if it is among the k best, and its start is marked.
pub fn keep_found(
    k: u64,
    posting: PackedPosting,
    start: RangeStart,
    score: f32,
    length: &mut u64,
    packed: &mut [u64],
    scores: &mut [f32],
    visits: &mut [u8],
)
    ensures kept { lent length.new packed.new scores.new
        ≡ settled k (scored posting.0 score) (lent length.old packed.old scores.old) }
    ensures visits { visits.new ≡ set visits.old start.0 1 }
{
    let e = Scored {
        packed: posting.0,
        score: score,
    };
    kept_list::settle(k, length, packed, scores, e);
    search_steps::visit(visits, start);
}
