// What building one posting list means: its result, its refusals, the room that it needs, and what it leaves in the lent buffers.
// Definitions, promises and the answer's type alone; the code stands over them.
#![tactic(auto)]

use refusal::Refusal;

// How many numbers of the result stand at the front of the output buffers.
#[derive(Drop)]
pub struct BuiltSizes {
    // of packed postings
    pub postings: u64,
    // of block offsets: one more than there are blocks, or none
    pub block_offsets: u64,
    // of components in the summaries; their offsets are one more
    pub summary_components: u64,
    // of summary ids, and of codes
    pub entries: u64,
    // of minimums, and of steps
    pub summaries: u64,
}
