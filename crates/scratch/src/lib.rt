// The eleven buffers that a build works in, by role: how long each is, and in specs/ what stands in them. A clustering is lent the same.
#![tactic(auto)]

// A length for each scratch buffer.
#[derive(Drop)]
pub struct ScratchLengths {
    // the documents in list order
    pub order: u64,
    // block offsets
    pub blocks: u64,
    // ids sorted
    pub sorted: u64,
    // centroids sorted
    pub known: u64,
    // the centroid that took each document
    pub taken: u64,
    // how many a centroid took, later a component's place
    pub counts: u64,
    // where the centroids' entries of each component start, later counts and cursors by component
    pub starts: u64,
    // the slots of these entries
    pub slots: u64,
    // and their weights
    pub weights: u64,
    // scores by slot, later maxima by component
    pub sums: u64,
    // a document's terms, later a block's keys
    pub keys: u64,
}
