// Numbers that must not be taken for one another: each kind has a type of its own around one number.
#![tactic(auto)]

// The number of a document among all documents, from 0 on.
#[derive(Clone, Copy)]
pub struct DocumentId(pub u64);

// The place among all terms where a document's terms start.
#[derive(Clone, Copy)]
pub struct RangeStart(pub u64);

// The place of a centroid among the centroids that are listed.
#[derive(Clone, Copy)]
pub struct CentroidSlot(pub u64);

// The place of a centroid among the centroids in rising order: slots go by the order of the list, ranks by the ids. Blocks stand in the
// order of their centroids' ranks.
#[derive(Clone, Copy)]
pub struct CentroidRank(pub u64);

// The number of a block of a posting list, which is also the number of its summary.
#[derive(Clone, Copy)]
pub struct BlockNumber(pub u64);
