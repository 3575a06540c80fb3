// The limits on a posting list. Building and searching go by these too.
ghost use Rattle.std.specs.Prelude.{◌≡◌, ◌||◌, ltb, eqb};
ghost use Rattle.blocking.specs.Limits.{list_limit, block_limit, centroid_limit, dimension_limit};

// As many ids as a list may have.
pub const LIST_LIMIT: u64 = 16_777_216;

// As many blocks as a list may have.
pub const BLOCK_LIMIT: u64 = 65_535;

// As many centroids as may be asked for.
pub const CENTROID_LIMIT: u64 = 65_535;

// The greatest dimension; the least is 1.
pub const DIMENSION_LIMIT: u64 = 1_048_575;

// Whether a list has more ids than it may.
pub fn list_too_long(ids: u64) -> bool
    ensures { result ≡ ltb list_limit ids }
{
    LIST_LIMIT < ids
}

// Whether a list has more blocks than it may.
pub fn too_many_blocks(blocks: u64) -> bool
    ensures { result ≡ ltb block_limit blocks }
{
    BLOCK_LIMIT < blocks
}

// Whether a list of so many blocks may have one block more.
pub fn block_left(blocks: u64) -> bool
    ensures { result ≡ ltb blocks block_limit }
{
    blocks < BLOCK_LIMIT
}

// Whether more centroids are asked for than may be.
pub fn too_many_centroids(centroids: u64) -> bool
    ensures { result ≡ ltb centroid_limit centroids }
{
    CENTROID_LIMIT < centroids
}

// Whether a dimension is 0 or above its limit.
pub fn dimension_outside(dimension: u64) -> bool
    ensures { result ≡ (eqb dimension 0 || ltb dimension_limit dimension) }
{
    dimension == 0 || DIMENSION_LIMIT < dimension
}
