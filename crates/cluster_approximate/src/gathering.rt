// The centroids that remain after the first pass.
ghost use Rattle.std.specs.Prelude.{◌≡◌, cond, [], ◌∷◌, ◌++◌, ◌+◌, ◌≤◌, ◌<◌, length, take};
ghost use Rattle.cluster_approximate.specs.Approximate.{remaining};

use cluster_ranks::{is_small, rank};
use number_types::DocumentId;

// Puts a centroid behind the first n of a slice unless its group dissolves, and answers how many these are then.
fn push(dissolves: bool, centroid: DocumentId, competing: &mut [u64], n: usize) -> usize
    requires { n < length competing.old }
    ensures gathered { take result competing.new ≡ take n competing.old ++ cond dissolves [] (centroid.0 ∷ []) }
    ensures room { result ≤ n + 1 }
{
    if dissolves {
        return n;
    }
    competing[n] = centroid.0;
    n + 1
}

// Leaves the centroids whose groups don't dissolve, those that drew nothing included, as they come at the front of a slice, and
// answers how many these are.
pub(crate) fn gather(
    minimum: u64,
    centroids: &[u64],
    known: &[u64],
    counts: &[u64],
    competing: &mut [u64],
) -> usize
    requires { length centroids.now ≤ length competing.old }
    ensures gathered { take result competing.new ≡ remaining known.now counts.now minimum centroids.now }
    ensures room { result ≤ length competing.old }
{
    let mut n = 0usize;
    for id in centroids {
        let centroid = DocumentId(*id);
        let r = rank(known, centroid);
        let dissolves = is_small(counts, minimum, r);
        n = push(dissolves, centroid, competing, n);
    }
    n
}
