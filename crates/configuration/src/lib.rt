// How one posting list is to be built: the caller's choices, by value. Any f32 may stand in them, a NaN too.
#![tactic(auto)]

// How a list's postings are cut into blocks.
#[derive(Clone, Copy)]
pub enum BlockingStrategy {
    // blocks of this many postings, as the list has them
    FixedSize {
        block_size: u64,
    },
    // blocks by nearest centroid; the centroids are given beside
    RandomKmeans {
        // the centroids' number, as a fraction of the list's length
        centroid_fraction: f32,
        // a group of at most so many postings dissolves
        min_cluster_size: u64,
        clustering_algorithm: ClusteringAlgorithm,
    },
}

// How the nearest centroid is found. No Option of a cut: each is an algorithm of its own.
#[derive(Clone, Copy)]
pub enum ClusteringAlgorithm {
    // by the dot product with each centroid
    RandomKmeans,
    // by the so many largest terms of a document alone
    RandomKmeansInvertedIndexApprox { doc_cut: u64 },
}

// Which of a block's greatest terms its summary keeps.
#[derive(Clone, Copy)]
pub enum SummarizationStrategy {
    // this many
    FixedSize { n_components: u64 },
    // as many as reach this fraction of the sum of all
    EnergyPreserving { summary_energy: f32 },
}
