// A build's choices and its answer as numbers, as C has them: a number chooses a strategy, and an answer becomes a number with five sizes.
#![tactic(auto)]

ghost use Rattle.std.specs.Prelude.{◌≡◌};
ghost use Rattle.build_meaning.specs.Building.{numbers, in_numbers};
ghost use Rattle.c_build.specs.Chosen.{algorithm_of, blocking_of, summarization_of};

use build_meaning::BuiltSizes;
use refusal::Refusal;
use configuration::{BlockingStrategy, ClusteringAlgorithm, SummarizationStrategy};

// How the nearest centroid is found: 1 is by each dot product, 2 by a document's largest terms. Any other number does as 2, and is
// reserved.
fn algorithm_of(blocking: u64, doc_cut: u64) -> ClusteringAlgorithm
    ensures { result ≡ algorithm_of blocking doc_cut }
{
    if blocking == 1 {
        return ClusteringAlgorithm::RandomKmeans;
    }
    ClusteringAlgorithm::RandomKmeansInvertedIndexApprox { doc_cut }
}

// How the postings are cut into blocks: 0 is by a fixed size, 1 and 2 by nearest centroid. Any other number does as 2, and is reserved.
pub fn blocking_of(
    blocking: u64,
    block_size: u64,
    centroid_fraction: f32,
    min_cluster_size: u64,
    doc_cut: u64,
) -> BlockingStrategy
    ensures { result ≡ blocking_of blocking block_size centroid_fraction min_cluster_size doc_cut }
{
    if blocking == 0 {
        return BlockingStrategy::FixedSize { block_size };
    }
    BlockingStrategy::RandomKmeans {
        centroid_fraction,
        min_cluster_size,
        clustering_algorithm: algorithm_of(blocking, doc_cut),
    }
}

// Which terms a summary keeps: 0 is a fixed number of them, 1 by energy. Any other number does as 1, and is reserved.
pub fn summarization_of(
    summarization: u64,
    n_components: u64,
    summary_energy: f32,
) -> SummarizationStrategy
    ensures { result ≡ summarization_of summarization n_components summary_energy }
{
    if summarization == 0 {
        return SummarizationStrategy::FixedSize { n_components };
    }
    SummarizationStrategy::EnergyPreserving { summary_energy }
}

// The number of a build's answer, and the sizes of the list that it built: each is 0 where it was refused.
pub fn show_built(
    answer: Result<BuiltSizes, Refusal>,
    postings: &mut u64,
    block_offsets: &mut u64,
    summary_components: &mut u64,
    entries: &mut u64,
    summaries: &mut u64,
) -> u64
    ensures { numbers result postings.new block_offsets.new summary_components.new entries.new summaries.new ≡ in_numbers answer }
{
    *postings = 0;
    *block_offsets = 0;
    *summary_components = 0;
    *entries = 0;
    *summaries = 0;
    match answer {
        Err(reason) => reason.number(),
        Ok(sizes) => {
            *postings = sizes.postings;
            *block_offsets = sizes.block_offsets;
            *summary_components = sizes.summary_components;
            *entries = sizes.entries;
            *summaries = sizes.summaries;
            0
        }
    }
}
