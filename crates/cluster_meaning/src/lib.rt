// What the clusters of a posting list's documents are, in both modes: document 01, "Clusters". Definitions, promises and laws alone;
// the code stands over them.
#![tactic(auto)]
