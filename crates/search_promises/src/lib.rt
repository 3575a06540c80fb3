// What follows of a search from its contract and its answer, for a caller who knows nothing else of it. Theorems alone, above everything
// that searches.
#![tactic(auto)]
