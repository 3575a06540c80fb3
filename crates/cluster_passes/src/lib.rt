// What both modes' passes over the documents have in common: a centroid's rank by binary search, what a pass leaves, the centroids'
// index in slices with room, and counts by rank. Definitions and laws alone; the code stands over them.
#![tactic(auto)]
