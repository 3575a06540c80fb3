// What is told of a posting is what became of it: a reason that crate explain gives is a fate in the story of the search. Everything is in
// specs/.
#![tactic(auto)]
