// What follows of a built list from the definitions, in the words of document 01. Theorems alone, above everything that builds.
#![tactic(auto)]
