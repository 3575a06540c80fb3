// What a list's blocks and the layout written from them come to together: the build as a whole. Everything is in specs/Laws/.
#![tactic(auto)]
