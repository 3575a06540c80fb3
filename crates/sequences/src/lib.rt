// Words on lists that the definitions of several crates share, and their laws: specs/ and specs/Laws/ have them. There is no code.
#![tactic(auto)]
