// What is proved of the definitions of `rules` alone. It stands in specs/ and proofs/; there is no code here.
#![tactic(auto)]
