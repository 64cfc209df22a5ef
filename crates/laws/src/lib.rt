// Laws of the ways in which the definitions of `rules` are put together: faults, lists, rows, reads. They stand in specs/; there is no code here.
#![tactic(auto)]
