// Theory alone: what the calls of every family of jobs share. Where the words stand, numbers and lengths, tests of words, plans, the shared
// rows of the table, begin's answer (specs/), and what is proved of them (proofs/).
#![tactic(auto)]
