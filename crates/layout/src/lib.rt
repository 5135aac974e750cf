// Theory alone: the layout of task texts as a relation, the reader as a function of the text (specs/), and what is promised
// of them (proofs/).
#![tactic(auto)]
