// Theory alone: the lent memory, begin and the four steps as definitions, the refusal table (specs/), and what is
// promised of one call (proofs/).
#![tactic(auto)]
