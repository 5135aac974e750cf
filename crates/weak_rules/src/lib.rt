// Theory alone: the lent memory of a weak job, begin and the four weak steps as definitions, the refusal table (specs/), and what is
// promised of one call (proofs/).
#![tactic(auto)]
