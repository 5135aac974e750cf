// Theory alone: split lists and weight counters over items of any type, what steps make of them, and a family's lent memory read as their state (specs/);
// what is read after a take, an append and a join (proofs/).
#![tactic(auto)]
