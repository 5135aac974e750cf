// Theory alone: what the proofs of document 01's calls share, the lent lists and each call that they make as a rule (proofs/).
#![tactic(auto)]
