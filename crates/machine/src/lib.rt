// Theory alone: lists of calls over any machine, and what of them stands when accepted steps may be taken back (specs/); what holds of all such lists (proofs/).
#![tactic(auto)]
