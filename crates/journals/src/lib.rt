// Theory alone: a machine with a journal over any machine without one (specs/), and that what stands of its calls is a list of calls without steps back (proofs/).
#![tactic(auto)]
