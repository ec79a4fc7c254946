// What closings leave in tables of labels, and lemmas on them.
#![tactic(auto)]
