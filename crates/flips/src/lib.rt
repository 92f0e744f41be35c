// The theory of flips: the flip of an edge, its record, and how a record is undone. No function stands here.
#![tactic(auto)]
