// The theory of thinning: the least edge that qualifies, and the run of steps that ends where none does. No function stands here.
#![tactic(auto)]
