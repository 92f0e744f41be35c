// The promises: the three demands, and that nothing is left to choose. No function stands here.
#![tactic(auto)]
