// Tests that the checker computes: a table that passes is a stage, an edge that passes meets the link condition, a run that passes is a run.
// They serve the trial cases. No function stands here.
#![tactic(auto)]
