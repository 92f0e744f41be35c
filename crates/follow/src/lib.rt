// Lists that are followed: their items done one by one, up to the first that fails. A log grown back and a log replayed are such lists.
// No function stands here.
#![tactic(auto)]
