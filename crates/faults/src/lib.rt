// What a table is refused for, numbers 2 and 4 to 11: each fault with its opposite, and the order in which they are asked.
// No function stands here.
#![tactic(auto)]
