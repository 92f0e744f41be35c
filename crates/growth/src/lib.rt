// The theory of growing back: what a record makes of a table, and when it is accepted. It undoes a contraction, number for number.
// No function stands here.
#![tactic(auto)]
