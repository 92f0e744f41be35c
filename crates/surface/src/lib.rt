// The theory of surfaces: rows, rings, stages, the link condition, contraction, the record of a step, the Euler number.
// No function stands here. The limits of a table are consts, each beside its definition in specs/Limits.antt.
#![tactic(auto)]

pub const LEAST_ROWS: usize = 4;

pub const MOST_ROWS: usize = 1024;

pub const LEAST_CORNERS: usize = 4;

pub const MOST_CORNERS: usize = 514;
