// Skins: stages with the coordinates of their corners.
// No function stands here. The limit of a coordinate is a const, beside its definition in specs/Limits.antt.
#![tactic(auto)]

pub const MOST_COORDINATE: i32 = 50000;
