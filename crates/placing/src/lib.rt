// Direct placement, one cassette at a time: lift by lift a cassette above the floor comes to a row above the floor of another shaft, the next one or lower, or leaves its own shaft.
#![tactic(auto)]

pub mod leave;
pub mod place;
