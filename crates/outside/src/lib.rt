// What the programs that run the second program's vectors share.
#![tactic(auto)]

pub mod boards;
pub mod bundles;
