// Region records: how they are read, and which lists of them are accepted. The solver and lay go by these.
#![tactic(auto)]

pub mod accept;
pub mod region;
