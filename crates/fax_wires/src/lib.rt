//! What stands between a gateway and the wires that it is driven over: a wire that sends again what may have been lost, and one that holds
//! what confirms a page until the page is stored.
#![tactic(auto)]

pub mod holding;
pub mod repeat;
