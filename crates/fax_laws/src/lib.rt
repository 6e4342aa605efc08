//! Laws over the traces of gateways, and over what stands at both ends of them: how long a gateway takes at most, two gateways in a row,
//! good jobs that get through, and exchanges that end well.
#![tactic(auto)]

pub mod chains;
pub mod deadlines;
pub mod delivery;
pub mod exchanges;
