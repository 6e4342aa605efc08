//! Two gateways in a row: laws of the octets that go from the one to the other.

pub mod laws;
