//! Exchanges over good lines end well: laws of a page that is sent through a gateway.

pub mod laws;
