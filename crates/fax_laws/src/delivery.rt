//! A good job gets through: laws of calls over links that hand on each packet once and in order.

pub mod laws;
