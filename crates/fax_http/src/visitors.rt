//! Who looks at a server over HTTP: a listener, and at most 16 connections at one time, each for one request and for 5 s at most. Nothing
//! here waits: what has come is read and what is taken is written where it is asked for, a little of each connection at a time.

mod place;
mod visitor;
mod visitors;

pub use visitors::{MOST_VISITORS, Visitors};
