//! Tests of what cannot be played on the program: streams that fail in their middle, want of memory, and lines that tell what goes
//! over them.
#![tactic(auto)]

#[cfg(test)]
mod links;
#[cfg(test)]
mod loops;
#[cfg(test)]
mod page;
#[cfg(test)]
mod terminals;
#[cfg(test)]
mod trace;
