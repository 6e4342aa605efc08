//! Tests of the book of jobs, and of the gateway with its engine, through what these crates show: what no run of the program does.
#![tactic(auto)]

#[cfg(test)]
mod gateway;
#[cfg(test)]
mod jobs;
#[cfg(test)]
mod memory;
