//! Tests of what is coded: bits, code words, lines and pages, TIFF files, frames, packets and datagrams, through what these crates show.
#![tactic(auto)]

#[cfg(test)]
mod bits;
#[cfg(test)]
mod faults;
#[cfg(test)]
mod frames;
#[cfg(test)]
mod ifp;
#[cfg(test)]
mod mhcode;
#[cfg(test)]
mod mrcode;
#[cfg(test)]
mod pagestore;
#[cfg(test)]
mod runcodes;
#[cfg(test)]
mod tiff;
#[cfg(test)]
mod udptl;
