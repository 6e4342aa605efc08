//! Options that several commands have, and their limits.
use crate::arguments::building::{Argument, Need, Shape};
use clap::builder::ValueParser;
use fax_gateway::{LEAST_PREAMBLE_MS, MOST_PREAMBLE_MS, MOST_REDUNDANCY};

/// The option of the width.
pub(crate) const WIDTH: Argument = Argument {
    name: "width",
    shape: Shape::Option("ELEMENTS"),
    help: "The elements of each row",
    values: Some(ValueParser::Names(&["1728", "2048", "2432"])),
    need: Need::Default("1728"),
};

/// The option of the coding.
pub(crate) const CODING: Argument = Argument {
    name: "coding",
    shape: Shape::Option("CODING"),
    help: "One-dimensional lines (mh), or two-dimensional ones among them (mr)",
    values: Some(ValueParser::Names(&["mh", "mr"])),
    need: Need::Default("mh"),
};

/// The option of the redundancy.
pub(crate) const REDUNDANCY: Argument = Argument {
    name: "redundancy",
    shape: Shape::Option("PACKETS"),
    help: "How many of the packets before its own each datagram has, from 0 to 8",
    values: Some(ValueParser::Unsigned(0, MOST_REDUNDANCY as u64)),
    need: Need::Default("3"),
};

/// The option of the pause after a preamble.
pub(crate) const PREAMBLE: Argument = Argument {
    name: "preamble",
    shape: Shape::Option("MS"),
    help: "How long the packet after a preamble waits, from 40 to 2000 milliseconds: 1000 where a machine stands behind a media gateway",
    values: Some(ValueParser::Unsigned(LEAST_PREAMBLE_MS as u64, MOST_PREAMBLE_MS as u64)),
    need: Need::Default("40"),
};

/// The option of calls that are asked for.
pub(crate) const ASKS: Argument = Argument {
    name: "asks",
    shape: Shape::Flag,
    help: "Ask for the call of a job, and begin it when it is placed; else the gateway begins it by itself",
    values: None,
    need: Need::Free,
};

/// The option of repeats.
pub(crate) const REPEAT: Argument = Argument {
    name: "repeat",
    shape: Shape::Option("POLICY"),
    help: "How often the last datagram is sent again while no newer one is: six times within 1.3 s (full), once (last), or never (none)",
    values: Some(ValueParser::Names(&["full", "last", "none"])),
    need: Need::Default("full"),
};
