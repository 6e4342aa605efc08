//! A configuration that is read again while it is served.
use crate::console::Console;
use crate::descriptors::most_descriptors;
use crate::serving::{config_at, tell, tell_no_memory, tell_too_few};
use fax_command::Status;
use fax_config::{Config, LineConfig};
use std::alloc::{AllocError, Global};
use std::rt::Files;

/// The lines of a configuration that is served, counted from 0, that are not in the one in the file at this path, or not so. `None`: that one
/// cannot be served in its place, and why was told.
pub(crate) fn gone_lines_at<N: Files + AllocGlobal>(
    console: &Console,
    system: &N,
    path: &str,
    served: &Config,
) -> Option<Vec<usize>> {
    let Ok(read) = config_at(console, system, path) else {
        return None;
    };
    if let Some(fault) = fault_beside(served, &read) {
        tell(console, path, fault, Status::Usage);
        return None;
    }
    if tell_too_few(console, path, most_descriptors(&read)).is_some() {
        return None;
    }
    match gone_lines(
        console.alloc(),
        served.lines.as_slice(),
        read.lines.as_slice(),
    ) {
        Ok(gone) => Some(gone),
        Err(AllocError) => {
            tell_no_memory(console, path);
            None
        }
    }
}

/// Why a configuration cannot be served in place of this one: what waits goes from run to run in the spool alone, and words are said on a
/// control socket that stays where it is.
fn fault_beside(served: &Config, read: &Config) -> Option<&'static str> {
    if !stays(&served.control, &read.control) {
        return Some("`control` has to be there, and to stay as it is, while it is served");
    }
    if !stays(&served.spool, &read.spool) {
        return Some("`spool` has to be there, and to stay as it is, while it is served");
    }
    None
}

/// Whether a path is there, and the same.
fn stays(served: &Option<String>, read: &Option<String>) -> bool {
    match (served, read) {
        (Some(served), Some(read)) => served.as_str() == read.as_str(),
        _ => false,
    }
}

/// Those of these lines, counted from 0, that are not among the others, or not so.
fn gone_lines(
    alloc: Global,
    served: &[LineConfig],
    read: &[LineConfig],
) -> Result<Vec<usize>, AllocError> {
    let mut gone = Vec::new(alloc);
    for i in 0..served.len() {
        if !read.contains(&served[i]) {
            gone.push(i)?;
        }
    }
    Ok(gone)
}
