//! What is told of calls, as lines of JSON.
use crate::service::SipService;
use fax_user_agent::{CallTold, Direction, Progress, Told};
use json::Writer;
use std::alloc::AllocError;

/// The name of a direction in an event.
pub(crate) fn direction_name(direction: Direction) -> &'static str {
    match direction {
        Direction::In => "in",
        Direction::Out => "out",
    }
}

/// The name of how far a call is.
fn progress_name(progress: Progress) -> &'static str {
    match progress {
        Progress::Begun => "begun",
        Progress::Answered => "answered",
        Progress::Refused(_) => "refused",
        Progress::Over => "over",
    }
}

/// Writes a member whose value is a text.
fn put_text(writer: &mut Writer, name: &str, text: &str) -> Result<(), AllocError> {
    writer.key(name)?;
    writer.string(text)
}

/// Writes a member whose value is a number.
fn put_number(writer: &mut Writer, name: &str, number: u64) -> Result<(), AllocError> {
    writer.key(name)?;
    writer.u64(number)
}

/// Writes what is told of a call.
fn put_call(writer: &mut Writer, trunk: &str, told: &CallTold) -> Result<(), AllocError> {
    put_text(writer, "trunk", trunk)?;
    put_number(writer, "call", told.call)?;
    put_text(writer, "direction", direction_name(told.direction))?;
    let number = std::str::from_utf8(told.number.as_slice()).unwrap_or("");
    put_text(writer, "number", number)?;
    put_text(writer, "state", progress_name(told.progress))?;
    match told.progress {
        Progress::Refused(status) => put_number(writer, "code", u64::from(status)),
        Progress::Begun | Progress::Answered | Progress::Over => Ok(()),
    }
}

/// Writes whether we are registered with a trunk.
fn put_registration(
    writer: &mut Writer,
    trunk: &str,
    is_registered: bool,
) -> Result<(), AllocError> {
    put_text(writer, "trunk", trunk)?;
    let state = if is_registered {
        "registered"
    } else {
        "unregistered"
    };
    put_text(writer, "state", state)
}

impl SipService {
    /// The name of a trunk.
    fn trunk_name(&self, trunk: usize) -> &str {
        match self.trunks.get(trunk) {
            Some(trunk) => trunk.name.as_str(),
            None => "",
        }
    }

    /// The line of an event `sip`, its line feed with it.
    pub fn event_line(&self, told: &Told, at: u64) -> Result<Vec<u8>, AllocError> {
        let mut writer = Writer::new(Vec::new(self.alloc));
        writer.begin_object()?;
        put_text(&mut writer, "event", "sip")?;
        put_number(&mut writer, "at", at)?;
        match told {
            Told::Call(call) => put_call(&mut writer, self.trunk_name(call.trunk), call)?,
            Told::Registration(trunk, is_registered) => {
                put_registration(&mut writer, self.trunk_name(*trunk), *is_registered)?;
            }
        }
        writer.end_object()?;
        let mut line = writer.into_inner();
        match line.push(b'\n') {
            Ok(()) => Ok(line),
            Err(_) => Err(AllocError),
        }
    }
}
