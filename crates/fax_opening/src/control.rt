//! The control socket.
ghost use Rattle.std.specs.Prelude.{IfErr};
ghost use Rattle.fax_opening.specs.Faults.{IsOfControl};

use crate::fault::ServeFault;
use std::fs::{Files, Permissions};
use std::io::ErrorKind;
use std::net::Net;
use std::os::unix::fs::PermissionsExt;
use std::os::unix::net::{UnixListener, UnixStream};
use std::{fs, io};

/// Its owner and its group read and write, and nobody else.
const OWNER_AND_GROUP: u32 = 0o660;

/// Opens the control socket at this path. A file that a server left there which is gone is removed. An `Err` is of this socket.
pub fn open_control<N: Net + Files>(system: &N, path: &str) -> Result<UnixListener, ServeFault>
    ensures { IfErr result IsOfControl }
{
    match bind(system, path) {
        Ok(listener) => Ok(listener),
        Err(error) if error.kind() == ErrorKind::AddrInUse => {
            if UnixStream::connect(system, path).is_ok() {
                return Err(ServeFault::Served);
            }
            match bind_anew(system, path) {
                Ok(listener) => Ok(listener),
                Err(error) => Err(ServeFault::Control(error)),
            }
        }
        Err(error) => Err(ServeFault::Control(error)),
    }
}

/// A listener that does not wait. Its owner and its group may connect, where the folder lets them.
fn bind<N: Net + Files>(system: &N, path: &str) -> io::Result<UnixListener> {
    let listener = UnixListener::bind(system, path)?;
    fs::set_permissions(system, path, Permissions::from_mode(OWNER_AND_GROUP))?;
    listener.set_nonblocking(true)?;
    Ok(listener)
}

/// The same, in place of the file at this path.
fn bind_anew<N: Net + Files>(system: &N, path: &str) -> io::Result<UnixListener> {
    fs::remove_file(system, path)?;
    bind(system, path)
}

/// The file of the control socket is removed. One that cannot be is left.
pub fn close_control<N: Files>(system: &N, path: &str) {
    match fs::remove_file(system, path) {
        Ok(()) | Err(_) => {}
    }
}
