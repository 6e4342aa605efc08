//! What a server is supervised by.
use fax_notify::ServiceManager;

/// What a server is supervised by: what is told of it, and who reads its configuration again.
pub trait Supervisor: ServiceManager {
    /// Reads the configuration again. It answers which lines of the server, counted from 0, are not in it, or not so: another run can serve
    /// it. `None`: none can, and why was told.
    fn reread(&mut self) -> Option<Vec<usize>>;
}
