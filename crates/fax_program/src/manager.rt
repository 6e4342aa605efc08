//! What a server is supervised by: a service manager, as the environment names it, and the file of its configuration.
use crate::console::Console;
use crate::failures::tell;
use crate::reloading::gone_lines_at;
use fax_config::Config;
use fax_notify::{LocalSockets, Notice, ServiceManager, send_notice};
use fax_serve::Supervisor;
use std::alloc::Global;
use std::cell::Cell;
use std::env;
use std::env::VarError;
use std::net::Net;
use std::rt::{Env, Files};

/// The variable that names the socket of a service manager (sd_notify(3)).
const VARIABLE: &str = "NOTIFY_SOCKET";

/// The service manager whose socket has this name, or nobody; and the configuration that is served, and its file. What fails is told in a
/// line on the standard error.
#[derive(Drop)]
pub(crate) struct NamedManager<'e, 'n, 's, N: Net> {
    pub console: &'e Console,
    pub net: &'n N,
    pub alloc: Global,
    pub name: Option<&'s str>,
    pub path: &'s str,
    pub config: &'s Config,
    /// Whether the configuration was read again, so that another run is to serve it.
    pub is_reread: &'s Cell<bool>,
}

impl<'e, 'n, 's, N: Net> ServiceManager for NamedManager<'e, 'n, 's, N> {
    fn tell(&mut self, notice: Notice) {
        let Some(name) = self.name else {
            return;
        };
        let mut sockets = LocalSockets { net: self.net };
        if let Err(fault) = send_notice(self.alloc, &mut sockets, name, notice) {
            tell(self.console, format_args!("{VARIABLE}: {name}: {fault}"));
        }
    }

    fn another(&self) -> Self {
        NamedManager {
            console: self.console,
            net: self.net,
            alloc: self.alloc,
            name: self.name,
            path: self.path,
            config: self.config,
            is_reread: self.is_reread,
        }
    }
}

impl<'e, 'n, 's, N: Net + Files + AllocGlobal> Supervisor for NamedManager<'e, 'n, 's, N> {
    fn reread(&mut self) -> Option<Vec<usize>> {
        let gone = gone_lines_at(self.console, self.net, self.path, self.config)?;
        self.is_reread.set(true);
        Some(gone)
    }
}

/// The name of the socket of a service manager, where the environment has one. Why it cannot be read is told in a line on the standard
/// error.
pub(crate) fn manager_name<E: Env + AllocGlobal>(console: &Console, system: &E) -> Option<String> {
    match env::var(system, VARIABLE) {
        Ok(name) => { if name.is_empty() { None } else { Some(name) } }
        Err(VarError::NotPresent) => None,
        Err(fault) => {
            tell(console, format_args!("{VARIABLE}: {fault}"));
            None
        }
    }
}
