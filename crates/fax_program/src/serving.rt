//! `faxgate serve`.
ghost use Rattle.std.specs.Prelude.{◌≡◌, ◌≢◌, ◌≤◌, IfOk, IfSome, None, OnOk, is_some, length};
ghost use Rattle.fax_serve.specs.Served.{RanServer};
ghost use Rattle.fax_program.specs.Services.{IsNewService, IsNext, IsSameOrAnother, IsServiceRun, RunsService, WasNotServed};
ghost use Rattle.fax_program.specs.Statuses.{IsEndedBy, IsToldAs};

use crate::console::Console;
use crate::descriptors::{descriptor_limit, most_descriptors};
use crate::failures::tell_unprinted;
use crate::manager::{NamedManager, manager_name};
use crate::rights::{RightsFault, keep_from_others};
use fax_command::Status;
use fax_config::{Config, ConfigFault, Misfit, read_config};
use fax_serve::{
    FolderStore, NamedFault, RunEnd, ServeFault, ServedStore, answer_unserved, run_serve,
};
use fax_spool_folder::{FolderFault, Folders};
use sqlite_disk::Start;
use std::cell::Cell;
use std::fmt::Display;
use std::marker::Model;
use std::net::Net;
use std::rt::{Clock, Env, Files};
use std::{fs, io, mem};

/// A spool that could not be opened anew is tried again so many milliseconds later.
const BETWEEN_OPENINGS_MS: u64 = 10_000;

/// The lines of a configuration, which are served by one run after the other: a run whose spool has failed ends, and the next one opens
/// that anew; and a run whose configuration was read again ends, and the next one serves it as it is then.
pub struct Service {
    /// The path of the configuration.
    path: String,
    config: Config,
    /// The configuration that was served before this one, until a run has served this one.
    before: Option<Config>,
    /// How often the spool has failed.
    failures: u64,
    /// The name of the socket of a service manager, where the environment has one.
    manager: Option<String>,
    /// The fault that was told last for which the spool could not be opened anew, since it was open; else nothing.
    told: String,
}

impl Drop for Service {
    fn drop(self) {
        let Service {
            path: _path,
            config: _config,
            before: _before,
            failures: _failures,
            manager: _manager,
            told: _told,
        } = self;
    }
}

/// Contracts see the configurations, and how often the spool has failed.
impl Model for Service {
    ghost use Rattle.fax_program.specs.Services.{ServiceValue};

    ghost Value = { ServiceValue };

    ghost view = { λ s. record { config = s.config; before = s.before; failures = s.failures } };
}

/// How a run ended, and whether its configuration had been read again, so that another run was to serve it.
#[derive(Clone, Copy)]
struct RunEnded {
    end: RunEnd,
    is_reread: bool,
}

impl Service {
    /// Serves the lines until one says `stop`, or, once no line has a call, since the spool has failed, or the configuration was read again.
    /// It answers with which status the process ends. `None`: the lines are to be served once more, by another run, over files of its own
    /// (`S` stands for what those of its spool hold, and `T` for what those of the pages hold that could not be delivered). Words come on the
    /// input where there is no control socket, and events go to the output. Faults are told in one line on the standard error.
    pub fn run<N: Net + Files + Clock + Folders + AllocGlobal, S: Start, T: Start>(
        &mut self,
        console: &Console,
        system: &N,
        start: S,
        undelivered: T,
    ) -> Option<u8>
        ensures { RunsService (RanServer ⟦<FolderStore<S, T> as ServedStore>⟧.ran)
            self.old self.new result }
    {
        match self.run_once(console, system, start, undelivered) {
            Some(status) => Some(status.code()),
            None => None,
        }
    }

    /// The same, with the status.
    fn run_once<N: Net + Files + Clock + Folders + AllocGlobal, S: Start, T: Start>(
        &mut self,
        console: &Console,
        system: &N,
        start: S,
        undelivered: T,
    ) -> Option<Status>
        ensures { IsServiceRun (RanServer ⟦<FolderStore<S, T> as ServedStore>⟧.ran)
            self.old self.new result }
    {
        if let Some(status) = self.tell_shared(console, system) {
            return Some(status);
        }
        match self.serve(console, system, start, undelivered) {
            Ok(ended) => self.end(console, system, ended),
            Err(fault) => self.fail(console, system, fault),
        }
    }

    /// The run.
    fn serve<N: Net + Files + Clock + Folders + AllocGlobal, S: Start, T: Start>(
        &self,
        console: &Console,
        system: &N,
        start: S,
        undelivered: T,
    ) -> Result<RunEnded, ServeFault>
        ensures { OnOk result (RanServer ⟦<FolderStore<S, T> as ServedStore>⟧.ran self.now.config) }
    {
        let name = match &self.manager {
            Some(name) => Some(name.as_str()),
            None => None,
        };
        let is_reread = Cell::new(false);
        let mut manager = NamedManager {
            console,
            net: system,
            alloc: console.alloc(),
            name,
            path: self.path.as_str(),
            config: &self.config,
            is_reread: &is_reread,
        };
        let end = run_serve(
            system,
            console.alloc(),
            &self.config,
            console.input(),
            console.output(),
            self.failures,
            &mut manager,
            start,
            undelivered,
        )?;
        Ok(RunEnded {
            end,
            is_reread: is_reread.get(),
        })
    }

    /// Where others may write to the folder of the spool, or read its files, and that cannot be changed, it is told, and the status
    /// that says it. A folder that is not there, and a disk that has failed before, are told when the spool is opened.
    fn tell_shared<N: Files>(&self, console: &Console, system: &N) -> Option<Status>
        ensures { IfSome result (IsToldAs Status.Usage) }
    {
        let folder = self.config.spool.as_ref()?.as_str();
        let fault = match keep_from_others(system, console.alloc(), folder) {
            Ok(()) => return None,
            Err(RightsFault::Io(error))
                if self.failures > 0 || error.kind() == io::ErrorKind::NotFound => {
                return None;
            }
            Err(fault) => fault,
        };
        let told = format_args!("spool: {folder}: {fault}");
        Some(tell(console, self.path.as_str(), told, Status::Usage))
    }

    /// A run over a spool that was opened has ended so.
    fn end<N: Files + AllocGlobal>(
        &mut self,
        console: &Console,
        system: &N,
        ended: RunEnded,
    ) -> Option<Status>
        ensures next { IsNext ended.end self.old self.new }
        ensures ended { IsEndedBy ended.end (is_some self.old.config.control) result }
    {
        let has_control = self.config.control.is_some();
        self.told.clear();
        self.before = None;
        match ended.end {
            RunEnd::Stopped => {}
            RunEnd::SpoolFailed => {
                self.failures = self.failures.saturating_add(1);
                self.reload(console, system, ended.is_reread);
            }
            RunEnd::Reload => self.reload(console, system, ended.is_reread),
        }
        ended_by(console, self.path.as_str(), has_control, ended.end)
    }

    /// Where it was read again the next run serves the configuration as it is in its file now; one that has a fault, which is told, as it was.
    fn reload<N: Files + AllocGlobal>(&mut self, console: &Console, system: &N, is_reread: bool)
        requires { self.old.before ≡ None }
        ensures config { IsSameOrAnother self.old self.new }
        ensures failures { self.new.failures ≡ self.old.failures }
    {
        if is_reread && let Ok(config) = config_at(console, system, self.path.as_str()) {
            self.before = Some(mem::replace(&mut self.config, config));
        }
    }

    /// A run did not begin, for this fault: one of a spool whose disk has failed before passes, and where it was the first of a configuration
    /// that was read again the next one serves that of before.
    fn fail<N: Net + Files + Clock>(
        &mut self,
        console: &Console,
        system: &N,
        fault: ServeFault,
    ) -> Option<Status>
        ensures { WasNotServed self.old self.new result }
    {
        match fault {
            ServeFault::Spool(fault) if self.failures > 0 => self.wait(console, system, fault),
            fault => self.go_back(console, fault),
        }
    }

    /// The same of another fault.
    fn go_back(&mut self, console: &Console, fault: ServeFault) -> Option<Status>
        ensures { WasNotServed self.old self.new result }
    {
        let status = self.tell_fault(console, fault);
        match self.before.take() {
            Some(before) => {
                self.config = before;
                None
            }
            None => Some(status),
        }
    }

    /// The spool could not be opened anew. That is told once; and until it is tried again, what clients say is refused.
    fn wait<N: Net + Files + Clock>(
        &mut self,
        console: &Console,
        system: &N,
        fault: FolderFault,
    ) -> Option<Status>
        ensures { self.new ≡ self.old }
    {
        self.tell_once(console, fault);
        let Some(control) = &self.config.control else {
            return Some(Status::Usage);
        };
        match answer_unserved(
            system,
            console.alloc(),
            control.as_str(),
            BETWEEN_OPENINGS_MS,
        ) {
            Ok(true) => Some(Status::Done),
            Ok(false) => None,
            Err(fault) => Some(self.tell_fault(console, fault)),
        }
    }

    /// Tells why the spool could not be opened anew, where that is another fault than the one that was told last.
    fn tell_once(&mut self, console: &Console, fault: FolderFault)
        ensures { self.new ≡ self.old }
    {
        let text = match format!(in console.alloc(); "{fault}") {
            Ok(text) => text,
            Err(_) => String::new(console.alloc()),
        };
        if text.is_empty() || self.told.as_str() != text.as_str() {
            let _ = self.tell_fault(console, ServeFault::Spool(fault));
        }
        self.told = text;
    }

    /// Tells why a run did not begin, and gives the status that says it.
    fn tell_fault(&self, console: &Console, fault: ServeFault) -> Status
        ensures { result ≢ Status.Done }
    {
        let status = status_of(&fault);
        let named = NamedFault {
            fault: &fault,
            config: &self.config,
        };
        tell(console, self.path.as_str(), named, status)
    }
}

/// The status that says why a run did not begin.
fn status_of(fault: &ServeFault) -> Status
    ensures { result ≢ Status.Done }
{
    match fault {
        ServeFault::NoMemory => Status::NoMemory,
        ServeFault::Spool(_) => Status::Usage,
        _ => Status::Stream,
    }
}

/// The lines of the configuration in the file at this path. An `Err` is the status after a fault that was told.
pub(crate) fn service_of<N: Files + Env + AllocGlobal>(
    console: &Console,
    system: &N,
    path: &str,
) -> Result<Service, Status>
    ensures { IfOk result IsNewService }
{
    let config = config_at(console, system, path)?;
    if let Some(status) = tell_too_few(console, path, most_descriptors(&config)) {
        return Err(status);
    }
    if config.spool.is_none()
        && let Err(error) = console.print("pages are kept in memory alone: no spool is set\n")
    {
        return Err(tell_unprinted(console, error));
    }
    match String::from_str(console.alloc(), path) {
        Ok(path) => Ok(Service {
            path,
            config,
            before: None,
            failures: 0,
            manager: manager_name(console, system),
            told: String::new(console.alloc()),
        }),
        Err(_) => Err(tell_no_memory(console, path)),
    }
}

/// Reads the configuration at this path, and says how many lines it has, and how many descriptors its server wants.
pub(crate) fn check<N: Files + AllocGlobal>(console: &Console, system: &N, path: &str) -> Status {
    let config = match config_at(console, system, path) {
        Ok(config) => config,
        Err(status) => return status,
    };
    let lines = config.lines.len();
    let wanted = most_descriptors(&config);
    if let Err(error) = console.print(format_args!("lines {lines}\ndescriptors {wanted}\n")) {
        return tell_unprinted(console, error);
    }
    match tell_too_few(console, path, wanted) {
        Some(status) => status,
        None => Status::Done,
    }
}

/// The configuration in the file at this path. An `Err` is the status after a fault that was told.
pub(crate) fn config_at<N: Files + AllocGlobal>(
    console: &Console,
    system: &N,
    path: &str,
) -> Result<Config, Status>
    ensures few { IfOk result (λ config. length config.lines.items ≤ 4000) }
    ensures few_redials { IfOk result (λ config. length config.redial.items ≤ 4000) }
{
    let text = match fs::read_to_string(system, path) {
        Ok(text) => text,
        Err(error) => return Err(tell(console, path, error, Status::Stream)),
    };
    match read_config(console.alloc(), text.as_str()) {
        Ok(config) => Ok(config),
        Err(ConfigFault::Misfit(Misfit::NoMemory)) => Err(tell_no_memory(console, path)),
        Err(fault) => Err(tell(console, path, fault, Status::Usage)),
    }
}

/// Where this process cannot open so many descriptors that is told, and the status that says it.
pub(crate) fn tell_too_few(console: &Console, path: &str, wanted: usize) -> Option<Status> {
    let most = descriptor_limit()?;
    if wanted as u64 <= most {
        return None;
    }
    let fault = format_args!("{wanted} descriptors are wanted, and {most} can be had (ulimit -n)");
    Some(tell(console, path, fault, Status::Stream))
}

/// A run of the configuration at this path has ended so, whose words come on a control socket or not: with which status the process
/// ends, or that it serves once more. That the spool has failed is told.
fn ended_by(console: &Console, path: &str, has_control: bool, end: RunEnd) -> Option<Status>
    ensures { IsEndedBy end has_control result }
{
    match end {
        RunEnd::Stopped => Some(Status::Done),
        RunEnd::Reload => None,
        RunEnd::SpoolFailed => {
            let status = tell(console, path, "spool: its disk failed", Status::Usage);
            if has_control { None } else { Some(status) }
        }
    }
}

/// Tells that memory was wanted and refused.
pub(crate) fn tell_no_memory(console: &Console, path: &str) -> Status
    ensures { IsToldAs Status.NoMemory result }
{
    tell(console, path, "memory was refused", Status::NoMemory)
}

/// Tells a fault of a configuration in one line, and gives the status that says it.
pub(crate) fn tell<D: Display + Drop>(
    console: &Console,
    path: &str,
    fault: D,
    status: Status,
) -> Status
    ensures { IsToldAs status result }
{
    match console.eprintln(format_args!("faxgate: {path}: {fault}")) {
        Ok(()) => status,
        Err(_) => Status::Stream,
    }
}
