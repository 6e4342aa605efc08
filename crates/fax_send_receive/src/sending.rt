//! A run of `faxgate send`.
ghost use Rattle.std.specs.Prelude.{IfErr, IfOk, None, map};
ghost use Rattle.fax_gateway.specs.Setups.{AreAllowed};
ghost use Rattle.fax_send_receive.specs.Faults.{IsCallingFault, IsSendFault};
ghost use Rattle.fax_send_receive.specs.Runs.{TellsRun};

use crate::clock_pace::ClockPace;
use crate::host_files::HostFiles;
use crate::job_files::{Reading, read_job};
use crate::named_files::NamedFiles;
use crate::run_fault::RunFault;
use crate::sockets::{address_of, any_address, socket_at};
use crate::udp_leg::{Port, UdpLeg};
use crate::watch::Watch;
use fax_gateway::Settings;
use fax_jobs::{Outcome, Report};
use fax_pagestore::{Coding, Format};
use fax_terminal::{TerminalFault, WireEnd, send_job};
use fax_wires::repeat::{RepeatPolicy, RepeatingWire};
use std::alloc::Global;
use std::net::{Net, SocketAddr, UdpSocket};
use std::rt::{Clock, Files};

/// What is sent, and where to.
#[derive(Clone, Copy)]
pub struct SendOptions<'a> {
    /// The address of the machine that is called.
    pub to: &'a str,
    /// The address from which it is called; any where none is given.
    pub on: Option<&'a str>,
    /// The width and the resolution of pages in hex text. Of a picture the resolution alone is taken.
    pub format: Format,
    /// How the pages in hex text are coded.
    pub coding: Coding,
    pub settings: Settings,
    /// How often a datagram is sent again.
    pub repeat: RepeatPolicy,
}

/// Calls a machine and sends the pages in the files of the system at these paths, as `send_files`. No contract says what stands in
/// a file of the system.
pub fn run_send<'a, H: Net + Clock + Files>(
    host: &H,
    watch: &Watch,
    alloc: Global,
    options: SendOptions<'a>,
    files: &[&'a str],
) -> Result<Report, RunFault<'a>>
    requires { AreAllowed options.settings }
    ensures ok { IfOk result (TellsRun
        (λ path. None) options.entry (map (λ path. path.now) files.now)) }
    ensures fault { IfErr result (IsSendFault
        (λ path. None) options.entry (map (λ path. path.now) files.now)) }
{
    send_files(host, watch, alloc, options, &HostFiles::new(host), files)
}

/// Calls a machine and sends the pages in the files of these names, each a P4 picture or the hex text of a page: page i of the job is
/// that of file i. It reports how the call ended. Where it was not delivered, and sends or receives failed, that is told. An `Err`
/// names what is at fault.
pub fn send_files<'a, H: Net + Clock, F: NamedFiles>(
    host: &H,
    watch: &Watch,
    alloc: Global,
    options: SendOptions<'a>,
    files: &F,
    names: &[&'a str],
) -> Result<Report, RunFault<'a>>
    requires { AreAllowed options.settings }
    ensures ok { IfOk result (TellsRun (F.holds files.now) options.entry (map
        (λ name. name.now) names.now)) }
    ensures fault { IfErr result (IsSendFault (F.holds files.now) options.entry (map
        (λ name. name.now) names.now)) }
{
    let reading = Reading {
        format: options.format,
        coding: options.coding,
    };
    let job = read_job(files, alloc, reading, names)?;
    let peer = address_of(host, options.to)?;
    let port = Port::new(calling_socket(host, options, peer)?);
    let mut pace = ClockPace::new(host, watch, port.socket())?;
    let wire = RepeatingWire::new(UdpLeg::new(&port, peer), options.repeat);
    let mut end = WireEnd { wire };
    match send_job(alloc, &mut pace, &mut end, &job, options.settings) {
        Ok(sent) => {
            if sent.outcome != Outcome::Delivered {
                port.tell(watch, options.to);
            }
            Ok(Report {
                call: job.call(),
                format: job.format(),
                pages: job.page_count(),
                delivered: sent.delivered,
                outcome: sent.outcome,
            })
        }
        Err(TerminalFault::NoMemory) => Err(RunFault::NoMemory),
        Err(_) => Err(RunFault::Time),
    }
}

/// The socket of a call, which is connected to the machine that is called.
fn calling_socket<'a, H: Net>(
    host: &H,
    options: SendOptions<'a>,
    peer: SocketAddr,
) -> Result<UdpSocket, RunFault<'a>>
    ensures { IfErr result (IsCallingFault options.entry) }
{
    let socket = match options.on {
        Some(on) => socket_at(host, on, address_of(host, on)?)?,
        None => socket_at(host, options.to, any_address(peer))?,
    };
    match socket.connect(peer) {
        Ok(()) => Ok(socket),
        Err(error) => Err(RunFault::Address(options.to, error)),
    }
}
