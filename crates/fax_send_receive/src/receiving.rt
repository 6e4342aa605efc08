//! A run of `faxgate receive`.
ghost use Rattle.std.specs.Prelude.{◌≡◌, ◌⊎◌, IfErr};
ghost use Rattle.fax_gateway.specs.Setups.{AreAllowed};
ghost use Rattle.fax_send_receive.specs.Faults.{IsClockFault, IsReceiveFault, IsStoreFault};
ghost use Rattle.fax_send_receive.specs.Naming.{naming_of};
ghost use Rattle.fax_send_receive.specs.Storing.{AddsFiles, HasRun};

use crate::clock_pace::ClockPace;
use crate::host_files::HostFiles;
use crate::named_files::NamedFiles;
use crate::page_files::PageFiles;
use crate::page_naming::PageNaming;
use crate::run_fault::RunFault;
use crate::sockets::{address_of, socket_at};
use crate::udp_leg::{LastCall, Port, UdpLeg, await_call, keep_repeating};
use crate::watch::Watch;
use fax_gateway::Settings;
use fax_terminal::{MOST_OCTETS, TerminalFault, WireEnd, receive_call};
use fax_wires::repeat::{RepeatPolicy, RepeatingWire};
use std::alloc::Global;
use std::net::Net;
use std::rt::{Clock, Files};

/// What is received, and where.
#[derive(Clone, Copy)]
pub struct ReceiveOptions<'a> {
    /// The address at which calls are answered.
    pub on: &'a str,
    /// How the files of pages are named, and what stands in them.
    pub naming: PageNaming<'a>,
    /// How many calls are answered.
    pub calls: u64,
    pub settings: Settings,
    /// How often a datagram is sent again.
    pub repeat: RepeatPolicy,
}

/// Answers calls, one after another, and writes each page that it confirms into a file of the system, as `receive_pages`. No contract says what stands in a file of the system.
pub fn run_receive<'a, H: Net + Clock + Files>(
    host: &'a H,
    watch: &'a Watch,
    alloc: Global,
    options: ReceiveOptions<'a>,
) -> Result<(), RunFault<'a>>
    requires { AreAllowed options.settings }
    ensures { IfErr result (IsReceiveFault options.entry) }
{
    let mut pages = PageFiles::new(HostFiles::new(host), watch, alloc);
    receive_pages(host, watch, alloc, options, &mut pages)
}

/// Answers calls, one after another, and writes each page that it confirms as a P4 picture or as a TIFF of class F, before its MCF is
/// sent: page i of a call into file i of the call. Calls have the numbers from 0 on of which no file is there. No contract says what comes over a socket.
pub fn receive_pages<'a, H: Net + Clock, F: NamedFiles + Drop>(
    host: &'a H,
    watch: &'a Watch,
    alloc: Global,
    options: ReceiveOptions<'a>,
    pages: &mut PageFiles<'a, F>,
) -> Result<(), RunFault<'a>>
    requires { AreAllowed options.settings }
    ensures files { AddsFiles (HasRun options.entry result) pages.old.made pages.new.made }
    ensures fault { IfErr result (IsReceiveFault options.entry) }
{
    let here = address_of(host, options.on)?;
    let port = Port::new(socket_at(host, options.on, here)?);
    answer_calls(host, watch, alloc, options, &port, pages)
}

/// Answers calls at this port.
fn answer_calls<'a, H: Clock, F: NamedFiles + Drop>(
    host: &'a H,
    watch: &'a Watch,
    alloc: Global,
    options: ReceiveOptions<'a>,
    port: &Port,
    pages: &mut PageFiles<'a, F>,
) -> Result<(), RunFault<'a>>
    requires { AreAllowed options.settings }
    ensures files { AddsFiles (HasRun options.entry result) pages.old.made pages.new.made }
    ensures fault { IfErr result (IsReceiveFault options.entry) }
{
    let mut pace = ClockPace::new(host, watch, port.socket())?;
    let mut last = None;
    let mut buffer = [0; MOST_OCTETS];
    for _answered in 0..options.calls {
        let Some(begun) = await_call(port, &mut pace, &mut last, buffer.as_mut_slice()) else {
            return Err(RunFault::Time);
        };
        pages.begin_call(options.naming)?;
        let wire = RepeatingWire::new(UdpLeg::new(port, begun.peer), options.repeat);
        let mut end = WireEnd { wire };
        let first = &buffer[..begun.octets];
        match receive_call(alloc, &mut pace, &mut end, first, pages, options.settings) {
            Ok(()) => {
                last = Some(LastCall {
                    wire: end.wire,
                    peer: begun.peer,
                });
            }
            Err(fault) => return Err(fault_of(fault, options.naming, pages)),
        }
    }
    if let Some(LastCall { mut wire, .. }) = last {
        keep_repeating(&mut pace, &mut wire);
    }
    Ok(())
}

/// Why a call goes no further, whose pages are in these files.
fn fault_of<'a, F: NamedFiles + Drop>(
    fault: TerminalFault,
    naming: PageNaming<'a>,
    pages: &mut PageFiles<'_, F>,
) -> RunFault<'a>
    ensures fault { IsClockFault result ⊎ IsStoreFault (naming_of naming.entry) result }
    ensures storage { fault ≡ TerminalFault.Storing → IsStoreFault (naming_of naming.entry) result }
    ensures same { pages.new ≡ pages.old }
{
    match fault {
        TerminalFault::NoMemory => RunFault::NoMemory,
        TerminalFault::Clock => RunFault::Time,
        TerminalFault::Storing => match pages.take_fault() {
            Some(error) => RunFault::Page(naming, pages.call(), pages.last(), error),
            None => RunFault::NoMemory,
        },
    }
}
