//! A call over lines that tell what goes over them. What they told is checked, so that what the loop promises of lines that are linked
//! is promised here of what was confirmed.
ghost use Rattle.std.specs.Prelude.{◌≡◌, ◌≢◌, [], Some, IfOk, IfSome};
ghost use Rattle.fax_loop.specs.Faithful.{AreThePage};
ghost use Rattle.fax_loop.specs.Links.{IsDelivered};

mod checking;
mod telling;
mod told;

use crate::loops::{lines_of_text, page_of, socket_pair};
use checking::{is_linked, is_linked_back};
use fax_bits::NoMemory;
use fax_command::{Output, PageOptions, page_of_hex};
use fax_gateway::Settings;
use fax_jobs::Outcome;
use fax_loop::exchange::{CallEnd, Lines, exchange};
use fax_pagestore::{Coding, Format, PackedRows, Page};
use fax_runcodes::Width;
use std::alloc::Global;
use std::io;
use std::net::{Net, UdpSocket};
use std::process::Abort;
use std::test::Fail;
use telling::{TellingEnd, TellingWire};
use told::Told;

/// Lines over sockets of the loopback interface, over which nothing went.
fn open_lines<R: Net>(net: &R, alloc: Global) -> io::Result<Lines<TellingEnd, TellingWire>>
    ensures { IfOk result (λ lines. (lines.caller.sent ≡ Some [])
        × (lines.wire.received ≡ Some []) × (lines.wire.sent ≡ Some [])
        × (lines.answerer.received ≡ Some []) × (lines.answerer.sent ≡ Some [])) }
{
    let (caller, calling) = socket_pair(net)?;
    let (answerer, called) = socket_pair(net)?;
    Ok(Lines {
        caller: end_of(alloc, caller),
        wire: TellingWire {
            alloc,
            calling,
            called,
            failures: 0,
            received: Told::nothing(alloc),
            sent: Told::nothing(alloc),
        },
        answerer: end_of(alloc, answerer),
    })
}

/// An end over a socket, over which nothing went.
fn end_of(alloc: Global, socket: UdpSocket) -> TellingEnd
    ensures { (result.received ≡ Some []) × (result.sent ≡ Some []) }
{
    TellingEnd {
        alloc,
        socket,
        received: Told::nothing(alloc),
        sent: Told::nothing(alloc),
    }
}

/// Sends a page over lines over which nothing went. How it ended is answered where they told that they were linked, both ways: so each
/// page that was confirmed is that page, and where the job is reported as delivered, there is one at least.
fn send_over(
    alloc: Global,
    lines: &mut Lines<TellingEnd, TellingWire>,
    page: Page<PackedRows>,
) -> Result<Option<CallEnd>, NoMemory>
    requires caller { lines.old.caller.sent ≡ Some [] }
    requires wire { (lines.old.wire.received ≡ Some []) × (lines.old.wire.sent ≡ Some []) }
    requires answerer { (lines.old.answerer.received ≡ Some [])
        × (lines.old.answerer.sent ≡ Some []) }
    ensures the_page { IfOk result
        (λ ended. IfSome ended (λ ended. AreThePage page ended.confirmed.items)) }
    ensures delivered { IfOk result
        (λ ended. IfSome ended (λ ended. IsDelivered ended.report → ended.confirmed.items ≢ [])) }
{
    let ended = exchange(alloc, lines, page, Settings::default())?;
    if !is_linked(&lines.caller, &lines.wire, &lines.answerer) {
        return Ok(None);
    }
    if !is_linked_back(&lines.wire, &lines.answerer) {
        return Ok(None);
    }
    Ok(Some(ended))
}

/// How the page of a hex text is given: in rows of 1,728 elements, of the standard resolution, in one-dimensional lines.
const GIVEN: PageOptions = PageOptions {
    format: Format {
        width: Width::W1728,
        fine: false,
    },
    coding: Coding::Mh,
    least_bits: 0,
    output: Output::Runs,
};

/// The outcome of a page that is sent over such lines, and how many were confirmed, where the lines were linked.
fn outcome_of<R: Net>(net: &R, alloc: Global, input: Vec<u8>) -> Option<(Outcome, usize)> {
    let mut lines = open_lines(net, alloc).ok()?;
    let page = page_of_hex(alloc, input, GIVEN).ok()?;
    let ended = send_over(alloc, &mut lines, page).ok()??;
    let report = ended.report?;
    Some((report.outcome, ended.confirmed.len()))
}

/// A page of a hundred rows is delivered over lines that were linked.
#[test]
fn a_page_over_lines_that_tell(rt: HostRuntime) -> Result<(), Fail> {
    let lines = lines_of_text(rt.alloc(), 50)?;
    let (_, page) = page_of(rt.alloc(), lines.as_slice());
    let sent = outcome_of(&rt, rt.alloc(), page);
    assert!(rt; matches!(sent, Some((Outcome::Delivered, 1))));
    Ok(())
}
