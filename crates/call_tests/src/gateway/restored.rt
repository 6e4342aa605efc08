//! A gateway that is restored after a crash, and asks for the calls of its jobs.
use fax_answer::Confirmed;
use fax_gateway::{Gateway, PlaceFault, RestoredCall, Settings};
use fax_jobs::{Outcome, Report};
use fax_pagestore::{Coding, Format, PlainRows, RowStore, read_page};
use fax_runcodes::Width;
use std::alloc::Global;

const FORMAT: Format = Format {
    width: Width::W1728,
    fine: false,
};

/// A page of one white row, coded in one dimension: EOL, the row, and six EOLs (ITU-T T.4, 4.1).
const PAGE: [u8; 13] = [
    0x00, 0x14, 0xd9, 0xa8, 0x00, 0x80, 0x08, 0x00, 0x80, 0x08, 0x00, 0x80, 0x08,
];

/// Calls are asked for.
const ASKS: Settings = Settings {
    redundancy: 3,
    preamble_ms: 40,
    asks: true,
    memory: u64::MAX,
};

/// What is told of the older call's job where its call could not be placed.
const NOT_PLACED: Report = Report {
    call: 5,
    format: FORMAT,
    pages: 2,
    delivered: 0,
    outcome: Outcome::NotPlaced,
};

/// How a gateway stands: how many jobs wait, the call whose job is asked for, twice, and the moment at which a tick is due.
type Stands = (usize, Option<u32>, Option<u32>, Option<u64>);

fn stands<S: RowStore>(gateway: &Gateway<S>) -> Stands {
    let job = match gateway.job_asked() {
        Some(job) => Some(job.call()),
        None => None,
    };
    (gateway.waiting(), gateway.asked(), job, gateway.next_due())
}

/// The call of the job is placed, or could not be.
fn place<S: RowStore>(gateway: &mut Gateway<S>, connected: bool) -> Result<(), PlaceFault> {
    if connected {
        gateway.connect(0)
    } else {
        gateway.not_connected(0)
    }
}

/// What a tick reports.
fn reported<S: RowStore>(gateway: &mut Gateway<S>) -> Option<Report> {
    gateway.tick(0).ok()?.report
}

/// What comes of what is tried: the call is placed or not, and a tick after it.
fn tried<S: RowStore>(gateway: &mut Gateway<S>, connected: bool) -> (bool, Option<Report>, Stands) {
    let is_taken = place(gateway, connected).is_ok();
    let report = reported(gateway);
    (is_taken, report, stands(gateway))
}

#[test]
fn restored_jobs_are_asked_for_in_order(rt: HostRuntime) {
    // T1 of the call that is placed: 35 s (ITU-T T.30, 5.4.3.1)
    let wanted = (
        (2, Some(5), Some(5), None),
        [
            (true, Some(NOT_PLACED), (1, Some(2), Some(2), None)),
            (true, None, (0, None, None, Some(35_000))),
            (false, None, (0, None, None, Some(35_000))),
        ],
    );
    assert!(rt; told(rt.alloc()) == Some(wanted));
}

/// A gateway is restored with the two pages of call 5 and the one of call 2, in the midst of which it stopped. The call of the first job
/// could not be placed, that of the second is, and then no more is asked for.
fn told(alloc: Global) -> Option<(Stands, [(bool, Option<Report>, Stands); 3])> {
    let mut gateway = Gateway::restore(alloc, ASKS, calls(alloc)?).ok()?;
    let first = stands(&gateway);
    Some((
        first,
        [
            tried(&mut gateway, false),
            tried(&mut gateway, true),
            tried(&mut gateway, true),
        ],
    ))
}

/// Both calls, the older one first.
fn calls(alloc: Global) -> Option<Vec<RestoredCall<PlainRows>>> {
    let mut calls = Vec::new(alloc);
    for (number, closes) in [(5, [false, true].as_slice()), (2, &[false])] {
        let confirmed = confirmed(alloc, closes)?;
        calls.push(RestoredCall { number, confirmed }).ok()?;
    }
    Some(calls)
}

/// The page, as often as it was confirmed, for EOP or not.
fn confirmed(alloc: Global, closes: &[bool]) -> Option<Vec<Confirmed<PlainRows>>> {
    let mut pages = Vec::new(alloc);
    for closes in closes {
        let page = read_page(alloc, &PAGE, FORMAT, Coding::Mh).ok()?;
        let closes = *closes;
        pages.push(Confirmed { page, closes }).ok()?;
    }
    Some(pages)
}
