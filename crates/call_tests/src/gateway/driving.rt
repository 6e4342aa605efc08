//! Runs of turns over a wire.
use super::call::{COMES, Change, DELIVERED, SENDS, Sends, TURNS, play_call};
use super::wire::{Fails, ListWire};
use crate::memory::refused;
use fax_bits::NoMemory;
use fax_gateway::{Driven, Gateway, drive};
use fax_jobs::Report;
use fax_pagestore::{PlainRows, RowStore};
use std::alloc::Global;
use std::test::Fail;

/// A run.
#[derive(Clone, Copy)]
struct Run {
    /// Whether what comes in a whole call does.
    is_call: bool,
    failing_receives: Fails,
    failing_sends: Fails,
    rings: &'static [u32],
    turns: u32,
}

/// What a run comes to.
#[derive(Clone, Copy, PartialEq)]
struct Ran {
    driven: Driven,
    report: Option<Report>,
    sends: Sends,
    receives: u32,
    room: usize,
    /// What the gateway counts as refused.
    refusals: u64,
}

/// How many receives a whole call has: some bring a datagram, and two in each turn none.
const RECEIVES: u32 = COMES.len() as u32 + 2 * TURNS;

/// A whole call.
const CALL: Run = Run {
    is_call: true,
    failing_receives: Fails::NONE,
    failing_sends: Fails::NONE,
    rings: &[0],
    turns: TURNS,
};

const DRIVEN: Driven = Driven {
    turns: TURNS,
    rings_refused: 0,
    events_refused: 0,
    sends_failed: 0,
    receives_failed: 0,
    stopped: false,
};

/// Runs in which nobody calls, and what they come to.
const STILL: [(Run, Driven); 2] = [
    // all receives fail: the last 100 are those of 50 turns
    (
        Run {
            is_call: false,
            failing_receives: Fails::ALL,
            failing_sends: Fails::NONE,
            rings: &[],
            turns: 1000,
        },
        Driven {
            turns: 50,
            receives_failed: 100,
            stopped: true,
            ..DRIVEN
        },
    ),
    // all sends fail, and nobody answers: three datagrams, then two every 3,040 ms, and two where T1 is due
    (
        Run {
            is_call: false,
            failing_receives: Fails::NONE,
            failing_sends: Fails::ALL,
            rings: &[0],
            turns: 1000,
        },
        Driven {
            turns: 1000,
            sends_failed: 3 + 2 * 11 + 2,
            ..DRIVEN
        },
    ),
];

#[test]
fn runs_over_a_broken_wire(rt: HostRuntime) {
    for (run, wanted) in STILL {
        assert!(rt; driven_of(rt.alloc(), run) == Some(wanted));
    }
}

#[test]
fn a_page_goes_over_a_wire(rt: HostRuntime) {
    let busy = Run {
        rings: &[0, 1],
        ..CALL
    };
    for (run, rings_refused) in [(CALL, 0), (busy, 1)] {
        let driven = Driven {
            rings_refused,
            ..DRIVEN
        };
        assert!(rt; delivers(rt.alloc(), run, driven));
    }
}

#[test]
fn each_receive_fails(rt: HostRuntime) {
    for from in 0..RECEIVES {
        let run = Run {
            failing_receives: Fails { from, count: 1 },
            ..CALL
        };
        let driven = Driven {
            receives_failed: 1,
            ..DRIVEN
        };
        assert!(rt; driven_of(rt.alloc(), run) == Some(driven));
    }
}

#[test]
fn each_send_fails(rt: HostRuntime) {
    for from in 0..SENDS {
        let run = Run {
            failing_sends: Fails { from, count: 1 },
            ..CALL
        };
        let driven = Driven {
            sends_failed: 1,
            ..DRIVEN
        };
        assert!(rt; delivers(rt.alloc(), run, driven));
    }
}

/// What is driven in a run.
fn driven_of(alloc: Global, run: Run) -> Option<Driven> {
    match run_of(alloc, run) {
        Ok((ran, _)) => Some(ran.driven),
        Err(NoMemory) => None,
    }
}

/// Whether a run is driven so, and the whole call is made in it.
fn delivers(alloc: Global, run: Run, driven: Driven) -> bool {
    match run_of(alloc, run) {
        Ok((ran, _)) => ran == whole(driven, ran.sends.sum),
        Err(NoMemory) => false,
    }
}

/// What a run of the whole call comes to.
fn whole(driven: Driven, sum: u64) -> Ran {
    Ran {
        driven,
        report: Some(DELIVERED),
        sends: Sends {
            count: SENDS,
            sum,
            is_right: true,
        },
        receives: RECEIVES,
        room: 65_536,
        refusals: driven.events_refused,
    }
}

/// Makes a run, and what it comes to, and whether it was refused at once at first.
fn run_of(alloc: Global, run: Run) -> Result<(Ran, u64), NoMemory> {
    let mut gateway: Gateway<PlainRows> = Gateway::new(alloc, 3)?;
    let mut wire = ListWire::new(run.is_call, run.failing_receives, run.failing_sends);
    let (driven, refused) = match driven_over(alloc, &mut gateway, &mut wire, run) {
        Ok(driven) => (driven, 0),
        Err(NoMemory) => {
            // nothing has happened: it is made again
            (driven_over(alloc, &mut gateway, &mut wire, run)?, 1)
        }
    };
    let ran = Ran {
        driven,
        report: report_of(&gateway),
        sends: wire.sends,
        receives: wire.receives,
        room: wire.room,
        refusals: refusals_of(&gateway),
    };
    Ok((ran, refused))
}

fn driven_over<S: RowStore>(
    alloc: Global,
    gateway: &mut Gateway<S>,
    wire: &mut ListWire,
    run: Run,
) -> Result<Driven, NoMemory> {
    drive(alloc, gateway, wire, 0, run.rings, run.turns)
}

/// The first report.
fn report_of<S: RowStore>(gateway: &Gateway<S>) -> Option<Report> {
    gateway.report(0)
}

/// What it counts as refused.
fn refusals_of<S: RowStore>(gateway: &Gateway<S>) -> u64 {
    gateway.refusals()
}

#[test]
fn a_run_that_is_refused_memory(rt: HostRuntime) -> Result<(), Fail> {
    let (ran, again) = match run_of(rt.alloc(), CALL) {
        Ok(ran) => ran,
        Err(NoMemory) => {
            let (ran, again) = run_of(rt.alloc(), CALL)?;
            (ran, again.saturating_add(1))
        }
    };
    assert!(rt; is_left_out(rt.alloc(), ran));
    let calls = again
        .saturating_add(ran.driven.rings_refused)
        .saturating_add(ran.driven.events_refused);
    println!(rt; "refused: {}", refused(&rt, calls))?;
    Ok(())
}

/// Whether what was refused in a run of the whole call was left out, and nothing else: a ring, so that nothing was sent; or a datagram or
/// a tick.
fn is_left_out(alloc: Global, ran: Ran) -> bool {
    let told = Driven {
        rings_refused: ran.driven.rings_refused,
        events_refused: ran.driven.events_refused,
        ..DRIVEN
    };
    let is_left_out = match (told.rings_refused, told.events_refused) {
        (0, 0) => ran == whole(DRIVEN, ran.sends.sum),
        (1, 0) => ran.sends.count == 0 && ran.report.is_none(),
        (0, 1) => is_without_one(alloc, ran),
        _ => false,
    };
    is_left_out && ran.driven == told && ran.refusals == told.events_refused
}

/// Whether this is given in a call without one of the datagrams that come, or without one of the ticks.
fn is_without_one(alloc: Global, ran: Ran) -> bool {
    let mut found = false;
    for place in 0..COMES.len() {
        found = found || gives(alloc, Change::Without(place), ran);
    }
    for turn in 0..TURNS {
        found = found || gives(alloc, Change::WithoutTick(turn), ran);
    }
    found
}

/// Whether just this is given in a call with a change.
fn gives(alloc: Global, change: Change, ran: Ran) -> bool {
    let (played, _) = play_call(alloc, change);
    (played.sends, played.report) == (ran.sends, ran.report)
}
