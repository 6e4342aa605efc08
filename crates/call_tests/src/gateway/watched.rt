//! What both legs tell of a call while it goes on: what each piece that comes is taken as, where the calls stand, and which timer
//! acts.
use super::call::{COMES, TURNS, moment, put};
use fax_answer::{ActingTimer, Command, Decision, State};
use fax_bits::NoMemory;
use fax_frames::{Caps, Dcs, Dis, Length, Rate};
use fax_gateway::{Gateway, Leg};
use fax_jobs::Outcome;
use fax_notes::{AnswerNote, AnswerNotes, CallNote, CallNotes, Came};
use fax_pagestore::{PlainRows, RowStore};
use fax_runcodes::Width;
use std::alloc::Global;
use std::test::Fail;

/// What both machines send by: a DCS in which bit 10 alone is set (ITU-T T.30, Table 2).
const DCS: Dcs = Dcs {
    rate: Rate::V27At2400,
    fine: false,
    two_d: false,
    width: Width::W1728,
    length: Length::A4,
    scan_ms: 20,
};

/// What the called machine can do: a DIS with the same bit.
const DIS: Dis = Dis { caps: Caps(0x4000) };

/// What the pieces of the whole call are taken as on the calling leg: a DCS, a training check, an image, an EOP (ITU-T T.30,
/// figure 5-2).
const ANSWERED: &[(State, Came, Decision)] = &[
    (State::Identify, Came::Frame, Decision::Train(DCS)),
    (State::Train(DCS), Came::Start, Decision::PassOver),
    (State::Train(DCS), Came::End, Decision::Cfr(DCS)),
    (State::Page(DCS), Came::Start, Decision::PassOver),
    (State::Page(DCS), Came::End, Decision::PassOver),
    (State::Page(DCS), Came::Frame, Decision::Mcf(Command::Eop)),
];

/// And on the called leg: a DIS, a CFR, an MCF (figure 5-1).
const CALLED: &[(fax_call::State, Came, fax_call::Decision)] = &[
    (
        fax_call::State::AwaitDis,
        Came::Frame,
        fax_call::Decision::Train,
    ),
    (
        fax_call::State::AwaitCfr(DIS, DCS),
        Came::Frame,
        fax_call::Decision::Send,
    ),
    (
        fax_call::State::AwaitMcf(DIS, DCS),
        Came::Frame,
        fax_call::Decision::Close(Outcome::Delivered),
    ),
];

/// What was told.
#[derive(Drop)]
struct Told {
    answers: AnswerNotes,
    calls: CallNotes,
}

/// A gateway to which so many turns of the whole call came, and what it told.
fn watch(alloc: Global, turns: u32) -> Option<(Gateway<PlainRows>, Told)> {
    let mut gateway = Gateway::new(alloc, 3).ok()?;
    let mut told = Told {
        answers: AnswerNotes::new(alloc),
        calls: CallNotes::new(alloc),
    };
    gateway.ring(0).ok()?;
    for turn in 0..turns {
        go_on(&mut gateway, turn, &mut told)?;
    }
    Some((gateway, told))
}

/// What comes in a turn, and its tick.
fn go_on<S: RowStore>(gateway: &mut Gateway<S>, turn: u32, told: &mut Told) -> Option<()> {
    for (at, leg, octets, zeros) in COMES {
        if *at == turn {
            let mut buffer = [0; 320];
            let count = put(octets, *zeros, &mut buffer);
            hear(gateway, *leg, buffer.get(..count)?, moment(turn), told).ok()?;
        }
    }
    gateway.tick(moment(turn)).ok()?;
    Some(())
}

fn hear<S: RowStore>(
    gateway: &mut Gateway<S>,
    leg: Leg,
    octets: &[u8],
    now: u64,
    told: &mut Told,
) -> Result<bool, NoMemory> {
    match leg {
        Leg::Calling => gateway.from_calling_watched(octets, now, &mut told.answers),
        Leg::Called => gateway.from_called_watched(octets, now, &mut told.calls),
    }
}

/// Whether just this was told of the calling leg, and that no packet waited.
fn has_answered(notes: &AnswerNotes) -> bool {
    let told = notes.as_slice();
    let mut all = !notes.is_lacking() && told.len() == ANSWERED.len();
    for (note, (state, came, decision)) in told.iter().zip(ANSWERED) {
        let wanted = AnswerNote {
            state: *state,
            waits: false,
            came: *came,
            decision: *decision,
        };
        all = all && *note == wanted;
    }
    all
}

/// The same of the called leg.
fn has_called(notes: &CallNotes) -> bool {
    let told = notes.as_slice();
    let mut all = !notes.is_lacking() && told.len() == CALLED.len();
    for (note, (state, came, decision)) in told.iter().zip(CALLED) {
        let wanted = CallNote {
            state: *state,
            waits: false,
            came: *came,
            decision: *decision,
        };
        all = all && *note == wanted;
    }
    all
}

#[test]
fn each_piece_is_told(rt: HostRuntime) -> Result<(), Fail> {
    let (_, mut told) = watch(rt.alloc(), TURNS).ok_or("a call")?;
    assert!(rt; has_answered(&told.answers) && has_called(&told.calls));
    told.answers.clear();
    told.calls.clear();
    assert!(rt; told.answers.as_slice().is_empty() && told.calls.as_slice().is_empty());
    Ok(())
}

/// Where both calls stand.
type Stands = (State, fax_call::State);

/// The timers of both that act.
type Acts = (Option<ActingTimer>, Option<fax_call::ActingTimer>);

/// After so many turns of the whole call: where both calls stand, and the timers that act at moments in which nothing more came. T1
/// is 35 seconds, T2 6, T4 3 (ITU-T T.30, 5.4.3).
const STANDS: &[(u32, Stands, &[(u64, Acts)])] = &[
    // the DIS was given, at 80 ms
    (
        3,
        (State::Identify, fax_call::State::Idle),
        &[
            (3_000, (None, None)),
            (3_100, (Some(ActingTimer::T4), None)),
            (35_100, (Some(ActingTimer::T1), None)),
        ],
    ),
    // the MCF was given, and the called machine was called, at 240 ms
    (
        7,
        (State::Page(DCS), fax_call::State::AwaitDis),
        &[
            (6_200, (None, None)),
            (6_300, (Some(ActingTimer::T2), None)),
            (
                35_300,
                (Some(ActingTimer::T2), Some(fax_call::ActingTimer::T1)),
            ),
        ],
    ),
    // the training was given, at 1,880 ms
    (
        48,
        (State::Page(DCS), fax_call::State::AwaitCfr(DIS, DCS)),
        &[
            (4_800, (None, None)),
            (4_900, (None, Some(fax_call::ActingTimer::T4))),
        ],
    ),
];

/// Where both calls of a gateway stand.
fn stands<S: RowStore>(gateway: &Gateway<S>) -> Stands {
    (gateway.calling_state(), gateway.called_state())
}

/// Whether just these timers act at these moments.
fn are_acting<S: RowStore>(gateway: &Gateway<S>, moments: &[(u64, Acts)]) -> bool {
    let mut all = true;
    for (now, acts) in moments {
        all = all && (gateway.calling_acting(*now), gateway.called_acting(*now)) == *acts;
    }
    all
}

#[test]
fn what_acts_is_told(rt: HostRuntime) -> Result<(), Fail> {
    for (turns, wanted, moments) in STANDS {
        let (gateway, _) = watch(rt.alloc(), *turns).ok_or("a call")?;
        assert!(rt; stands(&gateway) == *wanted && are_acting(&gateway, moments));
    }
    Ok(())
}
