//! SIP beside the desk: what happens on lines is told it, and what happens in its calls is told clients.
use crate::redial_side::{RedialSide, SeenRedials};
use crate::seen::{SeenLines, has_free_line};
use crate::sip_side::{SipNews, SipSide};
use crate::telling::Teller;
use fax_clients::Asker;
use fax_desk::{Desk, LineView, Reply};
use fax_sip_service::Said;

/// Words are waited for so many milliseconds at most where SIP is spoken.
const BETWEEN_SIP_MS: u64 = 5;

/// The most that is told at a look.
const MOST_TOLD: u32 = 256;

/// For how many milliseconds words are waited for at most, so that SIP goes on meanwhile.
pub(super) fn most_between_sip<S: SipSide>(sip: &Option<S>) -> u64 {
    match sip {
        Some(_) => BETWEEN_SIP_MS,
        None => u64::MAX,
    }
}

/// Goes on with SIP, without waiting.
pub(super) fn serve_sip<L: SeenLines, S: SipSide>(
    sip: &mut Option<S>,
    teller: &mut Teller,
    desk: &Desk,
    now: u64,
    seen: &L,
) {
    let Some(sip) = sip else {
        return;
    };
    if !sip.is_due(now) {
        return;
    }
    if desk.is_stopping() {
        sip.leave(now);
    } else if sip.is_open_due(now) {
        sip.set_open(desk.takes_calls() && !seen.has_failed() && has_free_line(desk, seen));
    }
    sip.look(now);
    tell_of_sip(sip, teller, now);
}

/// Tells clients what happened in calls.
pub(super) fn tell_of_sip<S: SipSide>(sip: &mut S, teller: &mut Teller, now: u64) {
    for _ in 0..MOST_TOLD {
        match sip.next_news(now, teller.takes_events()) {
            SipNews::Nothing => return,
            SipNews::Untold => {}
            SipNews::Line(line) => teller.tell_line(line.as_slice()),
        }
    }
}

/// Whether SIP says something now, before clients do.
pub(super) fn goes_first<S: SipSide>(sip: &mut Option<S>) -> bool {
    match sip {
        Some(sip) => sip.goes_first(),
        None => false,
    }
}

/// What SIP has to say next.
pub(super) fn next_said<S: SipSide>(sip: &mut Option<S>) -> Option<Said> {
    match sip {
        Some(sip) => sip.next_said(),
        None => None,
    }
}

/// SIP says this of a redial line, of which the first is counted so: the word comes in at their desk as one of a client does, where the
/// call that it is about is on.
pub(super) fn say_of_redial<S: SipSide, R: RedialSide>(
    sip: &mut Option<S>,
    redials: &mut R,
    teller: &mut Teller,
    said: &Said,
    first: usize,
    now: u64,
) {
    let Some(told) = sip else {
        return;
    };
    let Some((i, reply)) = step_redial(told, redials, teller, said, first, now) else {
        return;
    };
    told.answered(now, said, reply);
    tell_sip(sip, teller, now, first.saturating_add(i));
}

/// The same word, and which redial line it came to, and how it is answered.
fn step_redial<S: SipSide, R: RedialSide>(
    sip: &S,
    redials: &mut R,
    teller: &mut Teller,
    said: &Said,
    first: usize,
    now: u64,
) -> Option<(usize, Reply)> {
    let seen = SeenRedials {
        first,
        redials: &*redials,
    };
    let word = sip.word(said, &seen)?;
    redials.step(Asker::apart(), word, now, teller)
}

/// The order of what SIP said has ended so.
pub(super) fn answer_sip<S: SipSide>(sip: &mut Option<S>, now: u64, reply: Reply) {
    if let Some(sip) = sip {
        sip.done(now, reply);
    }
}

/// What happened on line i is told SIP.
pub(super) fn tell_sip<S: SipSide>(sip: &mut Option<S>, teller: &mut Teller, now: u64, i: usize) {
    let Some(sip) = sip else {
        return;
    };
    for _ in 0..MOST_TOLD {
        match teller.next_news() {
            Some(what) => sip.happened(now, i, what),
            None => return,
        }
    }
}

/// Whether SIP places the call of the job that line i, which is so, asks for.
pub(super) fn is_placed<S: SipSide>(
    sip: &Option<S>,
    desk: &Desk,
    i: usize,
    line: LineView,
) -> bool {
    match (sip, line.asked, desk.cards.get(i)) {
        (Some(sip), Some(job), Some(card)) => sip.places(&card.job_tag(line.first, job.call)),
        _ => false,
    }
}

/// Whether SIP places the call of the try on redial line i.
fn is_try_placed<S: SipSide, R: RedialSide>(sip: &Option<S>, redials: &R, i: usize) -> bool {
    match (sip, redials.job(i)) {
        (Some(sip), Some(job)) => sip.places(&job.tag),
        _ => false,
    }
}

/// The redial lines that have a try, the first of which is counted so, have the turn of their next slot, at this moment, and SIP hears what
/// happened there. The question of one is asked where a client hears events, or where SIP places the call.
pub(super) fn turn_redials<S: SipSide, R: RedialSide>(
    sip: &mut Option<S>,
    redials: &mut R,
    teller: &mut Teller,
    first: usize,
    now: u64,
    moment: u64,
) {
    for k in 0..redials.tries() {
        if let Some(i) = redials.line_of_try(k) {
            let is_heard = teller.tell_events() || is_try_placed(sip, redials, i);
            redials.turn(i, moment, is_heard, teller);
            tell_sip(sip, teller, now, first.saturating_add(i));
        }
    }
}

/// As the server ends, SIP has so many milliseconds for what it still has to say, and is looked at so often.
pub(super) const FINISHING_MS: u64 = 1_000;

pub(super) const BETWEEN_FINISHING_MS: i32 = 10;
