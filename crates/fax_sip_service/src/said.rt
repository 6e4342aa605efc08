//! What SIP says at the desk: the words of a client.
ghost use Rattle.std.specs.Prelude.{◌≡◌, true, option_map, IfSome, OnSome};
ghost use Rattle.fax_sip_service.specs.Words.{Says, bounds_of, digits_of, is_now, is_on_leg, leg_of, name_of, place_of, said_of};

use crate::line::SipLine;
use fax_control::{Bounds, PeerWord, RingWord, Word};
use fax_desk::{LineView, View};
use fax_gateway::Leg as LineLeg;
use fax_switch::{FaxEnd, Leg, Place};
use fax_user_agent::{LineOrder, Tag};

/// The least and the most octets by which a word bounds datagrams.
const LEAST_OCTETS: u32 = 32;

const MOST_OCTETS: u32 = 65_535;

/// What SIP says.
#[derive(Drop)]
pub enum Said {
    /// `ring any TAG`, for this call.
    Ring(u64, Tag),
    /// `peer LINE LEG ADDRESS`: the other end has T.38 there, and has moved, or not.
    Peer(Place, FaxEnd, bool),
    /// `refuse LINE STATUS`, three digits.
    Refuse(Place, [u8; 3]),
    /// `hangup LINE LEG`.
    HangUp(Place),
}

/// What an order of the agent says; none where it says nothing of a line.
pub(crate) fn said_of(order: LineOrder) -> Option<Said>
    ensures { result ≡ said_of order }
{
    match order {
        LineOrder::Ring(call, tag) => Some(Said::Ring(call, tag)),
        LineOrder::Peer(place, end, is_moved) => Some(Said::Peer(place, end, is_moved)),
        LineOrder::Refuse(place, status) => Some(Said::Refuse(place, digits_of(status))),
        LineOrder::HangUp(place) => Some(Said::HangUp(place)),
        LineOrder::AudioOn(_, _) | LineOrder::AudioOff(_) => None,
    }
}

/// The last three digits of a status.
fn digits_of(status: u16) -> [u8; 3]
    ensures { result ≡ digits_of status }
{
    let hundreds = (status / 100 % 10) as u8;
    let tens = (status / 10 % 10) as u8;
    let ones = (status % 10) as u8;
    [b'0' + hundreds, b'0' + tens, b'0' + ones]
}

/// The leg, as words name it.
fn leg_of(leg: Leg) -> LineLeg
    ensures { result ≡ leg_of leg }
{
    match leg {
        Leg::Calling => LineLeg::Calling,
        Leg::Called => LineLeg::Called,
    }
}

/// Whether the call of a place is the one that is on there, or that is asked for.
fn is_on(place: Place, line: LineView) -> bool
    ensures { result ≡ is_on_leg place.leg place.call line }
{
    match place.leg {
        Leg::Calling => line.call == Some(place.call),
        Leg::Called => match line.asked {
            Some(asked) => asked.call == place.call,
            None => line.sending == Some(place.call),
        },
    }
}

/// What bounds the datagrams to the other end.
fn bounds_of(end: FaxEnd) -> Bounds
    ensures { result ≡ bounds_of end.octets }
{
    match end.octets {
        Some(octets) => Bounds {
            redundancy: None,
            octets: Some(octets.clamp(LEAST_OCTETS, MOST_OCTETS) as u16),
        },
        None => Bounds::default(),
    }
}

impl Said {
    /// Of which leg's call it is said; none: of a call that no leg has yet.
    pub fn place(&self) -> Option<Place>
        ensures { result ≡ place_of self.now }
    {
        match self {
            Said::Ring(_, _) => None,
            Said::Peer(place, _, _) | Said::Refuse(place, _) | Said::HangUp(place) => Some(*place),
        }
    }

    /// Whether it can be said of what the lines are: the call that it is about is on.
    fn is_now<V: View>(&self, view: &V) -> bool
        ensures { result ≡ is_now self.now (V.line view.now) }
    {
        let Some(place) = self.place() else {
            return true;
        };
        match view.line(place.line as usize) {
            Some(line) => is_on(place, line),
            None => false,
        }
    }

    /// The word, of these lines, that says so; none where the call that it is about is not on.
    pub fn word<'a, V: View>(&'a self, lines: &'a [SipLine], view: &V) -> Option<Word<'a>>
        ensures said { IfSome result (Says self.now lines.now) }
        // Nothing is said of a call that is on no more.
        ensures now { OnSome result (is_now self.now (V.line view.now) ≡ true) }
    {
        if !self.is_now(view) {
            return None;
        }
        match self {
            Said::Ring(_, tag) => {
                let tag = std::str::from_utf8(tag.as_slice()).ok()?;
                Some(Word::Ring(RingWord {
                    line: None,
                    tag: Some(tag),
                    bounds: Bounds::default(),
                }))
            }
            Said::Peer(place, end, is_moved) => {
                let line = name_of(lines, *place)?;
                Some(Word::Peer(PeerWord {
                    line,
                    leg: leg_of(place.leg),
                    address: Some(end.address),
                    bounds: bounds_of(*end),
                    is_moved: *is_moved,
                }))
            }
            Said::Refuse(place, digits) => {
                let line = name_of(lines, *place)?;
                let cause = std::str::from_utf8(digits).ok()?;
                Some(Word::Refuse(line, cause))
            }
            Said::HangUp(place) => Some(Word::HangUp(name_of(lines, *place)?, leg_of(place.leg))),
        }
    }
}

/// The name of the line of a place.
fn name_of(lines: &[SipLine], place: Place) -> Option<&str>
    ensures { IfSome result (λ name. name_of lines.now place ≡ Some name.now) }
{
    let line = lines.get(place.line as usize)?;
    Some(line.name.as_str())
}
