//! A call: what is kept of it beside what the switch knows.
use crate::out::{CallTold, Direction, Progress, Tag};
use crate::profile::Profile;
use fax_dialogs::{Dialog, SessionTimer};
use fax_requests::{Interval, OurMedia, Token};
use fax_switch::Offer;
use std::net::{IpAddr, Ipv4Addr, SocketAddr};

/// A request that waits for an answer.
pub(crate) struct Asked {
    /// The number of its server transaction.
    pub server: u64,
    /// The request.
    pub octets: Vec<u8>,
    /// Where its answers go.
    pub to: SocketAddr,
}

impl Drop for Asked {
    fn drop(self) {
        let Asked {
            server: _server,
            octets: _octets,
            to: _to,
        } = self;
    }
}

/// Something that may have to be sent again.
pub(crate) struct Kept {
    /// The number of the INVITE that it is about.
    pub number: u32,
    /// The branch of that INVITE.
    pub branch: Vec<u8>,
    pub to: SocketAddr,
    pub octets: Vec<u8>,
}

impl Drop for Kept {
    fn drop(self) {
        let Kept {
            number: _number,
            branch: _branch,
            to: _to,
            octets: _octets,
        } = self;
    }
}

/// How our INVITE that is under way stands.
#[derive(Clone, Copy)]
pub(crate) struct Inviting {
    /// What it offers.
    pub offer: Offer,
    /// Its number in the dialog.
    pub number: u32,
    /// Whether a challenge was answered.
    pub is_authorized: bool,
    /// Whether it asks for a longer interval than the one before.
    pub is_longer: bool,
    /// Whether it could not be sent.
    pub is_unsent: bool,
}

/// A call: what is kept of it beside what the switch knows.
pub(crate) struct CallState {
    pub id: u64,
    pub trunk: usize,
    pub direction: Direction,
    /// The number that is called.
    pub number: Tag,
    /// What is dialled for it on the trunk.
    pub dialled: Tag,
    /// Whether it has a place among the calls of its trunk.
    pub has_place: bool,
    /// Where the leg is heard.
    pub leg: SocketAddr,
    pub call_id: Token,
    pub tag: Token,
    pub dialog: Option<Dialog>,
    /// Their INVITE that waits for an answer.
    pub theirs: Option<Asked>,
    /// Our last 2xx.
    pub accepted: Option<Kept>,
    pub inviting: Inviting,
    /// Our last ACK of a 2xx.
    pub ack: Option<Kept>,
    pub timer: SessionTimer,
    /// What our next INVITE says of the interval of its session.
    pub interval: Interval,
    pub version: u64,
    /// When our INVITE is given up.
    pub ring_until: Option<u64>,
    /// Whether our INVITE was given up since it rang too long.
    pub rang: bool,
    pub is_answered: bool,
    /// The status with which it was refused; 0 while it was not.
    pub refused: u16,
}

impl Drop for CallState {
    fn drop(self) {
        let CallState {
            id: _id,
            trunk: _trunk,
            direction: _direction,
            number: _number,
            dialled: _dialled,
            has_place: _has_place,
            leg: _leg,
            call_id: _call_id,
            tag: _tag,
            dialog: _dialog,
            theirs: _theirs,
            accepted: _accepted,
            inviting: _inviting,
            ack: _ack,
            timer: _timer,
            interval: _interval,
            version: _version,
            ring_until: _ring_until,
            rang: _rang,
            is_answered: _is_answered,
            refused: _refused,
        } = self;
    }
}

impl CallState {
    /// Our media, as the next description tells them.
    pub fn ours(&mut self, profile: &Profile, offer: Offer) -> OurMedia {
        self.version = self.version.saturating_add(1);
        OurMedia {
            offer,
            address: match offer {
                Offer::Fax => self.leg,
                Offer::Audio => profile.audio,
            },
            session: self.id,
            version: self.version,
        }
    }

    /// What is told of it.
    pub fn told(&self, progress: Progress) -> CallTold {
        CallTold {
            call: self.id,
            trunk: self.trunk,
            direction: self.direction,
            number: copy_of(&self.number),
            progress,
        }
    }
}

/// A copy of a tag.
pub(crate) fn copy_of(tag: &Tag) -> Tag {
    tag_of(tag.as_slice())
}

/// A tag of these octets, 64 at most.
pub(crate) fn tag_of(octets: &[u8]) -> Tag {
    let mut copy = Tag::new();
    let _ = copy.try_extend_from_slice(octets);
    copy
}

/// No address.
pub(crate) fn nowhere() -> SocketAddr {
    SocketAddr::new(IpAddr::V4(Ipv4Addr::new(0, 0, 0, 0)), 0)
}
