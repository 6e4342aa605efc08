//! What a user agent is, as long as it runs.
ghost use Rattle.std.specs.Prelude.{◌≡◌, ◌⊎◌, ℕ, true, IfNone, IfOk, IfSome};
ghost use Rattle.fax_trunks.specs.Routes.{IsChoice, NoneFits, fits_of};
ghost use Rattle.fax_user_agent.specs.Placings.{IsRoutedOver};
ghost use Rattle.fax_user_agent.specs.Senders.{is_of_trunk, is_one_host, trunk_of};
ghost use Rattle.fax_user_agent.specs.declared.settings.Trunk.{Trunk as TrunkShown};

use crate::settings::{Settings, Trunk};
use fax_trunks::{Family, Host, Number, Route, allows, choose};
use std::alloc::{AllocError, Global};
use std::net::SocketAddr;

/// What a user agent is, as long as it runs.
pub(crate) struct Profile {
    pub alloc: Global,
    pub audio: SocketAddr,
    pub ring_ms: u64,
    pub trunks: Vec<Trunk>,
    pub routes: Vec<Route>,
    /// Who sends our requests, as `Via` tells it.
    pub sent_by: String,
    /// Our `Contact` in calls.
    pub contact: String,
}

impl Drop for Profile {
    fn drop(self) {
        let Profile {
            alloc: _alloc,
            audio: _audio,
            ring_ms: _ring_ms,
            trunks: _trunks,
            routes: _routes,
            sent_by: _sent_by,
            contact: _contact,
        } = self;
    }
}

/// How a call to a number is placed.
pub(crate) struct Placing<'a> {
    /// The place of the route.
    pub place: usize,
    /// The place of its trunk, and that trunk.
    pub trunk_place: usize,
    pub trunk: &'a Trunk,
    /// What is dialled there.
    pub dialled: Number,
}

impl Drop for Placing<'_> {
    fn drop(self) {
        let Placing {
            place: _place,
            trunk_place: _trunk_place,
            trunk: _trunk,
            dialled: _dialled,
        } = self;
    }
}

/// Whether two hosts are one.
fn is_one(one: Host, other: Host) -> bool
    ensures { result ≡ is_one_host one other }
{
    let same_family = matches!(
        (one.family, other.family),
        (Family::Four, Family::Four) | (Family::Six, Family::Six)
    );
    same_family && one.bits == other.bits
}

/// Whether a datagram from there is a trunk's: of the host of its address, or of its networks.
fn may_call(trunk: &Trunk, from: SocketAddr) -> bool
    ensures { result ≡ is_of_trunk from trunk.now }
{
    is_one(Host::of(from.ip()), Host::of(trunk.address.ip()))
        || allows(trunk.allow.as_slice(), from.ip())
}

/// The place of the first trunk whose datagram it may be that comes from there.
fn first_trunk(trunks: &[Trunk], from: SocketAddr) -> Option<usize>
    ensures { result ≡ trunk_of trunks.now from }
{
    trunks.iter().position(|trunk| may_call(trunk, from))
}

/// Where a request over a trunk goes: where it is to go, if a datagram from there would be the trunk's, and else to the trunk's address.
fn destination_over(trunk: &Trunk, wanted: Option<SocketAddr>) -> SocketAddr
    ensures wanted { IfSome wanted
        (λ address. is_of_trunk address trunk.now ≡ true → result ≡ address) }
    ensures own { (is_of_trunk result trunk.now ≡ true) ⊎ (result ≡ trunk.now.address) }
{
    match wanted {
        Some(address) => {
            if may_call(trunk, address) {
                address
            } else {
                trunk.address
            }
        }
        None => trunk.address,
    }
}

impl Profile {
    /// The profile of settings.
    pub fn new(alloc: Global, settings: Settings) -> Result<Self, AllocError>
        ensures trunks { IfOk result (λ profile. profile.trunks.items ≡ settings.trunks.items) }
        ensures routes { IfOk result (λ profile. profile.routes.items ≡ settings.routes.items) }
    {
        let Settings {
            local,
            audio,
            ring_seconds,
            calls: _,
            trunks,
            routes,
        } = settings;
        let sent_by = format!(in alloc; "{local}")?;
        let contact = format!(in alloc; "<sip:{local}>")?;
        Ok(Profile {
            alloc,
            audio,
            ring_ms: 1_000 * u64::from(ring_seconds),
            trunks,
            routes,
            sent_by,
            contact,
        })
    }

    /// The place of the first trunk that a datagram of this address may come from.
    pub fn trunk_from(&self, from: SocketAddr) -> Option<usize>
        ensures { result ≡ trunk_of self.now.trunks.items from }
    {
        first_trunk(self.trunks.as_slice(), from)
    }

    /// Where a request over a trunk goes: where it is to go, if that is the trunk's, and else to the trunk's address.
    pub fn destination(&self, trunk: usize, wanted: Option<SocketAddr>) -> Option<SocketAddr> {
        let trunk = self.trunks.get(trunk)?;
        Some(destination_over(trunk, wanted))
    }

    /// The route of a number.
    pub fn route_of(&self, number: &Number) -> Option<usize>
        ensures some { IfSome result (IsChoice (fits_of self.now.routes.items number.now)) }
        ensures none { IfNone result (NoneFits (fits_of self.now.routes.items number.now)) }
    {
        choose(self.routes.as_slice(), number)
    }

    /// How a call to the number that these octets are is placed; nowhere where they are none, no route takes it, or nothing is dialled there for it.
    pub fn placing(&self, octets: &[u8]) -> Option<Placing<'_>>
        ensures some { IfSome result (λ placing. IsRoutedOver self.now.trunks.items
            self.now.routes.items octets.now placing.place placing.trunk.now) }
        ensures none { IfNone result ((place : ℕ) (trunk : TrunkShown)
            → IsRoutedOver self.now.trunks.items
            self.now.routes.items octets.now place trunk → ⊥) }
    {
        let Ok(number) = Number::read(octets) else {
            return None;
        };
        let place = self.route_of(&number)?;
        let route = self.routes.get(place)?;
        let Ok(dialled) = route.dialled(&number) else {
            return None;
        };
        let trunk = self.trunks.get(route.trunk())?;
        Some(Placing {
            place,
            trunk_place: route.trunk(),
            trunk,
            dialled,
        })
    }
}
