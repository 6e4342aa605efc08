//! Where calls come from and go to: numbers and addresses of RFC 3261 (19.1.3, 19.1.6), networks as Python's `ipaddress` takes them,
//! and the moments of RFC 5626, 4.5, in milliseconds.
use fax_sip::user_of;
use fax_trunks::{
    Calls, Host, Network, NetworkFault, Number, NumberFault, Registration, RegistrationAction,
    RegistrationEvent, Route, SlowHosts, allows, choose,
};
use std::net::IpAddr;

/// Addresses, and the numbers that their users are, or why they are none.
const CALLED: &[(&str, Result<&str, NumberFault>)] = &[
    ("sip:1212@gateway.com", Ok("1212")),
    (
        "sip:+12125551212@phone2net.com;user=phone",
        Ok("+12125551212"),
    ),
    (
        "sips:+358-555-1234567;postd=pp22@foo.com",
        Err(NumberFault::NotADigit),
    ),
    (
        "sip:+3585551234567;postd=pp22@foo.com",
        Ok("+3585551234567"),
    ),
    ("sip:1212:1234@gateway.com", Ok("1212")),
    ("tel:+12125551212", Err(NumberFault::NoUser)),
];

/// Octets that are a number, or why they are none.
const NUMBERS: &[(&str, Result<&str, NumberFault>)] = &[
    (
        "01234567890123456789012345678901",
        Ok("01234567890123456789012345678901"),
    ),
    ("", Err(NumberFault::NoDigits)),
    ("+", Err(NumberFault::NoDigits)),
    ("++49", Err(NumberFault::NotADigit)),
    ("49+", Err(NumberFault::NotADigit)),
    ("+1-212-555-1212", Err(NumberFault::NotADigit)),
    ("(030)1", Err(NumberFault::NotADigit)),
    ("030.1", Err(NumberFault::NotADigit)),
    ("alice", Err(NumberFault::NotADigit)),
    (
        "012345678901234567890123456789012",
        Err(NumberFault::TooLong),
    ),
];

/// Networks, an address within, and one that is not (`ip_address(..) in ip_network(..)`).
const NETWORKS: &[(&str, &str, &str)] = &[
    ("198.51.100.0/28", "198.51.100.15", "198.51.100.16"),
    ("192.0.2.128/25", "192.0.2.128", "192.0.2.127"),
    ("203.0.113.7/32", "203.0.113.7", "203.0.113.6"),
    ("0.0.0.0/0", "203.0.113.6", "::1"),
    ("10.0.0.0/7", "11.0.0.1", "12.0.0.0"),
    ("2001:db8::/32", "2001:db8:ffff::1", "2001:db9::"),
    (
        "2001:db8:0:8000::/49",
        "2001:db8:0:ffff:1::",
        "2001:db8:0:7fff::",
    ),
    ("::1/128", "::1", "::2"),
    ("::/0", "fec0::", "203.0.113.6"),
    ("fe80::/10", "febf::1", "fec0::"),
    (
        "198.51.100.0/28",
        "::ffff:c633:6409",
        "::ffff:198.51.100.16",
    ),
    ("::ffff:198.51.100.0/124", "198.51.100.9", "198.51.100.16"),
    ("::ffff:0:0/96", "203.0.113.6", "::fffe:1"),
];

/// Texts that are no network, and why.
const NO_NETWORKS: &[(&str, NetworkFault)] = &[
    ("198.51.100.0", NetworkFault::NoLength),
    ("198.51.100/28", NetworkFault::BadAddress),
    ("198.51.100.256/28", NetworkFault::BadAddress),
    ("2001:db8:::/32", NetworkFault::BadAddress),
    ("198.51.100.0/", NetworkFault::BadLength),
    ("198.51.100.0/-1", NetworkFault::BadLength),
    ("198.51.100.0/ 28", NetworkFault::BadLength),
    ("198.51.100.0/28/1", NetworkFault::BadLength),
    ("198.51.100.0/33", NetworkFault::TooLong),
    ("2001:db8::/129", NetworkFault::TooLong),
    ("198.51.100.1/28", NetworkFault::BitsBeyond),
    ("2001:db8::1/32", NetworkFault::BitsBeyond),
    ("::ffff:198.51.100.1/124", NetworkFault::BitsBeyond),
    ("::ffff:0:0/95", NetworkFault::BitsBeyond),
];

/// A route: its prefix, how many digits it strips, and what it adds. Of those of a trunk each, in this order, one of 4 digits is taken for
/// another of as many that comes after it.
type Way = (&'static [u8], u8, &'static [u8]);

const WAYS: [Way; 4] = [
    (b"+49", 0, b""),
    (b"+4930", 3, b"0"),
    (b"+4930", 0, b""),
    (b"00", 2, b"+"),
];

/// Numbers, the trunk over which each goes, and what is dialled there.
const CHOSEN: &[(&[u8], Option<(usize, &[u8])>)] = &[
    (b"+4930123", Some((1, b"030123"))),
    (b"0033123", Some((3, b"+33123"))),
    (b"+4989", Some((0, b"+4989"))),
    (b"+33123", None),
];

/// The number of octets.
fn number(octets: &[u8]) -> Result<Number, NumberFault> {
    Number::read(octets)
}

/// A route over a trunk.
fn route(way: Way, trunk: usize) -> Result<Route, NumberFault> {
    let (prefix, strip, add) = way;
    Route::new(number(prefix)?, trunk, strip, add)
}

/// What is dialled over a route.
fn dialled(route: &Route, octets: &[u8]) -> Result<Number, NumberFault> {
    route.dialled(&number(octets)?)
}

/// The octets of a number.
fn octets_of(number: &Number) -> &[u8] {
    number.as_bytes()
}

/// The network of a text.
fn network(text: &str) -> Result<Network, NetworkFault> {
    Network::read(text)
}

/// The host of an address, where it is one.
fn host(address: &str) -> Option<Host> {
    match address.parse::<IpAddr>() {
        Ok(address) => Some(Host::of(address)),
        Err(_) => None,
    }
}

/// Whether a network has the host of an address.
fn contains(network: &Network, address: &str) -> Option<bool> {
    Some(network.contains(host(address)?))
}

/// The number of the user of an address.
fn called(uri: &str) -> Result<Number, NumberFault> {
    Number::of_user(user_of(uri.as_bytes()))
}

/// Whether this number is read, or none for this reason.
fn is_number(read: Result<Number, NumberFault>, wanted: &Result<&str, NumberFault>) -> bool {
    match (read, wanted) {
        (Ok(number), Ok(text)) => octets_of(&number) == text.as_bytes(),
        (Err(fault), Err(wanted)) => fault == *wanted,
        _ => false,
    }
}

#[test]
fn users_that_are_numbers_are_read(rt: HostRuntime) {
    for (uri, wanted) in CALLED {
        assert!(rt; is_number(called(uri), wanted), "{uri}");
    }
}

#[test]
fn numbers_are_read_or_it_is_said_why_not(rt: HostRuntime) {
    for (octets, wanted) in NUMBERS {
        assert!(rt; is_number(number(octets.as_bytes()), wanted), "{octets}");
    }
}

/// The trunk over which a number goes, and what is dialled there.
fn chosen(routes: &[Route], octets: &[u8]) -> Result<Option<(usize, Number)>, NumberFault> {
    let number = number(octets)?;
    let Some(i) = choose(routes, &number) else {
        return Ok(None);
    };
    match routes.get(i) {
        Some(route) => Ok(Some((route.trunk(), dialled(route, octets)?))),
        None => Ok(None),
    }
}

/// Whether a number goes over this trunk, and this is dialled there.
fn goes_over(routes: &[Route], octets: &[u8], wanted: &Option<(usize, &[u8])>) -> bool {
    match (chosen(routes, octets), wanted) {
        (Ok(Some((trunk, number))), Some((over, dialled))) => {
            trunk == *over && octets_of(&number) == *dialled
        }
        (Ok(None), None) => true,
        _ => false,
    }
}

/// The routes of the trunks.
fn routes() -> Option<[Route; 4]> {
    let [local, city, again, abroad] = WAYS;
    Some([
        route(local, 0).ok()?,
        route(city, 1).ok()?,
        route(again, 2).ok()?,
        route(abroad, 3).ok()?,
    ])
}

/// Whether each number goes where it is to, and one nowhere where there are no routes.
fn are_chosen() -> Option<bool> {
    let routes = routes()?;
    for (octets, wanted) in CHOSEN {
        if !goes_over(&routes, octets, wanted) {
            return None;
        }
    }
    Some(goes_over(&[], b"+4930123", &None))
}

#[test]
fn the_longest_prefix_is_taken(rt: HostRuntime) {
    assert!(rt; are_chosen() == Some(true));
}

/// Whether the network of a text has each of two hosts.
fn contained(text: &str, one: &str, other: &str) -> [Option<bool>; 2] {
    match network(text) {
        Ok(network) => [contains(&network, one), contains(&network, other)],
        Err(_) => [None, None],
    }
}

#[test]
fn networks_are_those_of_ipaddress(rt: HostRuntime) {
    for (text, within, without) in NETWORKS {
        assert!(rt;
            contained(text, within, without) == [Some(true), Some(false)],
            "{text}"
        );
    }
}

#[test]
fn what_is_no_network_is_told(rt: HostRuntime) {
    for (text, fault) in NO_NETWORKS {
        assert!(rt; network(text).err() == Some(*fault), "{text}");
    }
}

/// Whether an IPv6 address is allowed by a network of IPv4, and by one of IPv6 after it.
fn allowed() -> Option<[bool; 2]> {
    let networks = [
        network("198.51.100.0/28").ok()?,
        network("2001:db8::/32").ok()?,
    ];
    let caller = "2001:db8::7".parse::<IpAddr>().ok()?;
    Some([allows(&networks[..1], caller), allows(&networks, caller)])
}

/// When something happens to a registration, what that is, what is to be done, and when something is due after it, where that is said:
/// after 32 s while nobody answers (RFC 3261, 17.1.2.2).
type Step = (u64, RegistrationEvent, RegistrationAction, Option<u64>);

const TIME: RegistrationEvent = RegistrationEvent::TimePassed;

const NOTHING: RegistrationAction = RegistrationAction::Nothing;

/// A registration from 1 s on for an hour: it is granted for 600 s, refreshed 90 s before their end, granted for two hours at least, and
/// ended.
const ENDED: &[Step] = &[
    (
        1_000,
        TIME,
        RegistrationAction::Register(3_600),
        Some(33_000),
    ),
    (
        1_100,
        RegistrationEvent::Challenged(false),
        RegistrationAction::RegisterWithCredentials(3_600),
        Some(33_100),
    ),
    (
        1_200,
        RegistrationEvent::Granted(600),
        NOTHING,
        Some(511_200),
    ),
    (511_199, TIME, NOTHING, Some(511_200)),
    (
        511_200,
        TIME,
        RegistrationAction::Register(3_600),
        Some(543_200),
    ),
    (
        511_300,
        RegistrationEvent::TooBrief(7_200),
        NOTHING,
        Some(516_300),
    ),
    (
        516_300,
        TIME,
        RegistrationAction::Register(7_200),
        Some(548_300),
    ),
    (516_400, RegistrationEvent::Ended, NOTHING, None),
    (
        516_500,
        RegistrationEvent::Granted(7_200),
        RegistrationAction::Unregister,
        None,
    ),
    (
        516_600,
        RegistrationEvent::Challenged(true),
        RegistrationAction::UnregisterWithCredentials,
        None,
    ),
    (516_700, RegistrationEvent::Granted(0), NOTHING, None),
];

/// One of a minute: a second challenge is no stale one.
const CHALLENGED: &[Step] = &[
    (0, TIME, RegistrationAction::Register(60), Some(32_000)),
    (
        1,
        RegistrationEvent::Challenged(false),
        RegistrationAction::RegisterWithCredentials(60),
        Some(32_001),
    ),
    (
        2,
        RegistrationEvent::Challenged(false),
        NOTHING,
        Some(30_002),
    ),
];

/// One that is refused, again and again: the pauses grow from 30 s to half an hour.
const PAUSES: [u64; 8] = [
    30_000, 60_000, 120_000, 240_000, 480_000, 960_000, 1_800_000, 1_800_000,
];

/// What is to be done in a step, and when something is due after it.
fn stepped(
    registration: &mut Registration,
    now: u64,
    event: RegistrationEvent,
) -> (RegistrationAction, Option<u64>) {
    (registration.step(now, event), registration.next_due())
}

/// How many steps go as they are to, and whether it is over then, with nothing due.
fn registered(mut registration: Registration, steps: &[Step]) -> (usize, bool) {
    let mut count = 0usize;
    for (now, event, action, due) in steps {
        let (done, next) = stepped(&mut registration, *now, *event);
        if done == *action && (due.is_none() || next == *due) {
            count = count.saturating_add(1);
        }
    }
    let is_over = matches!(registration, Registration::Over);
    (count, is_over && registration.next_due().is_none())
}

#[test]
fn registrations_are_refreshed_and_ended(rt: HostRuntime) {
    let ended = registered(Registration::begin(1_000, 3_600), ENDED);
    let challenged = registered(Registration::begin(0, 60), CHALLENGED);
    assert!(rt; ended == (ENDED.len(), true) && challenged == (CHALLENGED.len(), false));
}

/// Whether one is registered until 600 s after it was granted for that.
fn is_registered_until_its_end() -> [bool; 2] {
    let mut registration = Registration::begin(1_200, 3_600);
    stepped(&mut registration, 1_200, TIME);
    stepped(&mut registration, 1_200, RegistrationEvent::Granted(600));
    [
        registration.is_registered(601_199),
        registration.is_registered(601_200),
    ]
}

#[test]
fn failures_are_tried_again_after_growing_pauses(rt: HostRuntime) {
    let mut registration = Registration::begin(0, 3_600);
    let mut now = 0u64;
    for pause in PAUSES {
        let again = now.saturating_add(pause);
        let (action, _) = stepped(&mut registration, now, TIME);
        let refused = stepped(&mut registration, now, RegistrationEvent::Refused);
        assert!(rt;
            action == RegistrationAction::Register(3_600) && refused == (NOTHING, Some(again))
        );
        now = again;
    }
}

/// Whether calls are taken up to two, and again after one is released; and how many are on between.
fn taken() -> ([bool; 4], u32) {
    let mut calls = Calls::new(2);
    let first = calls.take();
    let second = calls.take();
    let third = calls.take();
    calls.release();
    let on = calls.on();
    ([first, second, third, calls.take()], on)
}

#[test]
fn callers_are_allowed_calls_bounded_and_registrations_end(rt: HostRuntime) {
    assert!(rt;
        allowed() == Some([false, true])
            && taken() == ([true, true, false, true], 1)
            && is_registered_until_its_end() == [true, false]
    );
}

/// A host fails at a moment, or succeeds.
fn fail(slow: &mut SlowHosts, host: Host, now: Option<u64>) {
    match now {
        Some(now) => slow.fail(host, now),
        None => slow.succeed(host),
    }
}

/// Whether a host is answered at a moment.
fn is_answered(slow: &SlowHosts, host: Host, now: u64) -> bool {
    slow.is_answered(host, now)
}

/// When a host fails, or that it succeeds; two moments after it, and whether it is answered then.
const FAILURES: &[(Option<u64>, [u64; 2], [bool; 2])] = &[
    (Some(5_000), [5_999, 6_000], [false, true]),
    (Some(6_000), [7_999, 8_000], [false, true]),
    (None, [6_000, 6_001], [true, true]),
];

/// How many of these slow a host as they are to, and another one not.
fn slowed() -> Option<usize> {
    let mut slow = SlowHosts::new();
    let caller = host("198.51.100.9")?;
    let other = host("198.51.100.10")?;
    let mut count = 0usize;
    for (failed, [first, second], wanted) in FAILURES {
        fail(&mut slow, caller, *failed);
        let answered = [
            is_answered(&slow, caller, *first),
            is_answered(&slow, caller, *second),
        ];
        if answered == *wanted && is_answered(&slow, other, 5_000) {
            count = count.saturating_add(1);
        }
    }
    Some(count)
}

#[test]
fn failures_slow_a_host(rt: HostRuntime) {
    assert!(rt; slowed() == Some(FAILURES.len()));
}
