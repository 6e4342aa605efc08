//! Settings that are beyond their limits.
use fax_gateway::Settings;

/// Redundancies with pauses in milliseconds, and what they read as: at most eight packets before a datagram's own, and a pause of 40 to
/// 2,000 ms (this project's profile).
const READ_AS: [((u8, u16), (u8, u16)); 4] = [
    ((3, 1_000), (3, 1_000)),
    ((8, 40), (8, 40)),
    ((9, 39), (8, 40)),
    ((255, 2_001), (8, 2_000)),
];

/// These settings within their limits.
fn limited(redundancy: u8, preamble_ms: u16) -> (u8, u16) {
    let settings = Settings {
        redundancy,
        preamble_ms,
        ..Settings::default()
    };
    let limited = settings.within_limits();
    (limited.redundancy, limited.preamble_ms)
}

#[test]
fn settings_read_as_their_limits(rt: HostRuntime) {
    for ((redundancy, pause), wanted) in READ_AS {
        assert!(rt; limited(redundancy, pause) == wanted);
    }
}
