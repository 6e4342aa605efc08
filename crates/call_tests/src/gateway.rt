//! Whole calls on both legs, event by event and over a wire, and what is refused.
mod call;
mod driving;
mod restored;
mod settings;
mod watched;
mod wire;

use crate::memory::refused;
use call::{Change, is_whole_call, play_call};
use fax_answer::Refusal;
use fax_gateway::RingFault;
use fax_pagestore::PageFault;
use std::test::Fail;

#[test]
fn a_page_goes_through_the_gateway(rt: HostRuntime) -> Result<(), Fail> {
    let (played, refused_calls) = play_call(rt.alloc(), Change::None);
    assert!(rt; is_whole_call(&played));
    println!(rt; "refused: {}", refused(&rt, refused_calls))?;
    Ok(())
}

/// Where nothing is held yet, an octet is room enough for a datagram.
#[test]
fn a_page_into_the_last_octet(rt: HostRuntime) {
    let (played, _) = play_call(rt.alloc(), Change::Memory(1));
    assert!(rt; is_whole_call(&played));
}

/// Whether the reason is told where in place of the page an EOL, a white row, an EOL and what no code word begins with come,
/// where the page's datagram is lost, and where it is refused, since nothing may be held.
#[test]
fn a_page_that_is_refused(rt: HostRuntime) {
    let bad = b"\x00\x04\x0c\xc2\x01\xf0\x00\x06\x00\x14\xd9\xa8\x00\x80\x40\x00\x00";
    for (change, why) in [
        (
            Change::Instead(4, bad),
            Refusal::Fault(PageFault::BadLine(1)),
        ),
        (Change::Without(4), Refusal::NoImage),
        (Change::Memory(0), Refusal::NoImage),
    ] {
        let (played, _) = play_call(rt.alloc(), change);
        assert!(rt;
            played.refused == Some(why) && played.kept.is_none() && played.report.is_none()
        );
    }
}

#[test]
fn faults_have_numbers(rt: HostRuntime) {
    let numbers = [
        RingFault::Busy.number(),
        RingFault::NoNumber.number(),
        RingFault::NoMemory.number(),
    ];
    assert!(rt; numbers == [1, 2, 3]);
}
