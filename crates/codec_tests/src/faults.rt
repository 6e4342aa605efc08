//! Faults by their numbers (this project's profile).
use fax_frames::Refusal;
use fax_ifp::IfpFault;
use fax_mhcode::LineFault;
use fax_pagestore::PageFault;
use fax_runcodes::{RowFault, RunFault};
use fax_udptl::UdptlFault;

#[test]
fn the_last_fault_of_each_kind_has_its_number(rt: HostRuntime) {
    let lines = [
        RunFault::End.number(),
        RowFault::NoMemory.number(),
        LineFault::NoMemory.number(),
        PageFault::NoMemory.number(),
    ];
    let calls = [
        IfpFault::NoMemory.number(),
        UdptlFault::BadLength.number(),
        Refusal::RatesSpent.number(),
    ];
    assert!(rt; lines == [3, 2, 5, 6] && calls == [5, 2, 4]);
}
