//! Laws of the definitions: functions that do nothing, each of whose contracts is a theorem.
ghost use Rattle.fax_laws.specs.exchanges.Exchanges.{ExchangesEndWell};

use crate::delivery::laws::{gateways_pass_pages, reports_are_deliveries};

/// For each page whose text fits and each setting there is an exchange in which each datagram that was handed over comes at the other end,
/// once and in order, which is played to its end: the job is reported as delivered, and the machine that is called confirmed just this
/// page.
pub fn exchanges_end_well()
    ensures { ExchangesEndWell }
{
    gateways_pass_pages();
    reports_are_deliveries();
}
