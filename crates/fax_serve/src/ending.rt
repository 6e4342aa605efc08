//! Whether a server ends, and what for, as what gives the orders knows it.
ghost use Rattle.std.specs.Prelude.{◌≡◌};

use fax_clients::Asker;
use fax_desk::RunEnd;
use fax_pace::{RealPace, RedialSide, SipSide};
use std::rt::Clock;

/// What gives the orders, and knows whether the server was told to stop, or to read its configuration again.
pub(crate) trait EndingPace {
    /// Whether it was told to stop.
    fn is_stopping(&self) -> bool;

    /// The client that asked that the configuration is read again, where one did since this was asked last.
    fn take_reload(&mut self) -> Option<Asker>
        ensures { self.new ≡ self.old };

    /// It was read again for this client: another run is to serve it, in which these lines, counted from 0, are not, or not so. `None`: none
    /// can.
    fn reload(&mut self, asker: Asker, gone: Option<&[usize]>)
        ensures { self.new ≡ self.old };

    /// Writes what clients are still to be told, for a while. It answers how the run ends.
    fn finish(&mut self) -> RunEnd;
}

impl<'a, C: Clock, R: RedialSide + Drop, S: SipSide + Drop> EndingPace for RealPace<'a, C, R, S> {
    fn is_stopping(&self) -> bool {
        RealPace::is_stopping(self)
    }

    fn take_reload(&mut self) -> Option<Asker> {
        RealPace::take_reload(self)
    }

    fn reload(&mut self, asker: Asker, gone: Option<&[usize]>) {
        RealPace::reload(self, asker, gone);
    }

    fn finish(&mut self) -> RunEnd {
        RealPace::finish(self)
    }
}
