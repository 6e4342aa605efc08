//! What opens the lines of an exchange.
ghost use Rattle.std.specs.Prelude.{IfOk};
ghost use Rattle.fax_loop.specs.declared.exchange.Lines.{Lines as OpenedLines};

use crate::exchange::Lines;
use fax_gateway::Wire;
use fax_terminal::End;
use std::io;

/// What opens the lines of an exchange: the end of the machine that calls, the gateway's wire, and the end of the machine that is
/// called.
pub trait OpensLines {
    /// The end of a machine.
    type End: End + Drop;
    /// The gateway's wire.
    type Wire: Wire + Drop;

    /// Lines that were opened, before anything went over them. By default nothing is told of them.
    ghost opened: { Self → OpenedLines Self.End Self.Wire → Type 0 } = { λ opener lines. Unit {0} };

    /// Opens lines. An `Err` is that of the system.
    fn open(&self) -> io::Result<Lines<Self::End, Self::Wire>>
        ensures { IfOk result (λ lines. opened self.now lines) };
}
