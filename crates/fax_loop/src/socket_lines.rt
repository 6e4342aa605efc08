//! Lines over pairs of sockets.
ghost use Rattle.std.specs.Prelude.{◌≡◌};

use crate::exchange::Lines;
use crate::opens_lines::OpensLines;
use crate::opens_pairs::OpensPairs;
use crate::udp_end::UdpEnd;
use crate::udp_wire::UdpWire;
use std::io;

/// Opens lines over two pairs of sockets: one between the machine that calls and the gateway's calling leg, one between the machine
/// that is called and its called leg.
#[derive(Drop)]
pub struct SocketLines<P: OpensPairs> {
    pairs: P,
}

impl<P: OpensPairs> SocketLines<P> {
    /// Over pairs that are opened so.
    pub fn over(pairs: P) -> Self
        ensures { result.pairs ≡ pairs }
    {
        SocketLines { pairs }
    }
}

impl<P: OpensPairs> OpensLines for SocketLines<P> {
    type End = UdpEnd<P::Socket>;

    type Wire = UdpWire<P::Socket>;

    ghost opened = { λ opener lines.
        P.are_paired opener.pairs lines.caller.socket lines.wire.calling
        × P.are_paired opener.pairs lines.answerer.socket lines.wire.called
        × (lines.wire.failures ≡ 0) };

    fn open(&self) -> io::Result<Lines<UdpEnd<P::Socket>, UdpWire<P::Socket>>> {
        let (caller, calling) = self.pairs.pair()?;
        let (answerer, called) = self.pairs.pair()?;
        Ok(Lines {
            caller: UdpEnd { socket: caller },
            wire: UdpWire::new(calling, called),
            answerer: UdpEnd { socket: answerer },
        })
    }
}
