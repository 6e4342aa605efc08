//! What a frame asks of the answerer.
ghost use Rattle.std.specs.Prelude.{◌≡◌};

use fax_frames::{Dcs, Frame};

/// The command after a page (ITU-T T.30, 5.3.6.1.5).
#[derive(Clone, Copy, PartialEq, Eq)]
pub enum Command {
    /// End of message: a page of another format follows.
    Eom,
    /// Multipage signal: more pages follow.
    Mps,
    /// End of procedure: none follows.
    Eop,
}

/// What a frame asks of the answerer.
#[derive(Clone, Copy, PartialEq, Eq)]
pub enum Order {
    /// A digital command signal: train with it.
    Train(Dcs),
    /// A command after a page: judge the page.
    Judge(Command),
    /// A disconnect.
    Disconnect,
    /// Nothing (this project's profile): every other frame, and octets that are no frame.
    Nothing,
}

impl Order {
    ghost use Rattle.fax_answer.specs.Orders.{order_of};

    /// What the frame of these octets asks.
    pub fn read(octets: &[u8]) -> Order
        ensures { result ≡ order_of octets.now }
    {
        match Frame::read(octets) {
            Some(Frame::Dcs(dcs)) => Order::Train(dcs),
            Some(Frame::Eom) => Order::Judge(Command::Eom),
            Some(Frame::Mps) => Order::Judge(Command::Mps),
            Some(Frame::Eop) => Order::Judge(Command::Eop),
            Some(Frame::Dcn) => Order::Disconnect,
            _ => Order::Nothing,
        }
    }
}
