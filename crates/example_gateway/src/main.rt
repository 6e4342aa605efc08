//! Drives a gateway over a wire of its own: a call is rung, nobody says a word, and what the gateway sends is printed.
#![tactic(auto)]

use fax_gateway::{Driver, Gateway, Leg, Wire, WireFault};
use fax_pagestore::PackedRows;
use std::alloc::{AllocError, Global};
use std::io;

/// A wire on which nothing comes, and which writes down what is sent.
#[derive(Drop)]
struct Notes {
    text: String,
}

impl Wire for Notes {
    ghost use Rattle.std.specs.Prelude.{None};

    ghost known = { λ notes. record { failures = 0; received = None; sent = None } };

    fn receive(&mut self, _: Leg, _: &mut [u8]) -> Result<Option<usize>, WireFault> {
        Ok(None)
    }

    fn send(&mut self, leg: Leg, octets: &[u8]) -> Result<(), WireFault> {
        // what cannot be noted for want of memory is left out
        let _ = note(&mut self.text, leg, octets);
        Ok(())
    }
}

/// Writes a datagram down: its leg, and its octets as hex.
fn note(text: &mut String, leg: Leg, octets: &[u8]) -> Result<(), AllocError> {
    text.push_str(match leg {
        Leg::Calling => "a ",
        Leg::Called => "b ",
    })?;
    for octet in octets {
        write!(text, "{octet:02x}")?;
    }
    text.push('\n')
}

/// A ring, and four turns of 40 ms: what the gateway sends in them.
fn answer(alloc: Global) -> Result<String, AllocError> {
    let mut gateway: Gateway<PackedRows> = Gateway::new(alloc, 3).map_err(|_| AllocError)?;
    let mut driver = Driver::new(alloc).map_err(|_| AllocError)?;
    let mut wire = Notes {
        text: String::new(alloc),
    };
    play(&mut gateway, &mut driver, &mut wire);
    Ok(wire.text)
}

/// The same with what it wants.
fn play(gateway: &mut Gateway<PackedRows>, driver: &mut Driver, wire: &mut Notes) {
    if gateway.ring(0).is_ok() {
        for turn in 0..4 {
            driver.turn(gateway, wire, 40 * turn);
        }
    }
}

fn main(rt: HostRuntime) -> io::Result<()> {
    match answer(rt.alloc()) {
        Ok(text) => rt.print(text),
        Err(AllocError) => rt.println("memory was refused"),
    }
}
