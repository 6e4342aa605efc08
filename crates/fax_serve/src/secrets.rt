//! What nobody is told: passwords, and what is random.
ghost use Rattle.std.specs.Prelude.{◌≤◌, length, IfOk};

use fax_config::{SipConfig, TrunkConfig};
use fax_opening::ServeFault;
use fax_sip_service::Passwords;
use std::alloc::{AllocError, Global};
use std::fs::{File, Files};
use std::io::{self, ErrorKind, Read};

/// Where the system gives what is random (random(4)).
const RANDOM: &str = "/dev/urandom";

/// The longest password.
const MOST_PASSWORD_OCTETS: usize = 256;

/// So many octets of a file are read: a password, and how its line ends.
const MOST_READ: usize = 258;

/// A read that gives less is followed by another, so often.
const MOST_READS: usize = 64;

/// The passwords of the trunks, and a seed.
pub(crate) struct Secrets {
    pub passwords: Passwords,
    pub seed: [u8; 32],
}

impl Drop for Secrets {
    fn drop(self) {
        let Secrets {
            passwords: _passwords,
            seed: _seed,
        } = self;
    }
}

/// Reads what nobody is told.
pub(crate) fn read_secrets<N: Files>(
    system: &N,
    alloc: Global,
    config: &SipConfig,
) -> Result<Secrets, ServeFault> {
    let mut of_trunks = Vec::new(alloc);
    for trunk in &config.trunks {
        of_trunks.push(password_of(system, alloc, trunk)?)?;
    }
    match read_seed(system) {
        Ok(seed) => Ok(Secrets {
            passwords: Passwords { of_trunks },
            seed,
        }),
        Err(error) => Err(ServeFault::Random(error)),
    }
}

/// The password of a trunk; empty where it has none.
fn password_of<N: Files>(
    system: &N,
    alloc: Global,
    trunk: &TrunkConfig,
) -> Result<String, ServeFault> {
    let Some(path) = &trunk.password_file else {
        return Ok(String::new(alloc));
    };
    match read_password(system, alloc, path.as_str()) {
        Ok(password) => Ok(password),
        Err(error) => Err(ServeFault::Password(
            String::from_str(alloc, trunk.name.as_str())?,
            error,
        )),
    }
}

/// The first line of a file.
fn read_password<N: Files>(system: &N, alloc: Global, path: &str) -> io::Result<String> {
    let mut file = File::open(system, path)?;
    let mut octets = [0; MOST_READ];
    let count = fill(&mut file, &mut octets)?;
    let octets = first_line(&octets[..count]);
    if octets.is_empty() {
        return Err(io::Error::new(ErrorKind::InvalidData, "its first line is empty"));
    }
    if octets.len() > MOST_PASSWORD_OCTETS {
        return Err(io::Error::new(ErrorKind::InvalidData, "its first line is too long"));
    }
    let Ok(text) = std::str::from_utf8(octets) else {
        return Err(io::Error::new(ErrorKind::InvalidData, "it is no text"));
    };
    match String::from_str(alloc, text) {
        Ok(password) => Ok(password),
        Err(AllocError) => Err(io::Error::from(ErrorKind::OutOfMemory)),
    }
}

/// What stands before the first line feed, and before the carriage return that stands before that.
fn first_line(octets: &[u8]) -> &[u8] {
    let line = match octets.iter().position(|octet| *octet == b'\n') {
        Some(end) => &octets[..end],
        None => octets,
    };
    match line {
        [before @ .., b'\r'] => before,
        _ => line,
    }
}

/// Reads until the buffer is full, or nothing more comes. It answers how much came.
fn fill<R: Read>(reader: &mut R, buffer: &mut [u8]) -> io::Result<usize>
    ensures { IfOk result (λ count. count ≤ length buffer.new) }
{
    let mut filled: usize = 0;
    for _ in 0..MOST_READS {
        if filled >= buffer.len() {
            return Ok(buffer.len());
        }
        let count = reader.read(&mut buffer[filled..])?;
        if count == 0 {
            return Ok(filled.min(buffer.len()));
        }
        filled = filled.saturating_add(count);
    }
    Ok(filled.min(buffer.len()))
}

/// 32 octets that nobody knows.
fn read_seed<N: Files>(system: &N) -> io::Result<[u8; 32]> {
    let mut file = File::open(system, RANDOM)?;
    let mut seed = [0; 32];
    if fill(&mut file, &mut seed)? < seed.len() {
        return Err(io::Error::from(ErrorKind::UnexpectedEof));
    }
    Ok(seed)
}
