//! The streams of the process.
use std::alloc::Global;
use std::fmt::Display;
use std::io;
use std::io::{Stderr, Stdin, Stdout};

/// The standard streams of the process, and what gives it memory. They are no type parameters: what is proved over a bound costs
/// several times as much.
#[derive(Clone, Copy)]
pub struct Console {
    input: Stdin,
    output: Stdout,
    errors: Stderr,
    alloc: Global,
}

impl Console {
    /// These streams, and this memory.
    pub fn new(input: Stdin, output: Stdout, errors: Stderr, alloc: Global) -> Self {
        Console {
            input,
            output,
            errors,
            alloc,
        }
    }

    /// The standard input.
    pub(crate) fn input(&self) -> Stdin {
        self.input
    }

    /// The standard output.
    pub(crate) fn output(&self) -> Stdout {
        self.output
    }

    /// The standard error.
    pub(crate) fn errors(&self) -> Stderr {
        self.errors
    }

    /// What gives memory.
    pub(crate) fn alloc(&self) -> Global {
        self.alloc
    }
}

/// What is printed goes to the standard output.
impl Print for Console {
    fn print<D: Display + Drop>(&self, value: D) -> io::Result<()> {
        self.output.print(value)
    }

    fn println<D: Display + Drop>(&self, value: D) -> io::Result<()> {
        self.output.println(value)
    }

    fn write_all(&self, octets: &[u8]) -> io::Result<()> {
        Print::write_all(&self.output, octets)
    }
}

impl Eprint for Console {
    fn eprint<D: Display + Drop>(&self, value: D) -> io::Result<()> {
        self.errors.eprint(value)
    }

    fn eprintln<D: Display + Drop>(&self, value: D) -> io::Result<()> {
        self.errors.eprintln(value)
    }
}
