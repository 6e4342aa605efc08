//! A script of which memory is refused to some event: `tools/refuse-test-memory` refuses each allocation in turn.
use fax_command::{Status, StdSink, StdSource, first_line};
use fax_gateway::Settings;
use fax_trace::{Ending, play_script};
use std::alloc::Global;
use std::io;
use std::io::Write;
use std::process::Abort;
use std::test::Fail;

/// A caller rings, is asked, and sends its DCS and the first of its training; a second ring; and a line that tells nothing.
const SCRIPT: &[u8] =
    b"R\nT 0\nT 40\nT 80\nA 00000cc002800005ffc8c1004000400000\nR\nA 000101080000\nT 120\nB 00\nT 3120\nx\nR\n";

/// What is told of it, but for the line of its fault.
const TOLD: &[u8] =
    b"ring 0\na 000001040000\na 0001010600010104\na 00020cc002800005ffc80100775e40000201060104\nring refused 1 Busy\nfault line 11\n";

/// A sink that wants no memory.
#[derive(Drop)]
struct Sheet {
    octets: [u8; 512],
    len: usize,
}

impl Sheet {
    fn new() -> Self {
        Sheet {
            octets: [0; 512],
            len: 0,
        }
    }

    fn text(&self) -> &[u8] {
        self.octets.get(..self.len).unwrap_or(&[])
    }
}

impl Write for Sheet {
    fn write(&mut self, buf: &[u8]) -> io::Result<usize> {
        let end = self.len.saturating_add(buf.len());
        match self.octets.get_mut(self.len..end) {
            Some(room) => {
                room.copy_from_slice(buf);
                self.len = end;
                Ok(buf.len())
            }
            None => Err(io::Error::from(io::ErrorKind::StorageFull)),
        }
    }

    fn flush(&mut self) -> io::Result<()> {
        Ok(())
    }
}

/// How a run over a script ends, and what it tells.
fn play(alloc: Global, script: &[u8]) -> (Ending, Sheet) {
    let mut sheet = Sheet::new();
    let mut source = StdSource::new(script);
    let mut sink = StdSink::new(&mut sheet);
    let ending = play_script(alloc, &mut source, &mut sink, Settings::default());
    (ending, sheet)
}

/// So many of the first lines of a script.
fn first_lines(script: &[u8], count: usize) -> &[u8] {
    let mut rest = script;
    for _ in 0..count {
        if let Some((_, after)) = first_line(rest) {
            rest = after;
        }
    }
    let end = script.len().saturating_sub(rest.len());
    script.get(..end).unwrap_or(script)
}

#[test]
fn a_script_that_is_refused_memory(rt: HostRuntime) -> Result<(), Fail> {
    println!(rt; "refused: {}", refused_in_a_script(&rt, rt.alloc()))?;
    Ok(())
}

/// Plays the script. Where memory is refused, what was played before is told whole, and nothing else.
fn refused_in_a_script(rt: &impl Abort, alloc: Global) -> &'static str {
    let (ending, told) = play(alloc, SCRIPT);
    if ending.status == Status::NoMemory {
        let (before, lines) = play(alloc, first_lines(SCRIPT, ending.played));
        assert!(rt; before.status == Status::Done);
        assert!(rt; told.text().strip_suffix(b"fault memory\n") == Some(lines.text()));
        return "a call";
    }
    assert!(rt; ending.status == Status::Fault && ending.played == 10);
    assert!(rt; told.text() == TOLD);
    "nothing"
}
