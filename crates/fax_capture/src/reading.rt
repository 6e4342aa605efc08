//! A capture that is read in pieces, as a source gives them, and told.
ghost use Rattle.std.specs.Prelude.{ℕ, List, ◌≡◌, ◌≢◌, ◌<◌, ◌≤◌, ◌^◌, ◌++◌, ◌⊎◌, true, Err, IfOk, IfErr, IfSome, OnOk, Ok, vec_len};
ghost use Rattle.fax_capture.specs.pcap.Captures.{untold_head};
ghost use Rattle.fax_command.specs.RowLines.{text_of_lines};
ghost use Rattle.fax_command.specs.Streams.{greatest_count};
ghost use Rattle.fax_capture.specs.declared.options.CaptureOptions.{CaptureOptions};
ghost use Rattle.fax_capture.specs.Addresses.{lacks};
ghost use Rattle.fax_capture.specs.Answers.{Allows, Fails};
ghost use Rattle.fax_capture.specs.Growing.{Stops};
ghost use Rattle.fax_capture.specs.Rep.{Breaks, EachRead, EachSoFar, HasRead, Holds, TakesAllRecords, Untold, UntoldIn};
ghost use Rattle.fax_capture.specs.Reading.{FailsSo};
ghost use Rattle.fax_capture.specs.Scripts.{ScriptSoFar, Tells, TellsFound, TellsPacket, told_fragment};

use crate::address::{Role, role_of};
use crate::counts::Counts;
use crate::options::CaptureOptions;
use crate::pcap::{Capture, CaptureFault, CapturedPacket, Datagram, Found, Fragment};
use crate::reading_fault::ReadingFault;
use crate::script::{Made, Script};
use crate::script_fault::ScriptFault;
use fax_bits::NoMemory;
use fax_command::{MOST_AT_ONCE, ReadFault, Source};
use std::alloc::{AllocError, Global};

/// The script of the capture that a source gives, for these options, or why there is none.
/// Of the capture a record and a piece are kept at once.
pub(crate) fn script_of<I: Source>(
    alloc: Global,
    source: &mut I,
    options: &CaptureOptions,
) -> Result<Made, ReadingFault>
    ensures ok { IfOk result (λ made. IfSome (I.remaining source.old)
        (λ input. Allows options.now input (Ok (made.text.items, made.counts)))) }
    ensures err { IfErr result
        (λ e. IfSome (I.remaining source.old) (λ input. FailsSo options.now input e)) }
    ensures failed { result ≡ Err ReadingFault.Stream → I.reads source.old ≡ 0
        → (I.failed source.new ≡ true) ⊎ (I.reads source.new ≡ greatest_count) }
    ensures unfailed { result ≢ Err ReadingFault.Stream
        → I.failed source.new ≡ I.failed source.old }
{
    let mut capture = Capture::new(alloc);
    let mut script = Script::new(alloc, options.machines)?;
    let mut left = Vec::new(alloc);
    let mut buffer = new_buffer(alloc)?;
    for _ in 0..u64::MAX {
        match source.read(buffer.as_mut_slice()) {
            Ok(0) => return Ok(finish(alloc, &capture, left.as_slice(), script)?),
            Ok(count) => {
                let piece = &buffer[..count];
                left = take(alloc, options, &mut capture, &mut script, left, piece)?;
            }
            Err(ReadFault::Interrupted) => {}
            Err(ReadFault::Failed) => return Err(ReadingFault::Stream),
        }
    }
    Err(ReadingFault::Stream)
}

/// Room for what a read gives.
fn new_buffer(alloc: Global) -> Result<Vec<u8>, AllocError>
    ensures { IfOk result (λ buffer. vec_len buffer ≡ MOST_AT_ONCE) }
{
    vec![in alloc; 0; MOST_AT_ONCE]
}

/// Takes a piece after the octets that are left, reads and tells all whole records, and answers the octets that are left then.
fn take(
    alloc: Global,
    options: &CaptureOptions,
    capture: &mut Capture,
    script: &mut Script,
    left: Vec<u8>,
    piece: &[u8],
) -> Result<Vec<u8>, ScriptFault>
    requires few { script.old.ticks ≤ 2 ^ 103 }
    ensures few { OnOk result (script.new.ticks ≤ 2 ^ 103) }
    ensures ok { EachRead options.now capture.old script.old left.items (λ read.
        IfOk result (λ still.
        HasRead options.now (read ++ piece.now) capture.new script.new still.items)) }
    ensures err { EachRead options.now capture.old script.old left.items (λ read.
        IfErr result (λ e. (more : List ℕ) → Fails options.now ((read ++ piece.now) ++ more) e)) }
{
    let mut octets = left;
    if octets.extend_from_slice(piece).is_err() {
        return Err(NoMemory.into());
    }
    take_records(alloc, options, capture, script, octets.as_slice())
}

/// Reads and tells all whole records at the front of octets, and answers those that are left.
fn take_records(
    alloc: Global,
    options: &CaptureOptions,
    capture: &mut Capture,
    script: &mut Script,
    octets: &[u8],
) -> Result<Vec<u8>, ScriptFault>
    requires few { script.old.ticks ≤ 2 ^ 103 }
    ensures few { OnOk result (script.new.ticks ≤ 2 ^ 103) }
    ensures ok { EachSoFar script.old (λ told. IfOk result (λ left. TakesAllRecords options.now
        capture.old octets.now told capture.new left.items script.new)) }
    ensures err { EachSoFar script.old (λ told.
        IfErr result (λ e. Breaks options.now capture.old octets.now told e)) }
{
    let mut rest = octets;
    while let Some(read) = capture.read_record(rest)? {
        tell(alloc, options, script, read.found)?;
        rest = read.after;
    }
    match Vec::from_slice(alloc, rest) {
        Ok(left) => Ok(left),
        Err(_) => Err(NoMemory.into()),
    }
}

/// Tells a datagram that was found, where one of the two machines sent it or it was sent to one.
fn tell(
    alloc: Global,
    options: &CaptureOptions,
    script: &mut Script,
    found: Option<CapturedPacket<'_>>,
) -> Result<(), ScriptFault>
    requires few { script.old.ticks ≤ 2 ^ 103 }
    ensures few { OnOk result (script.new.ticks ≤ 2 ^ 103) }
    ensures ok { EachSoFar script.old (λ told.
        OnOk result ((next : ScriptSoFar) × TellsFound options.now told found.entry next
        × Holds script.new next)) }
    ensures err { EachSoFar script.old (λ told.
        IfErr result (λ e. Untold options.now told found.entry e)) }
{
    let Some(captured) = found else {
        return Ok(());
    };
    tell_packet(alloc, options, script, captured.time(), captured.found())
}

/// Tells a datagram that was found, or the one that a fragment makes whole.
fn tell_packet(
    alloc: Global,
    options: &CaptureOptions,
    script: &mut Script,
    time: Option<u128>,
    found: &Found<'_>,
) -> Result<(), ScriptFault>
    requires few { script.old.ticks ≤ 2 ^ 103 }
    ensures few { OnOk result (script.new.ticks ≤ 2 ^ 103) }
    ensures ok { EachSoFar script.old (λ told.
        OnOk result ((next : ScriptSoFar) × TellsPacket options.now told time found.now next
        × Holds script.new next)) }
    ensures err { EachSoFar script.old (λ told.
        IfErr result (λ e. UntoldIn options.now told time found.now e)) }
{
    match found {
        Found::Datagram(datagram) => tell_datagram(alloc, options, script, time, datagram),
        Found::Fragment(fragment) => tell_fragment(alloc, options, script, time, fragment),
    }
}

/// Tells a datagram, where one of the two machines sent it or it was sent to one; or begins to put it together.
fn tell_datagram(
    alloc: Global,
    options: &CaptureOptions,
    script: &mut Script,
    time: Option<u128>,
    datagram: &Datagram<'_>,
) -> Result<(), ScriptFault>
    requires few { script.old.ticks ≤ 2 ^ 103 }
    ensures few { OnOk result (script.new.ticks ≤ 2 ^ 103) }
    ensures ok { EachSoFar script.old (λ told.
        OnOk result ((next : ScriptSoFar) × Tells options.now told time datagram.now next
        × Holds script.new next)) }
    ensures err { EachSoFar script.old (λ told.
        IfErr result (λ e. UntoldIn options.now told time (Found.Datagram datagram.now) e)) }
{
    script.find(datagram);
    let role = role_of(&script.machines(), datagram);
    if is_lacking(role, datagram.is_whole()) {
        return Err(ScriptFault::Capture(CaptureFault::Snapped));
    }
    script.begin(alloc, datagram, role)?;
    script.tell(alloc, time, datagram.octets(), role, options.call)
}

/// Puts a fragment to the datagram that is put together, and tells that, where it is whole.
fn tell_fragment(
    alloc: Global,
    options: &CaptureOptions,
    script: &mut Script,
    time: Option<u128>,
    fragment: &Fragment<'_>,
) -> Result<(), ScriptFault>
    requires few { script.old.ticks ≤ 2 ^ 103 }
    ensures few { OnOk result (script.new.ticks ≤ 2 ^ 103) }
    ensures ok { EachSoFar script.old (λ told.
        OnOk result (Holds script.new (told_fragment options.now.call told time fragment.now))) }
    ensures err { EachSoFar script.old (λ told.
        IfErr result (λ e. Stops e (text_of_lines
        (told_fragment options.now.call told time fragment.now).lines))) }
{
    let Some(whole) = script.put(fragment)? else {
        return Ok(());
    };
    script.count_whole();
    script.tell(
        alloc,
        time,
        whole.octets.as_slice(),
        whole.role,
        options.call,
    )
}

/// Whether some is lacking of a datagram that one of the two sent.
fn is_lacking(role: Role, is_whole: bool) -> bool
    ensures { result ≡ lacks role is_whole }
{
    match role {
        Role::FromCaller | Role::FromCalled => !is_whole,
        Role::ToCaller
        | Role::ToCalled
        | Role::CallerInFragments
        | Role::CalledInFragments
        | Role::Unrelated => false,
    }
}

/// The script of a capture that has ended, with these octets left.
fn finish(
    alloc: Global,
    capture: &Capture,
    left: &[u8],
    script: Script,
) -> Result<Made, ScriptFault>
    requires few { script.ticks ≤ 2 ^ 103 }
    ensures ok { (options : CaptureOptions) → EachRead options capture.now script left.now (λ read.
        IfOk result (λ made. Allows options read (Ok (made.text.items, made.counts)))) }
    ensures err { (options : CaptureOptions) → EachRead options capture.now script left.now (λ read.
        IfErr result (λ e. Fails options read e)) }
{
    if let Some(fault) = capture.fault_at_end(left) {
        return Err(fault.into());
    }
    if script.is_empty() {
        return Err(fault_of_none(script.counts()));
    }
    script.finish(alloc)
}

/// Why no datagram was told of a capture with these counts.
fn fault_of_none(counts: Counts) -> ScriptFault
    ensures address { counts.of_other_calls ≡ 0 → result ≡ ScriptFault.NoAddress counts }
    ensures call { 0 < counts.of_other_calls → result ≡ ScriptFault.NoCall counts }
{
    if counts.of_other_calls == 0 {
        ScriptFault::NoAddress(counts)
    } else {
        ScriptFault::NoCall(counts)
    }
}
