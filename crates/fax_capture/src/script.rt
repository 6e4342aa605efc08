//! A script that grows by the datagrams of a capture.
ghost use Rattle.std.specs.Prelude.{ℕ, List, ◌≡◌, ◌+◌, ◌-◌, ◌<◌, ◌^◌, ◌==◌, ◌++◌, ◌∷◌, [], max, length, IfOk, IfErr, Err, OnOk, ◌≤◌};
ghost use Rattle.hex.specs.Hex.{encode_lower};
ghost use Rattle.fax_command.specs.RowLines.{text_of_lines};
ghost use Rattle.fax_capture.specs.declared.options.CaptureOptions.{CaptureOptions};
ghost use Rattle.fax_capture.specs.Counts.{counts_of_whole};
ghost use Rattle.fax_capture.specs.Fragments.{put_together};
ghost use Rattle.fax_capture.specs.Growing.{Stops};
ghost use Rattle.fax_capture.specs.Rep.{EachSoFar, Holds};
ghost use Rattle.fax_capture.specs.Scripts.{begins_with, begun_with, found_with, heard_with, only_ring, ring_lines, role_lines, script_lines, start_of, tick_line, tick_lines, tick_of, ticks_before, ticks_to, told_in, told_of, told_with};

use crate::address::Role;
use crate::counts::Counts;
use crate::fragments::{Unfinished, Whole, begun};
use crate::leg::{CallingLeg, is_asked, number_of};
use crate::machines::Machines;
use crate::pcap::{Datagram, Fragment};
use crate::script_fault::ScriptFault;
use fax_bits::NoMemory;
use fax_command::MOST_OCTETS;
use itoa::Buffer;
use std::alloc::Global;

/// The line of a ring.
const RING: &[u8] = b"R\n";

/// How many nanoseconds pass from a tick to the next: 40 ms.
const NANOSECONDS_OF_TICK: u128 = 40_000_000;

/// How many ticks are told after that of the last datagram: 40 s.
const TICKS_AFTER: u128 = 1000;

/// How many milliseconds pass from a tick to the next.
const MILLISECONDS_OF_TICK: u128 = 40;

/// A script: when the first of its datagrams was captured, where that is known, how many ticks were told, its text, what was heard
/// last on the calling leg, and how many datagrams came from whom.
#[derive(Drop)]
pub(crate) struct Script {
    start: Option<u128>,
    ticks: u128,
    text: Vec<u8>,
    leg: CallingLeg,
    under_way: Option<Unfinished>,
    counts: Counts,
}

/// A script that was told to its end.
pub(crate) struct Made {
    pub text: Vec<u8>,
    pub counts: Counts,
}

impl Drop for Made {
    fn drop(self) {
        let Made {
            text: _text,
            counts: _counts,
        } = self;
    }
}

impl Script {
    /// It rings.
    pub fn new(alloc: Global, machines: Machines) -> Result<Script, NoMemory>
        ensures few { IfOk result (λ script. script.ticks ≤ 2 ^ 103) }
        ensures ring { (options : CaptureOptions) → options.machines ≡ machines
            → IfOk result (λ script. Holds script (only_ring options)) }
    {
        Ok(Script {
            start: None,
            ticks: 0,
            text: Vec::from_slice(alloc, RING)?,
            leg: CallingLeg::new(),
            under_way: None,
            counts: Counts::new(machines),
        })
    }

    /// Whether no datagram was told.
    pub fn is_empty(&self) -> bool
        ensures { result ≡ (self.now.ticks == 0) }
    {
        self.ticks == 0
    }

    /// How many datagrams came from whom.
    pub fn counts(&self) -> Counts
        ensures { result ≡ self.now.counts }
    {
        self.counts
    }

    /// The machines that are known.
    pub fn machines(&self) -> Machines
        ensures { result ≡ self.now.counts.machines }
    {
        self.counts.machines
    }

    /// Finds machines by a datagram, where they are not known.
    pub fn find(&mut self, datagram: &Datagram<'_>)
        ensures ticks { self.new.ticks ≡ self.old.ticks }
        ensures holds { EachSoFar self.old (λ told. Holds self.new (found_with told datagram.now)) }
    {
        self.counts.machines = self.counts.machines.with(datagram);
    }

    /// Begins to put a datagram together, where it is the first of fragments.
    pub fn begin(
        &mut self,
        alloc: Global,
        datagram: &Datagram<'_>,
        role: Role,
    ) -> Result<(), NoMemory>
        ensures ticks { OnOk result (self.new.ticks ≡ self.old.ticks) }
        ensures holds { EachSoFar self.old (λ told.
            OnOk result (Holds self.new (begun_with told datagram.now role))) }
    {
        match role {
            Role::CallerInFragments => self.under_way = begun(alloc, Role::FromCaller, datagram)?,
            Role::CalledInFragments => self.under_way = begun(alloc, Role::FromCalled, datagram)?,
            Role::FromCaller
            | Role::FromCalled
            | Role::ToCaller
            | Role::ToCalled
            | Role::Unrelated => {}
        }
        Ok(())
    }

    /// Puts a fragment to what is under way, and answers the datagram that is whole with it.
    pub fn put(&mut self, fragment: &Fragment<'_>) -> Result<Option<Whole>, NoMemory>
        ensures ticks { OnOk result (self.new.ticks ≡ self.old.ticks) }
        ensures whole { EachSoFar self.old (λ told.
            IfOk result (λ whole. whole ≡ (put_together told.under_way fragment.now).1)) }
        ensures holds { EachSoFar self.old (λ told.
            OnOk result (Holds self.new
            (record told { under_way = (put_together told.under_way fragment.now).0 }))) }
    {
        let Some(mut unfinished) = self.under_way.take() else {
            return Ok(None);
        };
        if !unfinished.goes_on(fragment) {
            self.under_way = Some(unfinished);
            return Ok(None);
        }
        unfinished.grow(fragment)?;
        if fragment.is_last() {
            return Ok(unfinished.whole());
        }
        self.under_way = Some(unfinished);
        Ok(None)
    }

    /// Counts a datagram that was put together no more among those in fragments.
    pub fn count_whole(&mut self)
        ensures ticks { self.new.ticks ≡ self.old.ticks }
        ensures holds { EachSoFar self.old (λ told.
            Holds self.new (record told { counts = counts_of_whole told.counts })) }
    {
        self.counts = self.counts.with_whole();
    }

    /// Tells a datagram, after the ticks up to its own, and counts it. One that is unrelated, in fragments, or in another call than
    /// is asked for is counted alone. It rings where a call begins anew.
    pub fn tell(
        &mut self,
        alloc: Global,
        time: Option<u128>,
        octets: &[u8],
        role: Role,
        asked: Option<u64>,
    ) -> Result<(), ScriptFault>
        requires few { self.old.ticks ≤ 2 ^ 103 }
        ensures few { OnOk result (self.new.ticks ≤ 2 ^ 103) }
        ensures ok { EachSoFar self.old (λ told.
            OnOk result (Holds self.new (told_of asked told time octets.now role))) }
        ensures err { EachSoFar self.old (λ told.
            IfErr result (λ e. Stops e (text_of_lines
            (told_of asked told time octets.now role).lines))) }
    {
        if role.is_passed_over() {
            self.counts = self.counts.with(role);
            return Ok(());
        }
        let begins = self.hear(time, octets, role);
        self.tell_in_call(alloc, time, octets, role, asked, begins)
    }

    /// Hears a datagram, and says whether a call begins anew with it.
    fn hear(&mut self, time: Option<u128>, octets: &[u8], role: Role) -> bool
        ensures begins { EachSoFar self.old (λ told.
            result ≡ begins_with told time octets.now role) }
        ensures ticks { self.new.ticks ≡ self.old.ticks }
        ensures holds { EachSoFar self.old (λ told.
            Holds self.new (heard_with told time octets.now role)) }
    {
        let number = number_of(octets);
        let begins = self.leg.begins_anew(role, number, time);
        self.leg = self.leg.with(role, number, time, begins);
        self.counts = self.counts.with_call(begins);
        begins
    }

    /// Tells a datagram of the call that is on, where that is asked for, or else counts it.
    fn tell_in_call(
        &mut self,
        alloc: Global,
        time: Option<u128>,
        octets: &[u8],
        role: Role,
        asked: Option<u64>,
        begins: bool,
    ) -> Result<(), ScriptFault>
        requires few { self.old.ticks ≤ 2 ^ 103 }
        ensures few { OnOk result (self.new.ticks ≤ 2 ^ 103) }
        ensures ok { EachSoFar self.old (λ told.
            OnOk result (Holds self.new (told_in asked told time octets.now role begins))) }
        ensures err { EachSoFar self.old (λ told.
            IfErr result (λ e. Stops e (text_of_lines
            (told_in asked told time octets.now role begins).lines))) }
    {
        if is_asked(asked, self.counts.calls) {
            self.push_told(alloc, time, octets, role, rings(asked, begins))
        } else {
            self.counts = self.counts.with_other();
            Ok(())
        }
    }

    /// Tells a datagram, after the ticks up to its own, before which it rings, where it does.
    fn push_told(
        &mut self,
        alloc: Global,
        time: Option<u128>,
        octets: &[u8],
        role: Role,
        rings: &[u8],
    ) -> Result<(), ScriptFault>
        requires few { self.old.ticks ≤ 2 ^ 103 }
        ensures few { OnOk result (self.new.ticks ≤ 2 ^ 103) }
        ensures ok { EachSoFar self.old (λ told.
            (lines : List (List ℕ)) → rings.now ≡ text_of_lines lines
            → OnOk result (Holds self.new (told_with told time octets.now role lines))) }
        ensures err { EachSoFar self.old
            (λ told. (lines : List (List ℕ)) → rings.now ≡ text_of_lines lines → IfErr result
            (λ e. Stops e (text_of_lines (told_with told time octets.now role lines).lines))) }
    {
        let start = start_at(self.start, time);
        let tick = tick_at(start, time);
        let before = self.ticks.max(tick);
        let ticks = self.ticks.max(tick + 1);
        push_ticks(alloc, &mut self.text, self.ticks, before)?;
        push(&mut self.text, rings)?;
        push_ticks(alloc, &mut self.text, before, ticks)?;
        push_datagram(alloc, &mut self.text, role, octets)?;
        self.start = start;
        self.ticks = ticks;
        self.counts = self.counts.with_told(role, octets);
        Ok(())
    }

    /// The text, with the ticks after the last datagram.
    pub fn finish(self, alloc: Global) -> Result<Made, ScriptFault>
        requires few { self.ticks ≤ 2 ^ 103 }
        ensures text { EachSoFar self (λ told.
            IfOk result (λ made. made.text.items ≡ text_of_lines (script_lines told))) }
        ensures counts { EachSoFar self (λ told. IfOk result (λ made. made.counts ≡ told.counts)) }
        ensures err { EachSoFar self (λ told.
            IfErr result (λ e. Stops e (text_of_lines (script_lines told)))) }
    {
        let mut text = self.text;
        push_ticks(alloc, &mut text, self.ticks, self.ticks + TICKS_AFTER)?;
        Ok(Made {
            text,
            counts: self.counts,
        })
    }
}

/// The ring where a call begins anew, but for the one call that is asked for.
fn rings(asked: Option<u64>, begins: bool) -> &'static [u8]
    ensures { result.now ≡ text_of_lines (ring_lines asked begins) }
{
    match asked {
        None if begins => RING,
        _ => b"",
    }
}

/// When the first datagram was captured, once one more was.
fn start_at(start: Option<u128>, time: Option<u128>) -> Option<u128>
    ensures { result ≡ start_of start time }
{
    match start {
        Some(start) => Some(start),
        None => time,
    }
}

/// The tick at or before a time; the first where that is not known or lies before the start.
fn tick_at(start: Option<u128>, time: Option<u128>) -> u128
    ensures is { result ≡ tick_of start time }
    ensures small { result < 2 ^ 103 }
{
    match (start, time) {
        (Some(start), Some(time)) => time.saturating_sub(start) / NANOSECONDS_OF_TICK,
        _ => 0,
    }
}

/// Adds the lines of ticks from one on up to another.
fn push_ticks(alloc: Global, text: &mut Vec<u8>, from: u128, to: u128) -> Result<(), ScriptFault>
    requires few { to ≤ 2 ^ 104 }
    requires order { from ≤ to }
    ensures ok { OnOk result (text.new.items
        ≡ text.old.items ++ text_of_lines (tick_lines from (to - from))) }
    ensures err { IfErr result
        (λ e. Stops e (text.old.items ++ text_of_lines (tick_lines from (to - from)))) }
{
    for tick in from..to {
        push_tick(alloc, text, tick)?;
    }
    Ok(())
}

/// Adds the line of a tick.
fn push_tick(alloc: Global, text: &mut Vec<u8>, tick: u128) -> Result<(), ScriptFault>
    requires { tick < 2 ^ 104 }
    ensures ok { OnOk result (text.new.items ≡ text.old.items ++ (tick_line tick ++ 10 ∷ [])) }
    ensures err { IfErr result (λ e. Stops e (text.old.items ++ (tick_line tick ++ 10 ∷ []))) }
{
    let line = line_of_tick(alloc, tick)?;
    push(text, line.as_slice())
}

/// The line of a tick, and its line feed.
fn line_of_tick(alloc: Global, tick: u128) -> Result<Vec<u8>, NoMemory>
    requires { tick < 2 ^ 104 }
    ensures { IfOk result (λ line. line.items ≡ tick_line tick ++ 10 ∷ []) }
{
    let mut buffer = Buffer::new();
    let mut line = Vec::from_slice(alloc, b"T ")?;
    line.extend_from_slice(buffer.format(MILLISECONDS_OF_TICK * tick).as_bytes())?;
    line.push(b'\n')?;
    Ok(line)
}

/// Adds the line of a datagram, where the caller or the called machine sent it.
fn push_datagram(
    alloc: Global,
    text: &mut Vec<u8>,
    role: Role,
    octets: &[u8],
) -> Result<(), ScriptFault>
    ensures ok { OnOk result (text.new.items
        ≡ text.old.items ++ text_of_lines (role_lines role octets.now)) }
    ensures err { IfErr result
        (λ e. Stops e (text.old.items ++ text_of_lines (role_lines role octets.now))) }
{
    match role {
        Role::FromCaller => push_octets(alloc, text, b"A ", octets),
        Role::FromCalled => push_octets(alloc, text, b"B ", octets),
        Role::ToCaller
        | Role::ToCalled
        | Role::CallerInFragments
        | Role::CalledInFragments
        | Role::Unrelated => Ok(()),
    }
}

/// Adds a line of a letter and a space, and of octets as hex text, in lower case.
fn push_octets(
    alloc: Global,
    text: &mut Vec<u8>,
    letter: &[u8],
    octets: &[u8],
) -> Result<(), ScriptFault>
    ensures ok { OnOk result (text.new.items
        ≡ text.old.items ++ ((letter.now ++ encode_lower octets.now) ++ 10 ∷ [])) }
    ensures err { IfErr result
        (λ e. Stops e (text.old.items ++ ((letter.now ++ encode_lower octets.now) ++ 10 ∷ []))) }
{
    let line = line_of_octets(alloc, letter, octets)?;
    push(text, line.as_slice())
}

/// A letter and a space, octets as hex text, in lower case, and a line feed.
fn line_of_octets(alloc: Global, letter: &[u8], octets: &[u8]) -> Result<Vec<u8>, NoMemory>
    ensures { IfOk result
        (λ line. line.items ≡ (letter.now ++ encode_lower octets.now) ++ 10 ∷ []) }
{
    let digits = hex::encode(alloc, octets)?;
    let mut line = Vec::from_slice(alloc, letter)?;
    line.extend_from_slice(digits.as_bytes())?;
    line.push(b'\n')?;
    Ok(line)
}

/// Adds octets, where the text is not too long with them.
fn push(text: &mut Vec<u8>, octets: &[u8]) -> Result<(), ScriptFault>
    ensures ok { OnOk result (text.new.items ≡ text.old.items ++ octets.now) }
    ensures err { IfErr result (λ e. Stops e (text.old.items ++ octets.now)) }
{
    if text.len() > MOST_OCTETS as usize || octets.len() > MOST_OCTETS as usize - text.len() {
        return Err(ScriptFault::TooLong);
    }
    if text.extend_from_slice(octets).is_err() {
        return Err(NoMemory.into());
    }
    Ok(())
}
