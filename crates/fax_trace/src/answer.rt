//! What is answered to a script.
ghost use Rattle.std.specs.Prelude.{◌≡◌, ◌++◌, false, Err, OnOk, OnErr};
ghost use Rattle.std.specs.Io.KnownBytes.{Appends};
ghost use Rattle.fax_gateway.specs.Setups.{AreAllowed};
ghost use Rattle.fax_command.specs.Statuses.{status_code};
ghost use Rattle.fax_command.specs.Streams.{failed_after_write};
ghost use Rattle.fax_command.specs.RowLines.{text_of_lines};
ghost use Rattle.fax_trace.specs.Answers.{AnswersAfter, fault_lines};
ghost use Rattle.fax_trace.specs.EachScript.{EachPlay};
ghost use Rattle.fax_trace.specs.Rep.{HasPlayed, IsNew, status_of_answer, text_of_answer};

use crate::event::event_of_line;
use crate::player::Player;
use crate::script_fault::ScriptFault;
use crate::told::numbered_line;
use fax_bits::NoMemory;
use fax_command::{MEMORY_LINE, Sink, Status, WriteFault, first_line, write_text};
use fax_gateway::Settings;
use std::alloc::Global;

/// What a run answers: the lines of what was played, with the line of the fault that ended it.
#[derive(Drop)]
pub enum Answer {
    /// The whole script was played.
    Done(Vec<u8>),
    /// A line tells no event. The line of the fault is the last one.
    Fault(Vec<u8>),
    /// Memory was wanted. The line that tells it is not among these: it takes none.
    NoMemory(Vec<u8>),
}

impl Answer {
    /// Writes the text, and hands it on. It takes no memory.
    pub fn write<O: Sink>(&self, sink: &mut O) -> Result<(), WriteFault>
        ensures text { OnOk result (Appends (O.contents sink.old)
            (O.contents sink.new) (text_of_answer self.now)) }
        ensures failed { O.failed sink.new ≡ failed_after_write (O.failed sink.old) result }
        ensures handed_on { OnOk result (O.held_back sink.new ≡ false) }
    {
        match self {
            Answer::Done(text) | Answer::Fault(text) => write_text(sink, text.as_slice()),
            Answer::NoMemory(text) => {
                sink.write_all(text.as_slice())?;
                write_text(sink, MEMORY_LINE)
            }
        }
    }

    /// The exit status.
    pub fn status(&self) -> Status
        ensures { status_code result ≡ status_of_answer self.now }
    {
        match self {
            Answer::Done(_) => Status::Done,
            Answer::Fault(_) => Status::Fault,
            Answer::NoMemory(_) => Status::NoMemory,
        }
    }
}

/// The answer to a script, and how many of its lines were played.
#[derive(Drop)]
pub(crate) struct PlayedScript {
    pub answer: Answer,
    pub lines: usize,
}

/// Plays a script.
pub(crate) fn play(alloc: Global, script: &[u8], settings: Settings) -> PlayedScript
    requires { AreAllowed settings }
    ensures { AnswersAfter settings script.now result.lines (status_of_answer result.answer)
        (text_of_answer result.answer) }
{
    let mut lines = 0;
    let Ok(mut player) = Player::new(alloc, settings) else {
        let answer = Answer::NoMemory(Vec::new(alloc));
        return PlayedScript { answer, lines };
    };
    let outcome = play_lines(alloc, &mut player, script, &mut lines);
    let answer = answer_of(alloc, outcome, player.into_text());
    PlayedScript { answer, lines }
}

/// The answer where playing ended so, after this text.
fn answer_of(alloc: Global, outcome: Result<(), ScriptFault>, mut text: Vec<u8>) -> Answer
    ensures { EachPlay outcome text.items (λ settings script lines.
        AnswersAfter settings script lines (status_of_answer result) (text_of_answer result)) }
{
    match outcome {
        Ok(()) => Answer::Done(text),
        Err(ScriptFault::NoMemory) => Answer::NoMemory(text),
        Err(ScriptFault::Line(number)) => match push_fault(alloc, &mut text, number) {
            Ok(()) => Answer::Fault(text),
            Err(NoMemory) => Answer::NoMemory(text),
        },
    }
}

/// Plays the lines of a script, up to the first that has a fault, and counts those that were played.
fn play_lines(
    alloc: Global,
    player: &mut Player,
    script: &[u8],
    lines: &mut usize,
) -> Result<(), ScriptFault>
    requires new { IsNew player.old }
    requires none { lines.old ≡ 0 }
    ensures { HasPlayed player.old.gateway.settings
        script.now result lines.new player.new.text.items }
{
    let mut rest = script;
    while let Some((line, after)) = first_line(rest) {
        let Some(event) = event_of_line(alloc, line)? else {
            return Err(ScriptFault::Line(*lines + 1));
        };
        player.play(event)?;
        *lines += 1;
        rest = after;
    }
    Ok(())
}

/// Adds the line that tells a fault at the line of this number. An `Err` leaves the text as it was.
pub fn push_fault(alloc: Global, text: &mut Vec<u8>, number: usize) -> Result<(), NoMemory>
    ensures ok { OnOk result (text.new.items
        ≡ text.old.items ++ text_of_lines (fault_lines (Err (ScriptFault.Line number)))) }
    ensures err { OnErr result (text.new.items ≡ text.old.items) }
{
    let line = numbered_line(alloc, b"fault line ", number)?;
    text.extend_from_slice(line.as_slice())?;
    Ok(())
}
