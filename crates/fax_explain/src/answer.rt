//! What is answered to a script.
ghost use Rattle.std.specs.Prelude.{◌≡◌, ◌++◌, [], IfOk, OnOk, OnErr};
ghost use Rattle.fax_gateway.specs.Setups.{AreAllowed};
ghost use Rattle.fax_trace.specs.Rep.{status_of_answer, text_of_answer};
ghost use Rattle.fax_trace.specs.Playing.{moment_at};
ghost use Rattle.fax_explain.specs.Explained.{EachTold, Explains, HasTold};
ghost use Rattle.fax_explain.specs.Staged.{IsNew, TellsOn};

use crate::stage::{FoundPage, Stage};
use fax_bits::NoMemory;
use fax_command::first_line;
use fax_gateway::Settings;
use fax_trace::{Answer, ScriptEvent, ScriptFault, event_of_line, push_fault};
use std::alloc::Global;

/// What is answered to a script, and the pages that were confirmed or sent in it.
pub(crate) struct Explanation {
    pub answer: Answer,
    pub pages: Vec<FoundPage>,
}

impl Drop for Explanation {
    fn drop(self) {
        let Explanation {
            answer: _answer,
            pages: _pages,
        } = self;
    }
}

/// Explains a script.
pub(crate) fn explain(alloc: Global, script: &[u8], settings: Settings) -> Explanation
    requires { AreAllowed settings }
    ensures { Explains settings script.now (status_of_answer result.answer)
        (text_of_answer result.answer) }
{
    let mut text = Vec::new(alloc);
    let mut pages = Vec::new(alloc);
    let outcome = explain_script(alloc, settings, script, &mut text, &mut pages);
    Explanation {
        answer: answer_of(alloc, outcome, text),
        pages,
    }
}

/// The answer where playing ended so, after this text.
fn answer_of(alloc: Global, outcome: Result<(), ScriptFault>, mut text: Vec<u8>) -> Answer
    ensures { EachTold outcome text.items (λ settings script.
        Explains settings script (status_of_answer result) (text_of_answer result)) }
{
    match outcome {
        Ok(()) => Answer::Done(text),
        Err(ScriptFault::NoMemory) => Answer::NoMemory(text),
        Err(ScriptFault::Line(number)) => match push_fault(alloc, &mut text, number) {
            Ok(()) => Answer::Fault(text),
            Err(NoMemory) => Answer::NoMemory(text),
        },
    }
}

/// Plays a script on a new gateway with these settings, and tells what happened, up to the first line that has a fault.
fn explain_script(
    alloc: Global,
    settings: Settings,
    script: &[u8],
    text: &mut Vec<u8>,
    pages: &mut Vec<FoundPage>,
) -> Result<(), ScriptFault>
    requires allowed { AreAllowed settings }
    requires empty { text.old.items ≡ [] }
    ensures { HasTold settings script.now result text.new.items }
{
    let mut stage = Stage::new(alloc, settings)?;
    explain_lines(alloc, &mut stage, script, text, pages)
}

/// Plays the lines of a script, up to the first that has a fault, and tells what happened.
fn explain_lines(
    alloc: Global,
    stage: &mut Stage,
    script: &[u8],
    text: &mut Vec<u8>,
    pages: &mut Vec<FoundPage>,
) -> Result<(), ScriptFault>
    requires new { IsNew stage.old }
    requires empty { text.old.items ≡ [] }
    ensures { HasTold stage.old.gateway.settings script.now result text.new.items }
{
    let mut rest = script;
    let mut number = 0;
    let mut moment = 0;
    while let Some((line, after)) = first_line(rest) {
        number += 1;
        let Some(event) = event_of_line(alloc, line)? else {
            return Err(ScriptFault::Line(number));
        };
        moment = moment_of(&event, moment);
        let own = explain_event(alloc, stage, &event, moment, pages)?;
        add(text, own.as_slice())?;
        rest = after;
    }
    Ok(())
}

/// Adds the lines of an event. An `Err` leaves the text as it was.
fn add(text: &mut Vec<u8>, own: &[u8]) -> Result<(), NoMemory>
    ensures ok { OnOk result (text.new.items ≡ text.old.items ++ own.now) }
    ensures err { OnErr result (text.new.items ≡ text.old.items) }
{
    text.extend_from_slice(own)?;
    Ok(())
}

/// The moment of an event, by the last that the script told.
fn moment_of(event: &ScriptEvent, last: u64) -> u64
    ensures { result ≡ moment_at event.now last }
{
    match event {
        ScriptEvent::Tick(moment) => *moment,
        ScriptEvent::Connected(moment) | ScriptEvent::NotConnected(moment) => *moment,
        ScriptEvent::Ring | ScriptEvent::FromCalling(_) | ScriptEvent::FromCalled(_) => last,
    }
}

/// Plays an event at its moment. It answers the lines of what happened, and adds the pages that were confirmed or sent.
fn explain_event(
    alloc: Global,
    stage: &mut Stage,
    event: &ScriptEvent,
    moment: u64,
    pages: &mut Vec<FoundPage>,
) -> Result<Vec<u8>, NoMemory>
    ensures { IfOk result (λ own. TellsOn event.now moment own.items stage.old stage.new) }
{
    let scene = stage.play(event, moment)?;
    for found in scene.pages {
        pages.push(found)?;
    }
    scene.tale.paragraph(moment)
}
