//! The ladder of a gateway that runs, told as it goes on.
ghost use Rattle.std.specs.Prelude.{IfOk};
ghost use Rattle.fax_gateway.specs.Setups.{AreAllowed};
ghost use Rattle.fax_explain.specs.Live.{IsNewLadder, PlaysLive};

use crate::stage::Stage;
use fax_bits::NoMemory;
use fax_descriptions::Tale;
use fax_gateway::Settings;
use fax_trace::ScriptEvent;
use std::alloc::Global;

/// A gateway of its own on which is played what came to another one, as it comes, and told as `run_explain` tells a script.
pub struct LiveLadder {
    stage: Stage,
}

impl Drop for LiveLadder {
    fn drop(self) {
        let LiveLadder { stage: _stage } = self;
    }
}

impl LiveLadder {
    /// The ladder of a gateway with these settings, to which nothing came.
    pub fn new(alloc: Global, settings: Settings) -> Result<Self, NoMemory>
        requires { AreAllowed settings }
        ensures { IfOk result (λ ladder. IsNewLadder settings ladder) }
    {
        let stage = Stage::new(alloc, settings)?;
        Ok(LiveLadder { stage })
    }

    /// Plays an event at a moment, and tells what happened; a tick, and a call that was placed or not, at its own. Nothing is promised of
    /// the ladder after an `Err`.
    pub fn play(&mut self, event: &ScriptEvent, moment: u64) -> Result<Tale, NoMemory>
        ensures { IfOk result (λ tale. PlaysLive event.now moment self.old tale self.new) }
    {
        let scene = self.stage.play(event, moment)?;
        Ok(scene.tale)
    }
}
