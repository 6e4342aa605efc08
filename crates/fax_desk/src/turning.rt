//! What is told of a turn.
ghost use Rattle.std.specs.Prelude.{◌≡◌};
ghost use Rattle.fax_desk.specs.Turns.{card_after, dial_told, ended_told, job_told, not_stored_told, page_told, refused_told, told_of};

use crate::card::Card;
use crate::told::{LineEvent, Turn, TurnEvents, ending};
use crate::view::FirstJob;
use fax_control::events::PageConfirmed;
use fax_gateway::{Kept, RefusedPage};
use fax_jobs::Report;

impl Card {
    /// The line had a turn. It answers what is told of that.
    pub(crate) fn turn(&mut self, turn: Turn) -> TurnEvents
        ensures told { result ≡ told_of self.old turn }
        ensures card { self.new ≡ card_after self.old turn }
    {
        let turned = turn.turned;
        let not_stored = self.not_stored_told(turn.is_stored, turned.kept);
        let page = self.page_told(turn.is_stored, turned.kept);
        let refused = self.refused_told(turned.refused);
        let job = self.job_told(turn.first, turned.report);
        self.keep_page(turn.is_stored, turned.kept);
        let ended = self.ended_told(turn, turned.ended);
        self.end_job(turn.first, turned.report);
        let dialled = self.dial_told(turn.first, turned.dialled);
        TurnEvents {
            not_stored,
            page,
            refused,
            ended,
            job,
            dialled,
        }
    }

    fn not_stored_told(&self, is_stored: bool, kept: Option<Kept>) -> Option<LineEvent>
        ensures { result ≡ not_stored_told self.now is_stored kept }
    {
        match kept {
            Some(kept) if !is_stored => Some(LineEvent::NotStored(self.tagged(kept.call))),
            _ => None,
        }
    }

    fn page_told(&self, is_stored: bool, kept: Option<Kept>) -> Option<LineEvent>
        ensures { result ≡ page_told self.now is_stored kept }
    {
        match kept {
            Some(kept) if is_stored => Some(LineEvent::Page(
                PageConfirmed {
                    call: kept.call,
                    number: self.pages_in_call.saturating_add(1),
                    format: kept.format,
                    rows: kept.rows,
                },
                self.tag(kept.call),
            )),
            _ => None,
        }
    }

    fn refused_told(&self, refused: Option<RefusedPage>) -> Option<LineEvent>
        ensures { result ≡ refused_told self.now refused }
    {
        match refused {
            None => None,
            Some(refused) => Some(LineEvent::RefusedPage(refused, self.tag(refused.call))),
        }
    }

    fn ended_told(&self, turn: Turn, ended: Option<u32>) -> Option<LineEvent>
        ensures { result ≡ ended_told self.now turn ended }
    {
        match ended {
            None => None,
            Some(call) => {
                let is_given_up = turn.turned.gave_up.is_some();
                let how = ending(
                    turn.is_silenced,
                    turn.is_hung_up,
                    is_given_up,
                    self.is_closed,
                );
                Some(LineEvent::Ended(self.tagged(call), how))
            }
        }
    }

    fn job_told(&self, first: FirstJob, report: Option<Report>) -> Option<LineEvent>
        ensures { result ≡ job_told self.now first report }
    {
        match report {
            None => None,
            Some(report) => Some(LineEvent::Job(
                report,
                self.job_tag(first, report.call),
                self.cause(self.jobs),
            )),
        }
    }

    fn dial_told(&self, first: FirstJob, dialled: Option<u32>) -> Option<LineEvent>
        ensures { result ≡ dial_told self.now first dialled }
    {
        match dialled {
            None => None,
            Some(call) => Some(LineEvent::Dial(self.tagged_job(first, call))),
        }
    }
}
