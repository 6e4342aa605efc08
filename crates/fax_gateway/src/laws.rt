//! Laws of the gateway: functions that do nothing, each of whose contracts is a theorem. Each is told of every trace: any
//! rings, datagrams of both legs, ticks, and calls that are placed or not, with the answers of a gateway, from its beginning on. A gateway that was restored after
//! a crash has the restored pages before those that it confirms in its trace; a new one has none.
ghost use Rattle.fax_gateway.specs.Alone.{IsServedAlone};
ghost use Rattle.fax_gateway.specs.Answers.{EachMcfAnswers};
ghost use Rattle.fax_gateway.specs.Apart.{DatagramsAreApart};
ghost use Rattle.fax_gateway.specs.Asking.{AskedJobsStay, CallsBeginWherePlaced, GivesInPlacedCalls, UnplacedJobsAreTold};
ghost use Rattle.fax_gateway.specs.Chain.{ChainsHear, ChainsRelay};
ghost use Rattle.fax_gateway.specs.Cuts.{JobsAreCut};
ghost use Rattle.fax_gateway.specs.Forwards.{ForwardsWhatItConfirmed};
ghost use Rattle.fax_gateway.specs.Driving.{RefusalsAreAsked};
ghost use Rattle.fax_gateway.specs.GoesOn.{LegsAreRead, TracesGoOn};
ghost use Rattle.fax_gateway.specs.Lacking.{NoneIsLacking};
ghost use Rattle.fax_gateway.specs.Newest.{ConfirmsTheNewest};
ghost use Rattle.fax_gateway.specs.Lives.{ForwardsOverLives, NoneIsLost};
ghost use Rattle.fax_gateway.specs.Origins.{JobsAreOfTheirCalls};
ghost use Rattle.fax_gateway.specs.OwnConfirmations.{EachPageHasItsOwnConfirmation};
ghost use Rattle.fax_gateway.specs.Refused.{ReportsTheRefusal};
ghost use Rattle.fax_gateway.specs.Reports.{JobsHaveStates};
ghost use Rattle.fax_gateway.specs.ReportsTold.{ReportsTheJob};
ghost use Rattle.fax_gateway.specs.Rtns.{CommandsAreJudged, EachRtnAnswers};
ghost use Rattle.fax_gateway.specs.Sent.{ConfirmsSignals, HearsSentFrames};

/// Whatever comes: each image that a tick ends on the called leg is a page of the job that is being sent, under the DCS that
/// was given before it, format included. That page was confirmed at an earlier tick: there the calling leg was given the
/// frame MCF, in the call that the job names, for a command after exactly one whole image that means the page. The first
/// image of a job's call is page 0, the next page goes out only after MCF or RTP, the same page again only after RTN.
pub fn forwards_what_it_confirmed()
    ensures { ForwardsWhatItConfirmed }
{}

/// Each image that goes out is page n of the job that is being sent, and page n has a confirmation of its own: the tick, in the
/// call that the job names, before which just so many pages were confirmed as the jobs that ended have, and n more. So two
/// pages never share one, equal as they may be, and later pages have later ones.
pub fn each_page_has_its_own_confirmation()
    ensures { EachPageHasItsOwnConfirmation }
{}

/// Over lives of a gateway that may stop at any moment, each of which is restored with some of the pages that the one before it
/// had, whichever were kept: each image that goes out is a page of the job that is being sent, as in a life with none before it,
/// and the page was confirmed at an earlier tick, of that life or of one before it, in the call that the job names.
pub fn forwards_over_lives()
    ensures { ForwardsOverLives }
{}

/// Where each life is restored with the pages of the jobs that had not ended, the pages of the jobs that ended, over all lives, and
/// after them those that are left, are the pages that were confirmed, over all lives, in their order: none is lost, none is added
/// and none comes twice.
pub fn none_is_lost()
    ensures { NoneIsLost }
{}

/// Every trace goes on with a ring while no call is on, any octets on either leg and a tick, at any moment.
pub fn traces_go_on()
    ensures { TracesGoOn }
{}

/// Where what is told as refused rises as what the gateway refused, a log has as many datagrams and ticks that are refused as the
/// gateway refused: each was asked for, as far as neither count stops.
pub fn refusals_are_asked()
    ensures { RefusalsAreAsked }
{}

/// In every trace the readings of the calling leg's call are right, so that the laws of the answerer hold of it.
pub fn legs_are_read()
    ensures { LegsAreRead }
{}

/// Each MCF that is given confirms a page, which the book has from that very tick on and once, or repeats the last answer,
/// and then the book gets no page; and in a tick that gives no MCF it gets none.
pub fn each_mcf_answers()
    ensures { EachMcfAnswers }
{}

/// Each RTN that is given refuses the last command, judged by what the image before it means: where one whole image came in Page
/// with nothing after it, that means no page. And the book gets no page.
pub fn each_rtn_answers()
    ensures { EachRtnAnswers }
{}

/// Each command that came on the calling leg, in Page or after the MCF to an EOM, has the DCS that a CFR answered, and is judged
/// under it: where one whole image came in Page with nothing after it, the answer is RTN exactly where that means no page, and
/// else MCF for the page that it means.
pub fn commands_are_judged()
    ensures { CommandsAreJudged }
{}

/// The page that a tick confirms is the newest of the book after that tick, also where its job was closed, or begins to be sent,
/// in it: so `Gateway::newest_page` is the page for which the MCF is given, and who keeps it elsewhere finds it there.
pub fn confirms_the_newest()
    ensures { ConfirmsTheNewest }
{}

/// The jobs that were closed are those into which the confirmations of each call are cut, call by call in the order of the
/// rings, and each names the number that its ring was answered with: after a page confirmed for EOP, after the 999th page
/// and at the end of the call, and nowhere else. The jobs of restored calls, cut in the same way, are the first. So each confirmed page, of whatever format, stands in one job, at its place,
/// no job has another page, and none has pages of two calls. While a call is on, the open job is the rest of it.
pub fn jobs_are_cut()
    ensures { JobsAreCut }
{}

/// Each page of a job, open or closed, was confirmed in the call that the job names: a tick gave the frame MCF there for one
/// whole image that means the page. A job has 1 to 999 pages, of any formats, and names that of the first.
pub fn jobs_are_of_their_calls()
    ensures { JobsAreOfTheirCalls }
{}

/// Each job that was closed is in one state, and they are so in their order: those that ended, each with the one report that
/// a tick gave of it (its call, its format, the number of its pages); the one whose call is on; those that wait. The last 64
/// reports are kept.
pub fn jobs_have_states()
    ensures { JobsHaveStates }
{}

/// Each report that a tick gives is of the job that was being sent. `delivered` is the number of its pages that went out and
/// were answered with MCF or RTP until the call was over, one image each, and the outcome is Delivered exactly where they
/// are all. After the end nothing was given. (A tick within 2 s of the last moment, 2^64 - 1 ms, may find a timer due and
/// the pace not yet over: an answer that comes in that while may not be counted.)
pub fn reports_the_job()
    ensures { ReportsTheJob }
{}

/// A job for which a DIS leaves no choice (the called machine receives no pages, lacks the width or the resolution of the page that
/// is due, or has no rate left) is reported with that refusal, whatever comes after it.
pub fn reports_the_refusal()
    ensures { ReportsTheRefusal }
{}

/// No image goes out of a page whose width or resolution the called machine lacks: the DIS that was taken last before it, in
/// that very call, has both, and it receives.
pub fn none_is_lacking()
    ensures { NoneIsLacking }
{}

/// Where calls are asked for, each call on the called leg was placed, or could not be: it began there, with the job that was
/// asked for, and no other was placed since.
pub fn calls_begin_where_placed()
    ensures { CallsBeginWherePlaced }
{}

/// Where calls are asked for, a datagram is given on the called leg in a call alone that was placed and has not ended: none
/// between the end of a job and the moment at which the next one's call is placed.
pub fn gives_in_placed_calls()
    ensures { GivesInPlacedCalls }
{}

/// A job that is asked for stays the next one, whatever comes, until its call is placed or could not be.
pub fn asked_jobs_stay()
    ensures { AskedJobsStay }
{}

/// A job whose call could not be placed is reported as `NotPlaced` by the next tick, with no page delivered, and nothing is given
/// on the called leg.
pub fn unplaced_jobs_are_told()
    ensures { UnplacedJobsAreTold }
{}

/// What is answered to rings and to datagrams of the calling leg, and what is given there, is fixed by these events and the
/// ticks, whatever the called leg brings.
pub fn calling_leg_is_served_alone()
    ensures { IsServedAlone }
{}

/// Over every honest schedule of a call, whatever is lost, repeated or comes out of order: each page for which it gives MCF is
/// what one image signal of the sender means under the DCS that the last CFR answered, so that no page is joined of two; and
/// the signals of later pages were sent later.
pub fn confirms_signals()
    ensures { ConfirmsSignals }
{}

/// Over every honest schedule of a call that begins at the sender's first packet, or of packets that each can be read and end
/// at a frame's end, each frame that the call hears is a frame that was sent.
pub fn hears_sent_frames()
    ensures { HearsSentFrames }
{}

/// On each leg, over all its calls, a datagram is given at least 40 ms after the one before it, and where the packet of that one is
/// the preamble before a frame, at least so many milliseconds as the gateway is set to (`Settings::preamble_ms`).
pub fn datagrams_are_apart()
    ensures { DatagramsAreApart }
{}

/// Two gateways in a row: what the second hears of a call of the first, over any honest schedule, are frames and image signals
/// that the first gave in that call; each page for which it gives MCF is what one of these signals means.
pub fn chains_hear()
    ensures { ChainsHear }
{}

/// Two gateways in a row, where the first sent no EOM in its call: each page that the second confirms is a page that the first
/// confirmed and emitted in that call, and the places of these pages in the first's job never fall. What comes back to the
/// first may be any datagrams.
pub fn chain_relays_pages()
    ensures { ChainsRelay }
{}
