//! What a line is restored with after a crash.
ghost use Rattle.std.specs.Prelude.{◌≡◌, ◌&&◌, ℕ, List, [], ◌∷◌, ◌++◌, length, map, bytes_eq, nat_eq, not, true, false, IfOk, MatchOption, OnOk};
ghost use Rattle.std.specs.Str.{is_utf8};
ghost use Rattle.fax_spool.specs.RecordOctets.{PageValue as SpoolPage};
ghost use Rattle.fax_gateway.specs.Restored.{call_shown, confirmation_shown};
ghost use Rattle.fax_queue.specs.Restorations.{AreIn, ReadPage, Restores, begins, begun, onto_last, own_tag, whole_pages};

use crate::queue::{Aside, Queue, QueuedPage};
use fax_answer::Confirmed;
use fax_bits::NoMemory;
use fax_gateway::RestoredCall;
use fax_pagestore::{PackedRows, Page, PageFault};
use fax_spool::{CallName, WaitingPage, is_torn};
use fax_spool_folder::read_waiting_page;
use std::alloc::Global;

/// What a line begins with after a crash.
#[derive(Drop)]
pub struct RestoredLine {
    pub calls: Vec<RestoredCall<PackedRows>>,
    pub queue: Queue,
}

impl RestoredLine {
    /// Nothing waits.
    fn new(alloc: Global, line: &str) -> Result<Self, NoMemory>
        ensures { IfOk result (λ restored. Restores line.now [] restored) }
    {
        let queue = Queue::new(alloc, line)?;
        Ok(RestoredLine {
            calls: Vec::new(alloc),
            queue,
        })
    }

    /// One more page waits, of some line. Where it is one of this line, it is restored; it is set aside where its text means none,
    /// and its record left as it is.
    fn take(&mut self, alloc: Global, line: &str, waits: &WaitingPage) -> Result<(), NoMemory>
        ensures { OnOk result ((pages : List SpoolPage) → Restores line.now pages self.old
            → Restores line.now (pages ++ waits.now ∷ []) self.new) }
    {
        if !is_of_line(waits, line) {
            return Ok(());
        }
        let fault = match read_waiting_page(alloc, waits) {
            Ok(page) => return self.add(alloc, waits, page),
            Err(fault) => fault,
        };
        match fault {
            PageFault::NoMemory => Err(NoMemory),
            _ => self.queue.set_aside(Aside {
                life: waits.life,
                call: waits.call,
                number: waits.number,
            }),
        }
    }

    /// One more page of the line waits.
    fn add(
        &mut self,
        alloc: Global,
        waits: &WaitingPage,
        page: Page<PackedRows>,
    ) -> Result<(), NoMemory>
        ensures more { OnOk result ((name : List ℕ) (read : List ReadPage)
            → AreIn name read self.old
            → AreIn name (read ++ record { waits = waits.now; page = page } ∷ []) self.new) }
        ensures aside { OnOk result (self.new.queue.aside ≡ self.old.queue.aside) }
    {
        if begins_call(self.queue.waits(), waits) {
            self.begin_call(alloc, waits)?;
        }
        let confirmed = Confirmed {
            page,
            closes: waits.closes,
        };
        confirm(&mut self.calls, confirmed)?;
        self.queue.push(QueuedPage {
            life: waits.life,
            call: waits.call,
            number: waits.number,
            is_stored: true,
        })?;
        Ok(())
    }

    /// The next page is the first of its call.
    fn begin_call(&mut self, alloc: Global, waits: &WaitingPage) -> Result<(), NoMemory>
        ensures calls { OnOk result (map call_shown self.new.calls.items
            ≡ map call_shown self.old.calls.items ++ begun waits.now ∷ []) }
        ensures queue { self.new.queue ≡ record self.old.queue { tags = self.new.queue.tags } }
        ensures tags { OnOk result (self.new.queue.tags
            ≡ self.old.queue.tags ++ own_tag waits.now) }
    {
        push_call(alloc, &mut self.calls, waits)?;
        set_tag(alloc, &mut self.queue, waits)
    }
}

/// A call with no page so far goes after the others: the one that a page came in.
fn push_call(
    alloc: Global,
    calls: &mut Vec<RestoredCall<PackedRows>>,
    page: &WaitingPage,
) -> Result<(), NoMemory>
    ensures { OnOk result (map call_shown calls.new.items
        ≡ map call_shown calls.old.items ++ begun page.now ∷ []) }
{
    calls.push(RestoredCall {
        number: page.call,
        confirmed: Vec::new(alloc),
    })?;
    Ok(())
}

/// Keeps the tag of the call that a page came in, where it has one.
fn set_tag(alloc: Global, queue: &mut Queue, page: &WaitingPage) -> Result<(), NoMemory>
    ensures same { queue.new ≡ record queue.old { tags = queue.new.tags } }
    ensures tags { OnOk result (queue.new.tags ≡ queue.old.tags ++ own_tag page.now) }
{
    let Some(tag) = text_of(page.tag.as_slice()) else {
        return Ok(());
    };
    queue.set_tag(alloc, page.life, page.call, tag)
}

/// A tag as text. `None`: it is none, or no text.
#[tactic(auto, using(crate::proofs::Tags::text_so, crate::proofs::Tags::empty_so, crate::proofs::Tags::no_text))]
fn text_of(tag: &[u8]) -> Option<&str>
    ensures { MatchOption result ((is_utf8 tag.now && not (nat_eq (length tag.now) 0)) ≡ false)
        (λ text. (text.now ≡ tag.now)
        × ((is_utf8 tag.now && not (nat_eq (length tag.now) 0)) ≡ true)) }
{
    match std::str::from_utf8(tag) {
        Ok(text) => { if text.is_empty() { None } else { Some(text) } }
        Err(_) => None,
    }
}

/// Whether a page that waits is one of the line of this name.
fn is_of_line(waits: &WaitingPage, line: &str) -> bool
    ensures { result ≡ bytes_eq waits.now.line line.now }
{
    waits.line.as_slice() == line.as_bytes()
}

/// Whether a page is the first of its call, where these wait before it.
fn begins_call(before: &[QueuedPage], page: &WaitingPage) -> bool
    ensures { result ≡ begins before.now page.now }
{
    match before.last() {
        Some(last) => last.life != page.life || last.call != page.call,
        None => true,
    }
}

/// One more page of the call that began last.
fn confirm(
    calls: &mut Vec<RestoredCall<PackedRows>>,
    confirmed: Confirmed<PackedRows>,
) -> Result<(), NoMemory>
    ensures { OnOk result (map call_shown calls.new.items
        ≡ onto_last (confirmation_shown confirmed) (map call_shown calls.old.items)) }
{
    let Some(mut call) = calls.pop() else {
        return Ok(());
    };
    call.confirmed.push(confirmed)?;
    calls.push(call)?;
    Ok(())
}

/// What the line of this name begins with where these pages wait, and these calls lack a page: its own pages of other calls, the oldest
/// first. One whose text means no page is set aside. The records of all that are left out stay as they are.
pub fn restore_line(
    alloc: Global,
    line: &str,
    pages: &[WaitingPage],
    torn: &[CallName],
) -> Result<RestoredLine, NoMemory>
    ensures { IfOk result
        (λ restored. Restores line.now (whole_pages torn.now pages.now) restored) }
{
    let mut restored = RestoredLine::new(alloc, line)?;
    for waits in pages {
        if !is_torn(torn, waits) {
            restored.take(alloc, line, waits)?;
        }
    }
    Ok(restored)
}
