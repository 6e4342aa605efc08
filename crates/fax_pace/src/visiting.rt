//! Who looks over HTTP, and pictures of pages that could not be delivered.
use crate::undelivered::pages_undelivered;
use crate::undelivered_calls::UndeliveredCalls;
use fax_bits::NoMemory;
use fax_http::visitors::Visitors;
use fax_http::{Answer, Content, Question, Refusal, Status, picture_path, refusal};
use fax_pagestore::{PackedRows, Page, PageFault};
use fax_png::write_png;
use fax_spool::WaitingPage;
use fax_spool_folder::read_waiting_page;
use fax_undelivered::UndeliveredCall;
use std::alloc::{AllocError, Global};

/// Visitors are served so often, in milliseconds, and one of them is answered each time; and while nobody is there, it is looked so often
/// whether somebody comes.
const BETWEEN_VISITS_MS: u64 = 10;

const BETWEEN_LOOKS_MS: u64 = 50;

/// So many milliseconds after a picture the next one is made at the earliest.
const BETWEEN_PICTURES_MS: u64 = 1_000;

/// And so many after one that could not be made.
const BETWEEN_ANSWERS_MS: u64 = 50;

/// For a picture all pages that could not be delivered are read. Where they are more, none is made.
const MOST_PAGES_READ: u64 = 200;

/// What came of a picture that was asked for.
enum Pictured {
    /// It was made: a PNG.
    Made(Vec<u8>),
    /// There is none.
    Nothing,
    /// It cannot be made now.
    NotNow,
}

/// Who looks over HTTP, where that is configured.
pub(crate) struct Visiting {
    visitors: Option<Visitors>,
    /// From which moment on they are served again.
    visits_from: u64,
    /// From which moment on the next picture may be made.
    pictures_from: u64,
}

impl Drop for Visiting {
    fn drop(self) {
        let Visiting {
            visitors: _visitors,
            visits_from: _visits_from,
            pictures_from: _pictures_from,
        } = self;
    }
}

impl Visiting {
    /// These, to whom nothing was told.
    pub(crate) fn new(visitors: Option<Visitors>) -> Self {
        Visiting {
            visitors,
            visits_from: 0,
            pictures_from: 0,
        }
    }

    /// For how many milliseconds words are waited for at most, so that visitors are served meanwhile.
    pub(crate) fn most_between(&self) -> u64 {
        match &self.visitors {
            Some(visitors) if visitors.are_there() => BETWEEN_VISITS_MS,
            Some(_) => BETWEEN_LOOKS_MS,
            None => u64::MAX,
        }
    }

    /// Goes on with them, without waiting, and answers a question of one of them with its place. Those for pictures wait until a turn is
    /// over.
    pub(crate) fn next_question(&mut self, now: u64) -> Option<(usize, Question)> {
        if now < self.visits_from {
            return None;
        }
        self.visits_from = now.saturating_add(BETWEEN_VISITS_MS);
        match &mut self.visitors {
            Some(visitors) => {
                visitors.serve(now);
                visitors.asked(false)
            }
            None => None,
        }
    }

    /// The visitor at a place is answered, and written to.
    pub(crate) fn answer(&mut self, now: u64, place: usize, answer: &Answer<'_>) {
        if let Some(visitors) = &mut self.visitors {
            visitors.answer(place, answer);
            visitors.serve(now);
        }
    }

    /// One of those who ask for a picture of pages that are kept so is answered, where it is time for one. Where their disk has failed, or
    /// the server stops, none is made.
    pub(crate) fn show_picture<K: UndeliveredCalls>(
        &mut self,
        alloc: Global,
        now: u64,
        kept: &mut K,
        may_read: bool,
    ) {
        if now < self.pictures_from {
            return;
        }
        let Some(place) = self.picture_asked() else {
            return;
        };
        self.pictures_from = now.saturating_add(BETWEEN_ANSWERS_MS);
        match self.picture_for(alloc, place, kept, may_read) {
            Ok(Pictured::Made(picture)) => {
                self.pictures_from = now.saturating_add(BETWEEN_PICTURES_MS);
                let answer = Answer {
                    status: Status::Good,
                    content: Content::Png,
                    body: picture.as_slice(),
                };
                self.answer(now, place, &answer);
            }
            Ok(Pictured::Nothing) => self.answer(now, place, &refusal(Refusal::NotFound)),
            Ok(Pictured::NotNow) => self.answer(now, place, &NOT_NOW),
            Err(NoMemory) => self.answer(now, place, &NO_MEMORY),
        }
    }

    /// The place of a visitor who asks for a picture.
    fn picture_asked(&self) -> Option<usize> {
        let visitors = self.visitors.as_ref()?;
        let (place, _) = visitors.asked(true)?;
        Some(place)
    }

    /// The picture that the visitor at a place asks for.
    fn picture_for<K: UndeliveredCalls>(
        &self,
        alloc: Global,
        place: usize,
        kept: &mut K,
        may_read: bool,
    ) -> Result<Pictured, NoMemory> {
        let Some(visitors) = &self.visitors else {
            return Ok(Pictured::Nothing);
        };
        let Some(path) = visitors.path(place) else {
            return Ok(Pictured::Nothing);
        };
        let Some(k) = call_at(alloc, path, kept.calls())? else {
            return Ok(Pictured::Nothing);
        };
        if !may_read || kept.refuses() || pages_undelivered(kept.calls()) > MOST_PAGES_READ {
            return Ok(Pictured::NotNow);
        }
        picture_of(alloc, kept, k)
    }
}

/// Which of these calls has its picture at a path.
fn call_at(
    alloc: Global,
    path: &[u8],
    calls: &[UndeliveredCall],
) -> Result<Option<usize>, AllocError> {
    for (k, call) in calls.iter().enumerate() {
        let at = picture_path(alloc, call.line.as_slice(), u64::from(call.life), call.call)?;
        if at.as_bytes() == path {
            return Ok(Some(k));
        }
    }
    Ok(None)
}

/// The picture of the first page of call k.
fn picture_of<K: UndeliveredCalls>(
    alloc: Global,
    kept: &mut K,
    k: usize,
) -> Result<Pictured, NoMemory> {
    let Some(call) = kept.calls().get(k) else {
        return Ok(Pictured::Nothing);
    };
    let line = call.line.as_slice().to_vec(alloc)?;
    let (life, number) = (call.life, call.call);
    let Some(pages) = kept.pages_of(alloc, line.as_slice(), life, number) else {
        return Ok(Pictured::NotNow);
    };
    let Some(first) = pages.first() else {
        return Ok(Pictured::Nothing);
    };
    match page_of(alloc, first)? {
        Some(page) => Ok(Pictured::Made(write_png(alloc, &page)?)),
        None => Ok(Pictured::Nothing),
    }
}

/// The page that a record means, where it means one.
fn page_of(alloc: Global, record: &WaitingPage) -> Result<Option<Page<PackedRows>>, NoMemory> {
    match read_waiting_page(alloc, record) {
        Ok(page) => Ok(Some(page)),
        Err(PageFault::NoMemory) => Err(NoMemory),
        Err(_) => Ok(None),
    }
}

/// What is answered where a picture cannot be made now.
const NOT_NOW: Answer<'static> = Answer {
    status: Status::NotWell,
    content: Content::Text,
    body: b"no picture now: the server stops, its disk has failed, or there are too many pages\n",
};

/// What is answered where memory was refused.
pub(crate) const NO_MEMORY: Answer<'static> = Answer {
    status: Status::NotWell,
    content: Content::Text,
    body: b"memory was refused\n",
};
