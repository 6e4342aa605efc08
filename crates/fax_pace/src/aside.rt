//! Pages of earlier lives that are not sent, and why.
use crate::telling::Teller;
use fax_control::events::{PageAside, WhyAside};
use fax_desk::Desk;
use fax_queue::{Aside, Queue};
use fax_spool::{CallName, WaitingPage, is_torn};

/// Tells those of these pages that are not sent.
pub(crate) fn tell_pages_aside(
    teller: &mut Teller,
    desk: &Desk,
    pages: &[WaitingPage],
    torn: &[CallName],
    queues: &[Queue],
) {
    for page in pages {
        if let Some(why) = why_aside(desk, page, torn, queues) {
            tell_page_aside(teller, page, why);
        }
    }
}

/// Tells those of these pages whose calls lack a page; a card, which has the number 0, is none.
pub(crate) fn tell_torn_pages(teller: &mut Teller, pages: &[WaitingPage], torn: &[CallName]) {
    for page in pages {
        if page.number > 0 && is_torn(torn, page) {
            tell_page_aside(teller, page, WhyAside::TornCall);
        }
    }
}

/// Why a page that waits is not sent, where it is not.
fn why_aside(
    desk: &Desk,
    page: &WaitingPage,
    torn: &[CallName],
    queues: &[Queue],
) -> Option<WhyAside> {
    let line = std::str::from_utf8(page.line.as_slice()).ok()?;
    let Some(i) = desk.find(line) else {
        return Some(WhyAside::NoLine);
    };
    if is_torn(torn, page) {
        return Some(WhyAside::TornCall);
    }
    let aside = Aside {
        life: page.life,
        call: page.call,
        number: page.number,
    };
    let queue = queues.get(i)?;
    queue.aside().contains(&aside).then_some(WhyAside::NoPage)
}

/// Tells a page that is not sent.
fn tell_page_aside(teller: &mut Teller, page: &WaitingPage, why: WhyAside) {
    let Ok(line) = std::str::from_utf8(page.line.as_slice()) else {
        return;
    };
    let aside = PageAside {
        life: page.life,
        call: page.call,
        number: page.number,
        why,
    };
    let tag = std::str::from_utf8(page.tag.as_slice()).ok();
    teller.tell_aside(line, aside, tag.filter(|tag| !tag.is_empty()));
}
