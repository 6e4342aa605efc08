//! What clients are answered while no line is served, since the spool cannot be opened.
use fax_clients::{Clients, MOST_CLIENTS};
use fax_control::{Answer, HeardLine, Refusal, Word, read_word};
use fax_desk::{Reply, unserved_reply};
use fax_opening::{ServeFault, Stopwatch, close_control, open_control};
use std::alloc::Global;
use std::fs::Files;
use std::net::Net;
use std::rt::Clock;

/// Clients are waited for so many milliseconds at once, at most.
const WAIT_MS: u64 = 1_000;

/// Whether a word of a client said to stop.
#[derive(Clone, Copy, PartialEq)]
enum UnservedWord {
    Stop,
    Nothing,
}

/// Answers the clients of the control socket at this path for so many milliseconds, while no line is served: `stop` is done, and each
/// other word refused. It answers whether it was told to stop.
pub fn answer_unserved<N: Net + Files + Clock>(
    system: &N,
    alloc: Global,
    path: &str,
    within_ms: u64,
) -> Result<bool, ServeFault> {
    let watch = match Stopwatch::new(system) {
        Ok(watch) => watch,
        Err(error) => return Err(ServeFault::Clock(error)),
    };
    let listener = open_control(system, path)?;
    let mut clients: Clients = Clients::of_socket(alloc, listener, None)?;
    let said = answer_until(&watch, alloc, &mut clients, within_ms);
    clients.finish();
    close_control(system, path);
    Ok(said == UnservedWord::Stop)
}

/// Answers clients until so many milliseconds have passed, or one of them said to stop.
fn answer_until<C: Clock>(
    watch: &Stopwatch<'_, C>,
    alloc: Global,
    clients: &mut Clients,
    within_ms: u64,
) -> UnservedWord {
    for _ in 0..u64::MAX {
        let left = match watch.now() {
            Some(now) => within_ms.saturating_sub(now),
            None => 0,
        };
        if left == 0 {
            return UnservedWord::Nothing;
        }
        clients.wait(left.min(WAIT_MS) as i32);
        if answer_words(alloc, clients) == UnservedWord::Stop {
            return UnservedWord::Stop;
        }
    }
    UnservedWord::Nothing
}

/// Answers the words that were said, one of each client.
fn answer_words(alloc: Global, clients: &mut Clients) -> UnservedWord {
    for _ in 0..MOST_CLIENTS {
        let Some((asker, heard)) = clients.hear() else {
            return UnservedWord::Nothing;
        };
        let answer = answer_to(&heard);
        if let Ok(text) = format!(in alloc; "{answer}\n") {
            clients.answer(asker, text.into_bytes());
        }
        if let Answer::Done = answer {
            return UnservedWord::Stop;
        }
    }
    UnservedWord::Nothing
}

/// How a line of a client is answered.
fn answer_to(heard: &HeardLine) -> Answer<'static> {
    match heard {
        HeardLine::TooLong => Answer::Refused(Refusal::TooLong),
        HeardLine::Line(octets) => match read_word(octets.as_slice()) {
            Some(word) => answer_of(word),
            None => Answer::Refused(Refusal::NoWord),
        },
    }
}

/// The answer to a word.
fn answer_of(word: Word<'_>) -> Answer<'static> {
    match unserved_reply(word) {
        Reply::Refused(refused) => Answer::Refused(refused.why),
        _ => Answer::Done,
    }
}
