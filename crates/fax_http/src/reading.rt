//! The head of a request, read.
ghost use Rattle.std.specs.Prelude.{◌≡◌, ◌<◌, ◌≤◌, ℕ, List, Some, length, IfNone, IfSome, IsSome};
ghost use Rattle.httparse.specs.Grammar.{HasNoRequest, MayBecomeRequest, ReadsRequest, RequestHead};
ghost use Rattle.fax_http.specs.PicturePaths.{AsksForPath};
ghost use Rattle.fax_http.specs.Questions.{Asks, asked_by, path_of, query_at, question_of, refused as refused_by, resource_at, wanted_by};

use crate::question::{Question, Refusal, Resource, Wanted};
use httparse::spans::{EMPTY_HEADER_SPAN, parse_request};
use httparse::{Error, Status};

/// The longest head of a request, in octets.
pub const MOST_HEAD: usize = 8192;

/// The most fields of a head.
const MOST_FIELDS: usize = 64;

/// What these octets, which came so far, ask for (RFC 9112, 2 and 3): a question once their head is whole, or cannot be any more; none
/// while it may become whole. What comes after the head counts for nothing.
pub fn read_question(octets: &[u8]) -> Option<Question>
    ensures asks { IfSome result (λ question. Asks octets.now question) }
    ensures found { (head : RequestHead) (rest : List ℕ) → ReadsRequest octets.now head rest
        → length head.fields ≤ MOST_FIELDS → result ≡ Some (question_of head) }
    ensures none { IfNone result (HasNoRequest octets.now) }
    ensures waits { IfNone result (MayBecomeRequest octets.now) }
    ensures room { IfNone result (length octets.now < MOST_HEAD) }
{
    let mut fields = [EMPTY_HEADER_SPAN; MOST_FIELDS];
    match parse_request(octets, &mut fields) {
        Ok(Status::Complete(head)) => Some(question(head.method.of(octets), head.path.of(octets))),
        Ok(Status::Partial) if octets.len() < MOST_HEAD => None,
        Ok(Status::Partial) | Err(Error::TooManyHeaders) => Some(refused(Refusal::TooLong)),
        Err(_) => Some(refused(Refusal::Unreadable)),
    }
}

/// The path that a head asks for which stands at the front of these octets. `None`: no head that [`read_question`] answers stands there.
pub fn read_path(octets: &[u8]) -> Option<&[u8]>
    ensures asks { IfSome result (λ path. AsksForPath octets.now path.now) }
    ensures found { (head : RequestHead) (rest : List ℕ)
        → ReadsRequest octets.now head rest → length head.fields ≤ MOST_FIELDS → IsSome result }
{
    let mut fields = [EMPTY_HEADER_SPAN; MOST_FIELDS];
    match parse_request(octets, &mut fields) {
        Ok(Status::Complete(head)) => Some(path_of(head.path.of(octets))),
        Ok(Status::Partial) | Err(_) => None,
    }
}

/// A request that is refused for this.
fn refused(why: Refusal) -> Question
    ensures { result ≡ refused_by why }
{
    Question {
        wanted: Wanted::Refuse(why),
        has_body: true,
    }
}

/// The question of a head that stands at the front of these octets.
fn question(method: &[u8], target: &[u8]) -> Question
    ensures { result ≡ asked_by method.now target.now }
{
    let is_head = method == b"HEAD".as_slice();
    Question {
        wanted: wanted(method == b"GET".as_slice() || is_head, target),
        has_body: !is_head,
    }
}

/// What a method that is allowed, or not, gets at a target.
fn wanted(is_allowed: bool, target: &[u8]) -> Wanted
    ensures { result ≡ wanted_by is_allowed (resource_at (path_of target.now)) }
{
    match resource_at(path_of(target)) {
        None => Wanted::Refuse(Refusal::NotFound),
        Some(_) if !is_allowed => Wanted::Refuse(Refusal::NotAllowed),
        Some(resource) => Wanted::Tell(resource),
    }
}

/// The path of a target.
fn path_of(target: &[u8]) -> &[u8]
    ensures { result.now ≡ path_of target.now }
{
    match query_at(target) {
        Some(end) if end <= target.len() => &target[..end],
        Some(_) | None => target,
    }
}

/// Where the query of a target begins.
fn query_at(target: &[u8]) -> Option<usize>
    ensures { result ≡ query_at target.now }
{
    target.iter().position(|octet| *octet == b'?')
}

/// What is at a path.
#[tactic(auto, unfolding(crate::specs::Questions::resource_at))]
fn resource_at(path: &[u8]) -> Option<Resource>
    ensures { result ≡ resource_at path.now }
{
    if path == b"/".as_slice() {
        Some(Resource::Page)
    } else if path == b"/healthz".as_slice() {
        Some(Resource::Health)
    } else if path == b"/metrics".as_slice() {
        Some(Resource::Metrics)
    } else if path.starts_with(b"/undelivered/".as_slice()) {
        Some(Resource::Picture)
    } else {
        None
    }
}
