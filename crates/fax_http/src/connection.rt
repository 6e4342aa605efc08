//! A connection.
ghost use Rattle.std.specs.Prelude.{◌≡◌, take, IfOk, IfSome, OnErr, OnOk};
ghost use Rattle.fax_http.specs.PicturePaths.{AsksForPath};
ghost use Rattle.fax_http.specs.Connections.{Hears, answered_by, is_over, nothing_heard, unanswered, written};

use crate::answer::{Answer, write_answer};
use crate::question::Question;
use crate::reading::{MOST_HEAD, read_path, read_question};
use std::alloc::{AllocError, Global};
use std::marker::Model;

/// One connection, for one request: what came of its head, what that asks for, and what is left of its answer. It takes memory for a head
/// of at most [`MOST_HEAD`] octets, and for its answer.
pub struct Connection {
    alloc: Global,
    heard: Vec<u8>,
    question: Option<Question>,
    is_answered: bool,
    answer: Vec<u8>,
    /// How much of the answer was written.
    written: usize,
}

impl Drop for Connection {
    fn drop(self) {
        let Connection {
            alloc: _alloc,
            heard: _heard,
            question: _question,
            is_answered: _is_answered,
            answer: _answer,
            written: _written,
        } = self;
    }
}

/// Contracts see the octets that came, as far as they count, what they ask for, whether that was answered, and what is left of the answer.
impl Model for Connection {
    ghost use Rattle.std.specs.Prelude.{◌≤◌, drop, length};
    ghost use Rattle.fax_http.specs.Connections.{ConnectionValue};

    ghost Value = { ConnectionValue };

    ghost view = { λ c. record {
      heard = c.heard.items;
      question = c.question;
      is_answered = c.is_answered;
      left = drop c.written c.answer.items;
    } };

    ghost invariant = { λ c. (c.written ≤ length c.answer.items) × (length c.heard.items ≤ 8192) };
}

impl Connection {
    /// A connection on which nothing has come.
    pub fn new(alloc: Global) -> Self
        ensures { result ≡ nothing_heard }
    {
        Connection {
            alloc,
            heard: Vec::new(alloc),
            question: None,
            is_answered: false,
            answer: Vec::new(alloc),
            written: 0,
        }
    }

    /// Octets come. It answers what is asked for, once, when the head is whole or is refused; what comes after counts for nothing.
    /// `Err` means that memory was refused, and nothing has come.
    pub fn hear(&mut self, octets: &[u8]) -> Result<Option<Question>, AllocError>
        ensures ok { IfOk result (λ asked. Hears octets.now asked self.old self.new) }
        ensures err { OnErr result (self.new ≡ self.old) }
    {
        if self.question.is_some() {
            return Ok(None);
        }
        let room = MOST_HEAD.saturating_sub(self.heard.len());
        self.heard.extend_from_slice(front(octets, room))?;
        self.question = read_question(self.heard.as_slice());
        Ok(self.question)
    }

    /// What was asked for, where it was not answered.
    pub fn asked(&self) -> Option<Question>
        ensures { result ≡ unanswered self.now }
    {
        if self.is_answered {
            None
        } else {
            self.question
        }
    }

    /// The path that was asked for.
    pub fn path(&self) -> Option<&[u8]>
        ensures { IfSome result (λ path. AsksForPath self.now.heard path.now) }
    {
        read_path(self.heard.as_slice())
    }

    /// What was asked for is answered so: once, and not before it was asked for. `Err` means that memory was refused.
    pub fn answer(&mut self, answer: &Answer<'_>) -> Result<(), AllocError>
        ensures ok { OnOk result (self.new ≡ answered_by answer.now self.old) }
        ensures err { OnErr result (self.new ≡ self.old) }
    {
        if self.is_answered {
            return Ok(());
        }
        let Some(question) = self.question else {
            return Ok(());
        };
        self.answer = write_answer(self.alloc, answer, question.has_body)?;
        self.written = 0;
        self.is_answered = true;
        Ok(())
    }

    /// What is left of the answer.
    pub fn left(&self) -> &[u8]
        ensures { result.now ≡ self.now.left }
    {
        &self.answer[self.written..]
    }

    /// So many octets of what was left were written.
    pub fn wrote(&mut self, count: usize)
        ensures { self.new ≡ written count self.old }
    {
        let left = self.answer.len() - self.written;
        self.written += count.min(left);
    }

    /// Whether it was answered, and nothing is left of the answer.
    pub fn is_over(&self) -> bool
        ensures { result ≡ is_over self.now }
    {
        self.is_answered && self.left().is_empty()
    }
}

/// The octets at the front, so many at most.
fn front(octets: &[u8], most: usize) -> &[u8]
    ensures { result.now ≡ take most octets.now }
{
    if most < octets.len() {
        &octets[..most]
    } else {
        octets
    }
}
