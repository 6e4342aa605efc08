//! A place for a visitor.
ghost use Rattle.std.specs.Prelude.{◌≡◌, IfSome, None, Some, is_some, option_and_then};
ghost use Rattle.fax_http.specs.Connections.{nothing_heard, unanswered};
ghost use Rattle.fax_http.specs.visitors.Visits.{HasPath, IsAnsweredPlace, IsServedPlace};

use crate::visitors::visitor::Visitor;
use crate::{Answer, Question};
use mio::net::TcpStream;
use std::alloc::Global;
use std::marker::Model;

/// A place for a visitor: one is there, or none.
pub(crate) struct Place {
    visitor: Option<Visitor>,
}

impl Drop for Place {
    fn drop(self) {
        let Place { visitor: _visitor } = self;
    }
}

/// Contracts see the connection of who is there.
impl Model for Place {
    ghost use Rattle.std.specs.Prelude.{Option};
    ghost use Rattle.fax_http.specs.Connections.{ConnectionValue};

    ghost Value = { Option ConnectionValue };

    ghost view = { λ p. p.visitor };
}

impl Place {
    /// Nobody is there.
    pub(crate) fn new() -> Self
        ensures { result ≡ None }
    {
        Place { visitor: None }
    }

    /// Whether somebody is there.
    pub(crate) fn is_there(&self) -> bool
        ensures { result ≡ is_some self.now }
    {
        self.visitor.is_some()
    }

    /// When who is there said something last.
    pub(crate) fn last(&self) -> u64 {
        match &self.visitor {
            Some(visitor) => visitor.last(),
            None => 0,
        }
    }

    /// Somebody comes. Who was there goes.
    pub(crate) fn fill(&mut self, alloc: Global, stream: TcpStream, now: u64)
        ensures { self.new ≡ Some nothing_heard }
    {
        self.visitor = Some(Visitor::new(alloc, stream, now));
    }

    /// Who is there is read and written to, and goes where that was all.
    pub(crate) fn serve(&mut self, now: u64)
        ensures { IsServedPlace self.old self.new }
    {
        let Some(visitor) = &mut self.visitor else {
            return;
        };
        visitor.serve(now);
        if !visitor.stays(now) {
            self.visitor = None;
        }
    }

    /// What who is there asks for, where that was not answered.
    pub(crate) fn asked(&self) -> Option<Question>
        ensures { result ≡ option_and_then unanswered self.now }
    {
        match &self.visitor {
            Some(visitor) => visitor.asked(),
            None => None,
        }
    }

    /// The path that who is there asks for.
    pub(crate) fn path(&self) -> Option<&[u8]>
        ensures { IfSome result (λ path. HasPath path.now self.now) }
    {
        match &self.visitor {
            Some(visitor) => visitor.path(),
            None => None,
        }
    }

    /// Who is there is answered. Without memory for that it goes.
    pub(crate) fn answer(&mut self, answer: &Answer<'_>)
        ensures { IsAnsweredPlace answer.now self.old self.new }
    {
        let Some(visitor) = &mut self.visitor else {
            return;
        };
        if visitor.answer(answer).is_err() {
            self.visitor = None;
        }
    }
}
