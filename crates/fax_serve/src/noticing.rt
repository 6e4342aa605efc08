//! What gives the orders, and tells a supervisor what becomes of the server.
ghost use Rattle.std.specs.Prelude.{◌≡◌};
ghost use Rattle.fax_notify.specs.Tellings.{ready_after};

use crate::ending::EndingPace;
use crate::supervisor::Supervisor;
use fax_desk::RunEnd;
use fax_line::{LineAnswer, Lines, Order, Pace, PutResult, RunStore};
use fax_notify::{Notice, ServiceManager};
use fax_wires::repeat::TimedWire;
use std::marker::Model;

/// What gives the orders, and a supervisor, which is told as the server begins to stop, and reads its configuration again.
#[derive(Drop)]
pub(crate) struct NoticingPace<P, M> {
    /// What gives the orders.
    pub ordering: P,
    manager: M,
    /// Whether the manager was told that the server stops.
    has_told: bool,
}

/// Contracts see what gives the orders.
impl<P, M> Model for NoticingPace<P, M> {
    ghost Value = { P };

    ghost view = { λ noticing. noticing.ordering };
}

impl<P: Drop, M: ServiceManager + Drop> NoticingPace<P, M> {
    /// All is open, and the orders begin: the manager is told that so many lines are open.
    pub(crate) fn begin(ordering: P, manager: &mut M, lines: usize) -> Self
        ensures ordering { result ≡ ordering }
        ensures ready { M.told manager.new ≡ ready_after lines (M.told manager.old) }
    {
        manager.tell(Notice::Ready { lines });
        NoticingPace {
            ordering,
            manager: manager.another(),
            has_told: false,
        }
    }
}

impl<P: EndingPace + Drop, M: Drop> NoticingPace<P, M> {
    /// What clients are still to be told is written, for a while. It answers how the run ends.
    pub(crate) fn finish(mut self) -> RunEnd {
        self.ordering.finish()
    }
}

impl<W: TimedWire + Drop, K: RunStore, P: Pace<W, K> + EndingPace, M: Supervisor> Pace<W, K>
    for NoticingPace<P, M> {
    ghost words = { P.words };

    ghost gives = { P.gives };

    ghost hears = { P.hears };

    ghost sees = { P.sees };

    ghost sees_stored = { P.sees_stored };

    fn next(&mut self, lines: &Lines<W>, store: Option<&K>) -> Option<Order> {
        let order = self.ordering.next(lines, store);
        tell_stop(&self.ordering, &mut self.manager, &mut self.has_told);
        reread_if_asked(&mut self.ordering, &mut self.manager);
        order
    }

    fn before_put(&mut self, lines: &Lines<W>, store: &mut K) {
        self.ordering.before_put(lines, store);
    }

    fn after_put(&mut self, lines: &Lines<W>, end: &PutResult) {
        self.ordering.after_put(lines, end);
    }

    fn turned(&mut self, lines: &Lines<W>, store: Option<&K>) {
        self.ordering.turned(lines, store);
    }

    fn stored(&mut self, lines: &Lines<W>, store: &K) {
        self.ordering.stored(lines, store);
    }

    fn done(&mut self, line: usize, answer: Option<LineAnswer>) {
        self.ordering.done(line, answer);
    }
}

/// The manager is told that the server stops, where it does, and that was not told.
fn tell_stop<P: EndingPace, M: ServiceManager>(ordering: &P, manager: &mut M, has_told: &mut bool) {
    if !*has_told && ordering.is_stopping() {
        *has_told = true;
        manager.tell(Notice::Stopping);
    }
}

/// The configuration is read again, where a client asked for it, which is answered.
fn reread_if_asked<P: EndingPace, M: Supervisor>(ordering: &mut P, manager: &mut M)
    ensures { ordering.new ≡ ordering.old }
{
    let Some(asker) = ordering.take_reload() else {
        return;
    };
    match manager.reread() {
        Some(gone) => ordering.reload(asker, Some(gone.as_slice())),
        None => ordering.reload(asker, None),
    }
}
