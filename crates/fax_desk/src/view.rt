//! What lines are when something is said of them.
use crate::tag::Tag;

/// What a leg is.
#[derive(Clone, Copy)]
pub struct LegView {
    /// Whether it has a peer, or learns one from the first datagram that comes.
    pub has_peer: bool,
    /// Whether the configuration gives it its peer.
    pub is_fixed: bool,
    /// Whether its peer was heard in the call that is on.
    pub is_heard: bool,
}

/// A job whose call a line asks for: the call that its pages came in, and how many they are.
#[derive(Clone, Copy)]
pub struct AskedView {
    pub call: u32,
    pub pages: u32,
}

/// The job that is first in turn on a line: whether it was confirmed in an earlier life, and the tag that it has from there.
#[derive(Clone, Copy)]
pub struct FirstJob {
    pub is_restored: bool,
    pub tag: Option<Tag>,
}

/// What a line is.
#[derive(Clone, Copy)]
pub struct LineView {
    /// The number of the call that is on on the calling leg.
    pub call: Option<u32>,
    /// The call whose job is under way on the called leg.
    pub sending: Option<u32>,
    pub asked: Option<AskedView>,
    pub first: FirstJob,
    pub calling: LegView,
    pub called: LegView,
}

/// What the lines are, and whether their spool has failed.
pub trait View {
    ghost use Rattle.std.specs.Prelude.{◌≡◌, ℕ, Bool, Option};
    ghost use Rattle.fax_desk.specs.declared.view.LineView.{LineView as Shown};

    ghost line: { Self → ℕ → Option Shown };

    ghost failed: { Self → Bool };

    /// What line i is.
    fn line(&self, i: usize) -> Option<LineView>
        ensures { result ≡ line self.now i };

    /// Whether the spool's disk has failed, so that it takes no page.
    fn has_failed(&self) -> bool
        ensures { result ≡ failed self.now };
}
