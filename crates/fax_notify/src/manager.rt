//! A service manager.
ghost use Rattle.std.specs.Prelude.{◌≡◌, List, Option, None};
ghost use Rattle.fax_notify.specs.Tellings.{told_after};
ghost use Rattle.fax_notify.specs.declared.notice.Notice.{Notice as NoticeShown};

use crate::notice::Notice;

/// A service manager, or nobody.
pub trait ServiceManager: Sized {
    /// What it was told, the newest first, of one that says it. By default nothing is said.
    ghost told: { Self → Option (List NoticeShown) } = { λ manager. None };

    /// It is told this. Where that fails, the server goes on.
    fn tell(&mut self, notice: Notice)
        ensures { told self.new ≡ told_after notice (told self.old) };

    /// The same one, for who tells it later.
    fn another(&self) -> Self;
}
