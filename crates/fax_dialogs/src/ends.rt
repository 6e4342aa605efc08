//! The ends of a dialog.
ghost use Rattle.std.specs.Prelude.{◌≡◌};
ghost use Rattle.fax_dialogs.specs.Dialogs.{kept_ends};

use crate::dialog_fault::DialogFault;
use crate::text::Text;

/// The Call-ID, and the tag and the address of each end.
pub(crate) struct Ends {
    pub(crate) call_id: Text,
    pub(crate) local_tag: Text,
    pub(crate) remote_tag: Text,
    pub(crate) local_uri: Text,
    pub(crate) remote_uri: Text,
}

impl Drop for Ends {
    fn drop(self) {
        let Ends {
            call_id: _call_id,
            local_tag: _local_tag,
            remote_tag: _remote_tag,
            local_uri: _local_uri,
            remote_uri: _remote_uri,
        } = self;
    }
}

impl Ends {
    /// The ends of these texts.
    #[tactic(auto, unfolding(crate::specs::Dialogs::kept_ends))]
    pub(crate) fn new(
        call_id: &[u8],
        local_tag: &[u8],
        remote_tag: &[u8],
        local_uri: &[u8],
        remote_uri: &[u8],
    ) -> Result<Self, DialogFault>
        ensures { result ≡ kept_ends (record {
          call_id = call_id.now;
          local_tag = local_tag.now;
          remote_tag = remote_tag.now;
          local_uri = local_uri.now;
          remote_uri = remote_uri.now;
        }) }
    {
        let call_id = Text::new(call_id)?;
        let local_tag = Text::new(local_tag)?;
        let remote_tag = Text::new(remote_tag)?;
        let local_uri = Text::new(local_uri)?;
        let remote_uri = Text::new(remote_uri)?;
        Ok(Ends {
            call_id,
            local_tag,
            remote_tag,
            local_uri,
            remote_uri,
        })
    }
}
