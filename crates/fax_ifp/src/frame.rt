//! The frame whose octets come.
ghost use Rattle.std.specs.Prelude.{◌≡◌, Some, None, List, [], ◌∷◌, ◌++◌, option_map};

use crate::FieldType;
use fax_frames::FrameBytes;
use std::marker::Model;

/// The octets of hdlc-data since the last boundary, in a fixed place; nothing where one is missing since,
/// or where they are more than 256.
pub(crate) struct FrameSoFar {
    octets: Option<FrameBytes>,
}

impl Drop for FrameSoFar {
    fn drop(self) {
        let FrameSoFar { octets: _octets } = self;
    }
}

impl Model for FrameSoFar {
    ghost use Rattle.std.specs.Prelude.{ℕ, List, Option, option_map};

    ghost Value = { Option (List ℕ) };

    ghost view = { λ f. option_map (λ o. o.items) f.octets };
}

impl FrameSoFar {
    ghost use Rattle.fax_ifp.specs.Elements.{Element, Field};
    ghost use Rattle.fax_ifp.specs.Pieces.{hdlc_since, frame_if, frame_pieces};
    ghost use Rattle.fax_ifp.specs.Tracked.{kept};
    ghost use Rattle.fax_ifp.specs.Shown.{frames_shown};

    /// What a boundary leaves.
    pub fn new() -> Self
        ensures { result ≡ Some [] }
    {
        FrameSoFar {
            octets: Some(FrameBytes::new()),
        }
    }

    /// An equal value. It takes no memory.
    pub fn copy(&self) -> Self
        ensures { result ≡ self.now }
    {
        let Some(octets) = &self.octets else {
            return FrameSoFar { octets: None };
        };
        let mut copy = FrameBytes::new();
        // As many octets as there were have room.
        let _ = copy.try_extend_from_slice(octets.as_slice());
        FrameSoFar { octets: Some(copy) }
    }

    /// Something is missing.
    pub fn lose(&mut self)
        ensures { self.new ≡ None }
    {
        self.octets = None;
    }

    /// A field of V.21 data comes. It answers the frame that it ends.
    pub fn field(&mut self, what: u8, octets: &[u8]) -> Option<FrameBytes>
        ensures after { (heard : List Element) → self.old ≡ kept (hdlc_since heard)
            → self.new ≡ kept (hdlc_since (Field 0 what octets.now ∷ heard)) }
        ensures frame { (heard : List Element) → self.old ≡ kept (hdlc_since heard)
            → frames_shown result ≡ frame_pieces heard 0 what }
    {
        match FieldType::from_code(what) {
            Some(FieldType::HdlcData) => self.append(octets),
            Some(FieldType::HdlcFcsOk | FieldType::HdlcFcsOkSigEnd) => return self.end(),
            Some(FieldType::HdlcSigEnd | FieldType::HdlcFcsBad | FieldType::HdlcFcsBadSigEnd) => {
                *self = FrameSoFar::new();
            }
            Some(FieldType::T4NonEcmData | FieldType::T4NonEcmSigEnd) | None => {}
        }
        None
    }

    /// Octets of hdlc-data come.
    fn append(&mut self, octets: &[u8])
        ensures { self.new ≡ kept (option_map (λ front. front ++ octets.now) self.old) }
    {
        let fits = match &mut self.octets {
            Some(front) => front.try_extend_from_slice(octets).is_ok(),
            None => true,
        };
        if !fits {
            self.octets = None;
        }
    }

    /// The octets end here. It answers them where they are a frame's.
    fn end(&mut self) -> Option<FrameBytes>
        ensures after { self.new ≡ Some [] }
        ensures frame { frames_shown result ≡ frame_if self.old }
    {
        let ended = self.octets.replace(FrameBytes::new());
        ended.filter(|octets| !octets.is_empty())
    }
}
