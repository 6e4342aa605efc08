//! What a line is told: nothing where the call holds no leg.
ghost use Rattle.std.specs.Prelude.{◌≡◌};
ghost use Rattle.fax_switch.specs.Calls.{audio as audio_word, end_word as word_at_the_end, hang_up as hang_up_word, is_agreed as has_fax, peer as peer_word, refuse as refusal_word, silence as silence_word, word_by as word_for};

use crate::action::LineAction;
use crate::media::{AudioEnd, Description, FaxEnd, Media};
use crate::place::{Leg, Place};

/// Whether T.38 is agreed on.
pub(crate) fn is_agreed(media: Media) -> bool
    ensures { result ≡ has_fax media }
{
    match media {
        Media::FaxAgreed => true,
        Media::AudioOnly | Media::FaxOffered => false,
    }
}

/// The dialog is over, and not on account of the line.
pub(crate) fn hang_up(place: Option<Place>, media: Media) -> LineAction
    ensures { result ≡ hang_up_word place media }
{
    match place {
        Some(place) => end_word(place, is_agreed(media)),
        None => LineAction::NoWord,
    }
}

/// The dialog of a call that holds a leg is over: a job's call that has no T.38 yet was not placed.
fn end_word(place: Place, agreed: bool) -> LineAction
    ensures { result ≡ word_at_the_end place.leg place agreed }
{
    match place.leg {
        Leg::Calling => LineAction::HangUpLeg(place),
        Leg::Called => {
            if agreed {
                LineAction::HangUpLeg(place)
            } else {
                LineAction::RefuseCall(place, 488)
            }
        }
    }
}

/// There is T.38 at the other end.
pub(crate) fn peer(place: Option<Place>, media: Media, end: FaxEnd) -> LineAction
    ensures { result ≡ peer_word place media end }
{
    match place {
        Some(place) => LineAction::Peer(place, end, is_agreed(media)),
        None => LineAction::NoWord,
    }
}

/// There is audio at the other end.
pub(crate) fn audio(place: Option<Place>, end: AudioEnd) -> LineAction
    ensures { result ≡ audio_word place end }
{
    match place {
        Some(place) => LineAction::AudioOn(place, end),
        None => LineAction::NoWord,
    }
}

/// The call of a job could not be placed.
pub(crate) fn refuse(place: Option<Place>, status: u16) -> LineAction
    ensures { result ≡ refusal_word place status }
{
    match place {
        Some(place) => LineAction::RefuseCall(place, status),
        None => LineAction::NoWord,
    }
}

/// The line let go of it.
pub(crate) fn silence(place: Option<Place>, media: Media) -> LineAction
    ensures { result ≡ silence_word place media }
{
    match place {
        Some(place) => {
            if is_agreed(media) {
                LineAction::NoWord
            } else {
                LineAction::AudioOff(place)
            }
        }
        None => LineAction::NoWord,
    }
}

/// A re-INVITE describes this.
pub(crate) fn word_by(place: Option<Place>, media: Media, said: Description) -> LineAction
    ensures { result ≡ word_for place media said }
{
    match said {
        Description::FaxAt(end) => peer(place, media, end),
        Description::AudioAt(end) => match media {
            Media::AudioOnly => audio(place, end),
            Media::FaxAgreed | Media::FaxOffered => LineAction::NoWord,
        },
        Description::NothingSaid | Description::Unusable => LineAction::NoWord,
    }
}
