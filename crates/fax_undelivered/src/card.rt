//! The card of a call whose pages could not be delivered: how its last job ended.
ghost use Rattle.std.specs.Prelude.{◌≡◌, IfOk, slice_get};
ghost use Rattle.fax_undelivered.specs.Cards.{card_in, card_octets, outcomes};

use fax_jobs::Outcome;
use std::alloc::{AllocError, Global};
use std::marker::Model;

/// How the last job of a call ended whose pages could not be delivered.
#[derive(Drop)]
pub struct Card {
    /// How it ended.
    pub outcome: Outcome,
    /// Why, in a word of at most 64 octets; of none where that was not told.
    pub cause: Vec<u8>,
    /// How often it was tried.
    pub tries: u32,
    /// When it ended, in seconds since 1970.
    pub at: u64,
    /// How many of its pages, from the first that waits on, were delivered by tries since they were put.
    pub delivered: u32,
}

impl Model for Card {
    ghost use Rattle.fax_undelivered.specs.Cards.{CardValue};

    ghost Value = { CardValue };

    ghost view = { λ c. record {
      outcome = c.outcome;
      cause = c.cause.items;
      tries = c.tries;
      at = c.at;
      delivered = c.delivered;
    } };
}

impl Card {
    /// The same card once more.
    pub fn copy(&self, alloc: Global) -> Result<Card, AllocError>
        ensures { IfOk result (λ copy. copy ≡ self.now) }
    {
        Ok(Card {
            outcome: self.outcome,
            cause: self.cause.as_slice().to_vec(alloc)?,
            tries: self.tries,
            at: self.at,
            delivered: self.delivered,
        })
    }
}

/// The octets of a card.
pub fn write_card(alloc: Global, card: &Card) -> Result<Vec<u8>, AllocError>
    ensures { IfOk result (λ octets. octets.items ≡ card_octets card.now) }
{
    let mut octets = Vec::new(alloc);
    octets.push(card.outcome.number())?;
    octets.extend_from_slice(&card.tries.to_be_bytes())?;
    octets.extend_from_slice(&card.at.to_be_bytes())?;
    octets.extend_from_slice(&card.delivered.to_be_bytes())?;
    octets.extend_from_slice(card.cause.as_slice())?;
    Ok(octets)
}

/// The card that octets are, where they are one.
pub fn read_card(alloc: Global, octets: &[u8]) -> Result<Option<Card>, AllocError>
    ensures { IfOk result (λ card. card ≡ card_in octets.now) }
{
    match octets {
        [
            n,
            t0,
            t1,
            t2,
            t3,
            a0,
            a1,
            a2,
            a3,
            a4,
            a5,
            a6,
            a7,
            d0,
            d1,
            d2,
            d3,
            cause @ ..,
        ] => {
            let Some(outcome) = outcome_of(*n) else {
                return Ok(None);
            };
            Ok(Some(Card {
                outcome,
                cause: cause.to_vec(alloc)?,
                tries: u32::from_be_bytes([*t0, *t1, *t2, *t3]),
                at: u64::from_be_bytes([*a0, *a1, *a2, *a3, *a4, *a5, *a6, *a7]),
                delivered: u32::from_be_bytes([*d0, *d1, *d2, *d3]),
            }))
        }
        _ => Ok(None),
    }
}

/// The outcome of this number.
fn outcome_of(number: u8) -> Option<Outcome>
    ensures { result ≡ slice_get outcomes number }
{
    match number {
        0 => Some(Outcome::Delivered),
        1 => Some(Outcome::NotReceiver),
        2 => Some(Outcome::WidthLacking),
        3 => Some(Outcome::FineLacking),
        4 => Some(Outcome::RatesSpent),
        5 => Some(Outcome::NoAnswer),
        6 => Some(Outcome::NoReply),
        7 => Some(Outcome::PageRefused),
        8 => Some(Outcome::HungUp),
        9 => Some(Outcome::NotPlaced),
        _ => None,
    }
}
