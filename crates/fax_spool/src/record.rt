//! What a record of a spool says, and its octets.
ghost use Rattle.std.specs.Prelude.{◌≡◌, ◌≢◌, ◌<◌, ◌⊎◌, Bool, List, [], ◌∷◌, ℕ, length, IfOk, IfSome, OnOk, MatchOption, ◌++◌};
ghost use Rattle.fax_spool.specs.RecordOctets.{PageValue, EndedValue, PageFits, EndFits, page_octets, ended_octets, short_octets, width_octet, flag_octet};
ghost use Rattle.std.specs.Int.{w32, to_be_bytes};
ghost use Rattle.fax_jobs.specs.Outcomes.{outcome_number};
ghost use Rattle.fax_jobs.specs.declared.outcome.Outcome.{Outcome as OutcomeShown};
ghost use Rattle.fax_runcodes.specs.declared.format.Format.{Format as FormatShown};

use fax_jobs::Outcome;
use fax_runcodes::{Format, Width};
use std::alloc::{AllocError, Global};
use std::marker::Model;

/// The first octet of a page's record.
const PAGE: u8 = 1;

/// The first octet of the record of a job that ended.
const ENDED: u8 = 2;

/// A page that was confirmed.
#[derive(Drop)]
pub struct PageRecord<'a> {
    /// In which life of the process, counted from 1.
    pub life: u32,
    /// The number of the call that it came in.
    pub call: u32,
    /// Which page of that call it is, counted from 1.
    pub number: u32,
    /// Its width and resolution.
    pub format: Format,
    /// Whether it closed its job.
    pub closes: bool,
    /// The name of its line, at most 255 octets.
    pub line: &'a [u8],
    /// The tag of its call, at most 255 octets.
    pub tag: &'a [u8],
    /// Its text in two-dimensional coding, without fill.
    pub text: &'a [u8],
}

impl<'a> Model for PageRecord<'a> {
    ghost use Rattle.fax_spool.specs.RecordOctets.{PageValue};

    ghost Value = { PageValue };

    ghost view = { λ p. record {
      life = p.life;
      call = p.call;
      number = p.number;
      format = p.format;
      closes = p.closes;
      line = p.line.now;
      tag = p.tag.now;
      text = p.text.now;
    } };
}

impl<'a> PageRecord<'a> {
    /// The same record once more, of the same octets.
    pub fn copy(&self) -> PageRecord<'a>
        ensures { result ≡ self.now }
    {
        PageRecord {
            life: self.life,
            call: self.call,
            number: self.number,
            format: self.format,
            closes: self.closes,
            line: self.line,
            tag: self.tag,
            text: self.text,
        }
    }
}

/// A job that ended.
#[derive(Drop)]
pub struct EndedRecord<'a> {
    /// In which life of the process its pages were confirmed.
    pub life: u32,
    /// The number of the call that they came in.
    pub call: u32,
    /// Which page of the call its first page is, counted from 1.
    pub first: u32,
    /// How many pages it had.
    pub pages: u32,
    /// How many of them the called machine confirmed.
    pub delivered: u32,
    /// The format of its first page.
    pub format: Format,
    /// How it ended.
    pub outcome: Outcome,
    /// The name of its line, at most 255 octets.
    pub line: &'a [u8],
}

impl<'a> Model for EndedRecord<'a> {
    ghost use Rattle.fax_spool.specs.RecordOctets.{EndedValue};

    ghost Value = { EndedValue };

    ghost view = { λ e. record {
      life = e.life;
      call = e.call;
      first = e.first;
      pages = e.pages;
      delivered = e.delivered;
      format = e.format;
      outcome = e.outcome;
      line = e.line.now;
    } };
}

/// The octets of a page's record.
pub fn write_page_record(alloc: Global, page: &PageRecord<'_>) -> Result<Vec<u8>, AllocError>
    requires line { length page.now.line < 256 }
    requires tag { length page.now.tag < 256 }
    ensures octets { IfOk result (λ octets. octets.items ≡ page_octets page.now) }
    ensures numbers { IfOk result (λ _. PageFits page.now) }
{
    let mut octets = Vec::with_capacity(alloc, page.line.len() + 18)?;
    octets.push(PAGE)?;
    octets.extend_from_slice(&page.life.to_be_bytes())?;
    octets.extend_from_slice(&page.call.to_be_bytes())?;
    octets.extend_from_slice(&page.number.to_be_bytes())?;
    push_format(&mut octets, page.format)?;
    octets.push(flag_octet(page.closes))?;
    push_short(&mut octets, page.line)?;
    push_short(&mut octets, page.tag)?;
    octets.extend_from_slice(page.text)?;
    Ok(octets)
}

/// The octets of the record of a job that ended.
pub fn write_ended_record(alloc: Global, ended: &EndedRecord<'_>) -> Result<Vec<u8>, AllocError>
    requires line { length ended.now.line < 256 }
    ensures octets { IfOk result (λ octets. octets.items ≡ ended_octets ended.now) }
    ensures numbers { IfOk result (λ _. EndFits ended.now) }
{
    let mut octets = Vec::with_capacity(alloc, ended.line.len() + 25)?;
    octets.push(ENDED)?;
    octets.extend_from_slice(&ended.life.to_be_bytes())?;
    octets.extend_from_slice(&ended.call.to_be_bytes())?;
    octets.extend_from_slice(&ended.pages.to_be_bytes())?;
    octets.extend_from_slice(&ended.delivered.to_be_bytes())?;
    push_format(&mut octets, ended.format)?;
    octets.push(ended.outcome.number())?;
    octets.extend_from_slice(&ended.first.to_be_bytes())?;
    push_short(&mut octets, ended.line)?;
    Ok(octets)
}

/// The page's record that octets are; `None` where they are none.
pub fn read_page_record(octets: &[u8]) -> Option<PageRecord<'_>>
    ensures read { MatchOption result ((page : PageValue)
        → octets.now ≢ page_octets page) (λ page. octets.now ≡ page_octets page) }
    ensures numbers { IfSome result PageFits }
{
    match octets {
        [
            PAGE,
            l0,
            l1,
            l2,
            l3,
            c0,
            c1,
            c2,
            c3,
            n0,
            n1,
            n2,
            n3,
            width,
            fine,
            closes,
            rest @ ..,
        ] => {
            let format = format_of(*width, *fine)?;
            let closes = flag_of(*closes)?;
            let (line, tag, text) = read_texts(rest)?;
            Some(PageRecord {
                life: number_of(*l0, *l1, *l2, *l3),
                call: number_of(*c0, *c1, *c2, *c3),
                number: number_of(*n0, *n1, *n2, *n3),
                format,
                closes,
                line,
                tag,
                text,
            })
        }
        _ => None,
    }
}

/// The record of a job that ended that octets are; `None` where they are none.
pub fn read_ended_record(octets: &[u8]) -> Option<EndedRecord<'_>>
    ensures read { MatchOption result ((ended : EndedValue)
        → octets.now ≢ ended_octets ended) (λ ended. octets.now ≡ ended_octets ended) }
    ensures numbers { IfSome result EndFits }
{
    match octets {
        [
            ENDED,
            l0,
            l1,
            l2,
            l3,
            c0,
            c1,
            c2,
            c3,
            p0,
            p1,
            p2,
            p3,
            d0,
            d1,
            d2,
            d3,
            width,
            fine,
            outcome,
            rest @ ..,
        ] => {
            let format = format_of(*width, *fine)?;
            let outcome = outcome_of(*outcome)?;
            let (first, line) = read_first_and_line(rest)?;
            Some(EndedRecord {
                life: number_of(*l0, *l1, *l2, *l3),
                call: number_of(*c0, *c1, *c2, *c3),
                first,
                pages: number_of(*p0, *p1, *p2, *p3),
                delivered: number_of(*d0, *d1, *d2, *d3),
                format,
                outcome,
                line,
            })
        }
        _ => None,
    }
}

/// A name or a tag after its length.
fn push_short(octets: &mut Vec<u8>, name: &[u8]) -> Result<(), AllocError>
    requires { length name.now < 256 }
    ensures { OnOk result (octets.new.items ≡ octets.old.items ++ short_octets name.now) }
{
    octets.push(name.len() as u8)?;
    octets.extend_from_slice(name)?;
    Ok(())
}

/// A format's two octets.
fn push_format(octets: &mut Vec<u8>, format: Format) -> Result<(), AllocError>
    ensures { OnOk result (octets.new.items
        ≡ octets.old.items ++ width_octet format.width ∷ flag_octet format.fine ∷ []) }
{
    let width = match format.width {
        Width::W1728 => 0,
        Width::W2048 => 1,
        Width::W2432 => 2,
    };
    octets.push(width)?;
    octets.push(flag_octet(format.fine))?;
    Ok(())
}

fn flag_octet(flag: bool) -> u8
    ensures { result ≡ flag_octet flag }
{
    if flag { 1 } else { 0 }
}

/// A name or a tag that octets begin with after its length, and what stands after it.
fn read_short(octets: &[u8]) -> Option<(&[u8], &[u8])>
    ensures { MatchOption result ((name rest : List ℕ) → octets.now ≢ short_octets name ++ rest)
        (λ p. octets.now ≡ short_octets p.0.now ++ p.1.now) }
{
    let (length, rest) = octets.split_first()?;
    let length = usize::from(*length);
    if length > rest.len() {
        return None;
    }
    Some(rest.split_at(length))
}

/// A name, a tag and what stands after them.
fn read_texts(octets: &[u8]) -> Option<(&[u8], &[u8], &[u8])>
    ensures { MatchOption result ((line tag text : List ℕ)
        → octets.now ≢ short_octets line ++ (short_octets tag ++ text))
        (λ t. octets.now ≡ short_octets t.0.now ++ (short_octets t.1.now ++ t.2.now)) }
{
    let (line, rest) = read_short(octets)?;
    let (tag, text) = read_short(rest)?;
    Some((line, tag, text))
}

/// A number and a name, with nothing after them.
fn read_first_and_line(octets: &[u8]) -> Option<(u32, &[u8])>
    ensures { MatchOption result ((first : ℕ) (name : List ℕ) → octets.now ≢ to_be_bytes w32 first
        ++ short_octets name) (λ p. octets.now ≡ to_be_bytes w32 p.0 ++ short_octets p.1.now) }
{
    match octets {
        [f0, f1, f2, f3, rest @ ..] => {
            let line = read_last_short(rest)?;
            Some((number_of(*f0, *f1, *f2, *f3), line))
        }
        _ => None,
    }
}

/// A name after its length, with nothing after it.
fn read_last_short(octets: &[u8]) -> Option<&[u8]>
    ensures { MatchOption result ((name : List ℕ)
        → octets.now ≢ short_octets name) (λ name. octets.now ≡ short_octets name.now) }
{
    let (length, name) = octets.split_first()?;
    if usize::from(*length) != name.len() {
        return None;
    }
    Some(name)
}

/// A number of four octets, the high one first.
#[tactic(auto, using(crate::proofs::Numbers::bytes_back))]
pub(crate) fn number_of(first: u8, second: u8, third: u8, fourth: u8) -> u32
    ensures { to_be_bytes w32 result ≡ first ∷ second ∷ third ∷ fourth ∷ [] }
{
    u32::from_be_bytes([first, second, third, fourth])
}

/// The format of two octets.
fn format_of(width: u8, fine: u8) -> Option<Format>
    ensures { MatchOption result ((format : FormatShown)
        → (width ≢ width_octet format.width) ⊎ (fine ≢ flag_octet format.fine))
        (λ format. (width ≡ width_octet format.width) × (fine ≡ flag_octet format.fine)) }
{
    let width = match width {
        0 => Width::W1728,
        1 => Width::W2048,
        2 => Width::W2432,
        _ => return None,
    };
    let fine = flag_of(fine)?;
    Some(Format { width, fine })
}

fn flag_of(octet: u8) -> Option<bool>
    ensures { MatchOption result ((flag : Bool)
        → octet ≢ flag_octet flag) (λ flag. octet ≡ flag_octet flag) }
{
    match octet {
        0 => Some(false),
        1 => Some(true),
        _ => None,
    }
}

/// The outcome of this number.
fn outcome_of(number: u8) -> Option<Outcome>
    ensures { MatchOption result ((outcome : OutcomeShown)
        → number ≢ outcome_number outcome) (λ outcome. number ≡ outcome_number outcome) }
{
    match number {
        0 => Some(Outcome::Delivered),
        1 => Some(Outcome::NotReceiver),
        2 => Some(Outcome::WidthLacking),
        3 => Some(Outcome::FineLacking),
        4 => Some(Outcome::RatesSpent),
        5 => Some(Outcome::NoAnswer),
        6 => Some(Outcome::NoReply),
        7 => Some(Outcome::PageRefused),
        8 => Some(Outcome::HungUp),
        9 => Some(Outcome::NotPlaced),
        _ => None,
    }
}
