//! A page that waits, by itself.
ghost use Rattle.std.specs.Prelude.{◌≡◌, Bool, IfOk};
ghost use Rattle.fax_spool.specs.Opened.{closing};

use crate::PageRecord;
use fax_runcodes::Format;
use std::alloc::{AllocError, Global};
use std::marker::Model;

/// A page that waits: what its record says, in memory of its own.
pub struct WaitingPage {
    /// In which life of the process it was confirmed.
    pub life: u32,
    /// The number of the call that it came in.
    pub call: u32,
    /// Which page of that call it is, counted from 1.
    pub number: u32,
    /// Its width and resolution.
    pub format: Format,
    /// Whether it closes its job.
    pub closes: bool,
    /// The name of its line.
    pub line: Vec<u8>,
    /// The tag of its call.
    pub tag: Vec<u8>,
    /// Its text in two-dimensional coding, without fill.
    pub text: Vec<u8>,
}

impl Drop for WaitingPage {
    fn drop(self) {
        let WaitingPage {
            life: _life,
            call: _call,
            number: _number,
            format: _format,
            closes: _closes,
            line: _line,
            tag: _tag,
            text: _text,
        } = self;
    }
}

impl Model for WaitingPage {
    ghost use Rattle.fax_spool.specs.RecordOctets.{PageValue};

    ghost Value = { PageValue };

    ghost view = { λ p. record {
      life = p.life;
      call = p.call;
      number = p.number;
      format = p.format;
      closes = p.closes;
      line = p.line.items;
      tag = p.tag.items;
      text = p.text.items;
    } };
}

impl WaitingPage {
    /// What a record says, where the page closes its job or not.
    pub(crate) fn of_record(
        alloc: Global,
        page: &PageRecord<'_>,
        closes: bool,
    ) -> Result<Self, AllocError>
        ensures { IfOk result (λ waits. waits ≡ closing closes page.now) }
    {
        Ok(WaitingPage {
            life: page.life,
            call: page.call,
            number: page.number,
            format: page.format,
            closes,
            line: page.line.to_vec(alloc)?,
            tag: page.tag.to_vec(alloc)?,
            text: page.text.to_vec(alloc)?,
        })
    }

    /// Its record.
    pub fn as_record(&self) -> PageRecord<'_>
        ensures { result ≡ self.now }
    {
        PageRecord {
            life: self.life,
            call: self.call,
            number: self.number,
            format: self.format,
            closes: self.closes,
            line: self.line.as_slice(),
            tag: self.tag.as_slice(),
            text: self.text.as_slice(),
        }
    }
}
