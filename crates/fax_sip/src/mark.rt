//! What a text is cut at.
ghost use Rattle.std.specs.Prelude.{◌≡◌, ◌==◌, ◌≤◌, IsTrue, length};
ghost use Rattle.std.specs.Char.{is_ascii_whitespace};
ghost use Rattle.fax_sip.specs.Texts.{after, first_is, goes_on as carries_on, is_outside, stands, width};

/// What a text is cut at.
#[derive(Clone, Copy, PartialEq, Eq)]
pub enum Mark {
    /// This octet.
    Octet(u8),
    /// This octet, outside of quoted strings and of angle brackets.
    Outside(u8),
    /// White space: an octet that is a space, a tab, or of a line's end.
    Blank,
    /// The end of a header line: CR LF that no space or tab follows (RFC 3261, 7.3.1).
    LineEnd,
    /// The end of the header lines: an empty line.
    HeadEnd,
}

/// Where an octet stands.
#[derive(Clone, Copy, PartialEq, Eq)]
pub(crate) enum Quoting {
    /// Outside of quoted strings and of angle brackets.
    Outside,
    /// In a quoted string.
    Quoted,
    /// In a quoted string, after a backslash.
    Escaped,
    /// In angle brackets.
    Angled,
}

impl Quoting {
    /// Where the next octet stands.
    pub(crate) fn after(self, octet: u8) -> Self
        ensures { result ≡ after self octet }
    {
        match self {
            Quoting::Outside => {
                if octet == b'"' {
                    Quoting::Quoted
                } else if octet == b'<' {
                    Quoting::Angled
                } else {
                    Quoting::Outside
                }
            }
            Quoting::Quoted => {
                if octet == b'\\' {
                    Quoting::Escaped
                } else if octet == b'"' {
                    Quoting::Outside
                } else {
                    Quoting::Quoted
                }
            }
            Quoting::Escaped => Quoting::Quoted,
            Quoting::Angled => {
                if octet == b'>' {
                    Quoting::Outside
                } else {
                    Quoting::Angled
                }
            }
        }
    }

    /// Whether it is outside.
    fn is_outside(self) -> bool
        ensures { result ≡ is_outside self }
    {
        match self {
            Quoting::Outside => true,
            Quoting::Quoted | Quoting::Escaped | Quoting::Angled => false,
        }
    }
}

impl Mark {
    /// Whether it stands at the front of a text whose first octet stands so.
    pub(crate) fn stands(self, text: &[u8], quoting: Quoting) -> bool
        ensures value { result ≡ stands self quoting text.now }
        ensures room { IsTrue result → width self ≤ length text.now }
    {
        match self {
            Mark::Octet(octet) => begins_with(text, octet),
            Mark::Outside(octet) => quoting.is_outside() && begins_with(text, octet),
            Mark::Blank => begins_blank(text),
            Mark::LineEnd => text.starts_with(b"\r\n") && !goes_on(&text[2..]),
            Mark::HeadEnd => text.starts_with(b"\r\n\r\n"),
        }
    }

    /// How many octets it has.
    pub(crate) fn width(self) -> usize
        ensures { result ≡ width self }
    {
        match self {
            Mark::Octet(_) | Mark::Outside(_) | Mark::Blank => 1,
            Mark::LineEnd => 2,
            Mark::HeadEnd => 4,
        }
    }
}

/// Whether a text begins with this octet.
fn begins_with(text: &[u8], octet: u8) -> bool
    ensures value { result ≡ first_is (λ first. first == octet) text.now }
    ensures room { IsTrue result → 1 ≤ length text.now }
{
    match text.first() {
        Some(first) => *first == octet,
        None => false,
    }
}

/// Whether a text begins with white space.
fn begins_blank(text: &[u8]) -> bool
    ensures value { result ≡ first_is is_ascii_whitespace text.now }
    ensures room { IsTrue result → 1 ≤ length text.now }
{
    match text.first() {
        Some(first) => first.is_ascii_whitespace(),
        None => false,
    }
}

/// Whether a text goes on with the line before it: it begins with a space or a tab.
fn goes_on(text: &[u8]) -> bool
    ensures { result ≡ carries_on text.now }
{
    match text.first() {
        Some(first) => *first == b' ' || *first == b'\t',
        None => false,
    }
}
