//! The header fields that are looked for.
ghost use Rattle.std.specs.Prelude.{◌≡◌};
ghost use Rattle.fax_sip.specs.Names.{compact, is_named as stands_for, long};

use crate::text::same_word;

/// A header field that is looked for (RFC 3261, 20; RFC 4028).
#[derive(Clone, Copy, PartialEq, Eq, Debug)]
pub enum Name {
    /// `Via`, or `v`.
    Via,
    /// `From`, or `f`.
    From,
    /// `To`, or `t`.
    To,
    /// `Call-ID`, or `i`.
    CallId,
    /// `CSeq`.
    CSeq,
    /// `Contact`, or `m`.
    Contact,
    /// `Record-Route`.
    RecordRoute,
    /// `Route`.
    Route,
    /// `Max-Forwards`.
    MaxForwards,
    /// `Require`.
    Require,
    /// `Supported`, or `k`.
    Supported,
    /// `Allow`.
    Allow,
    /// `Content-Type`, or `c`.
    ContentType,
    /// `Content-Length`, or `l`.
    ContentLength,
    /// `Content-Encoding`, or `e`.
    ContentEncoding,
    /// `Expires`.
    Expires,
    /// `Min-Expires`.
    MinExpires,
    /// `Session-Expires`, or `x`.
    SessionExpires,
    /// `Min-SE`.
    MinSe,
    /// `Retry-After`.
    RetryAfter,
    /// `WWW-Authenticate`.
    WwwAuthenticate,
    /// `Proxy-Authenticate`.
    ProxyAuthenticate,
    /// `Authorization`.
    Authorization,
    /// `Proxy-Authorization`.
    ProxyAuthorization,
}

impl Name {
    /// Its name in full.
    pub fn long(self) -> &'static str
        ensures { result.now ≡ long self }
    {
        match self {
            Name::Via => "Via",
            Name::From => "From",
            Name::To => "To",
            Name::CallId => "Call-ID",
            Name::CSeq => "CSeq",
            Name::Contact => "Contact",
            Name::RecordRoute => "Record-Route",
            Name::Route => "Route",
            Name::MaxForwards => "Max-Forwards",
            Name::Require => "Require",
            Name::Supported => "Supported",
            Name::Allow => "Allow",
            Name::ContentType => "Content-Type",
            Name::ContentLength => "Content-Length",
            Name::ContentEncoding => "Content-Encoding",
            Name::Expires => "Expires",
            Name::MinExpires => "Min-Expires",
            Name::SessionExpires => "Session-Expires",
            Name::MinSe => "Min-SE",
            Name::RetryAfter => "Retry-After",
            Name::WwwAuthenticate => "WWW-Authenticate",
            Name::ProxyAuthenticate => "Proxy-Authenticate",
            Name::Authorization => "Authorization",
            Name::ProxyAuthorization => "Proxy-Authorization",
        }
    }

    /// Its compact form, or its name where it has none.
    fn compact(self) -> &'static str
        ensures { result.now ≡ compact self }
    {
        match self {
            Name::Via => "v",
            Name::From => "f",
            Name::To => "t",
            Name::CallId => "i",
            Name::CSeq => "CSeq",
            Name::Contact => "m",
            Name::RecordRoute => "Record-Route",
            Name::Route => "Route",
            Name::MaxForwards => "Max-Forwards",
            Name::Require => "Require",
            Name::Supported => "k",
            Name::Allow => "Allow",
            Name::ContentType => "c",
            Name::ContentLength => "l",
            Name::ContentEncoding => "e",
            Name::Expires => "Expires",
            Name::MinExpires => "Min-Expires",
            Name::SessionExpires => "x",
            Name::MinSe => "Min-SE",
            Name::RetryAfter => "Retry-After",
            Name::WwwAuthenticate => "WWW-Authenticate",
            Name::ProxyAuthenticate => "Proxy-Authenticate",
            Name::Authorization => "Authorization",
            Name::ProxyAuthorization => "Proxy-Authorization",
        }
    }

    /// Whether a word is this name, or its compact form, in either case.
    pub(crate) fn is_named(self, word: &[u8]) -> bool
        ensures { result ≡ stands_for self word.now }
    {
        same_word(word, self.long().as_bytes()) || same_word(word, self.compact().as_bytes())
    }
}
