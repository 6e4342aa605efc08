//! The user agent: calls as RFC 3665 and T.38, annex D, have them, message by message.
mod calls;
mod other_end;
mod playing;
