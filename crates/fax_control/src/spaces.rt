//! Texts cut at their first space.
ghost use Rattle.std.specs.Prelude.{◌≡◌, IfSome, IfNone};
ghost use Rattle.fax_control.specs.Options.{text_of};
ghost use Rattle.fax_control.specs.Words.{HasNoSpace, led, spaced};

/// A text up to its first space, and what follows that.
pub fn cut(text: &str) -> Option<(&str, &str)>
    ensures some { IfSome result
        (λ parts. (text.now ≡ spaced parts.0.now parts.1.now) × HasNoSpace parts.0.now) }
    ensures none { IfNone result (HasNoSpace text.now) }
{
    text.split_once(' ')
}

/// The first word of a text, and what follows it, if anything does.
pub fn first_word(text: &str) -> (&str, Option<&str>)
    ensures said { text.now ≡ led result.0.now (text_of result.1) }
    ensures word { HasNoSpace result.0.now }
{
    match cut(text) {
        None => (text, None),
        Some((first, rest)) => (first, Some(rest)),
    }
}
