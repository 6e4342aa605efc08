//! Laws of the definitions: functions that do nothing, each of whose contracts is a theorem.
ghost use Rattle.fax_http.specs.Laws.{TextIsOnlyText};

/// A text from outside is shown as it is, whatever it is, and nothing in it is taken for markup.
pub fn text_is_only_text()
    ensures { TextIsOnlyText }
{}
