//! What is proved of the text of changes. The functions do nothing: their contracts are the laws, which a caller's proof can cite.
ghost use Rattle.cga_obj.specs.DeltaLaws.{ReadersFollow, RowsAreRead, TextHasLines, TextTellsInstance};

/// No two instances have one text.
pub fn text_tells_instance()
    ensures { TextTellsInstance }
{}

/// The text of a change is its lines, one after the other. Each change that a program has is named (`are_named`).
pub fn text_has_lines()
    ensures { TextHasLines }
{}

/// Whoever applies the lines of a change in their order never takes away what isn't there, and has then what is drawn.
pub fn readers_follow()
    ensures { ReadersFollow }
{}

/// What a reader does with a few lines, worked out by hand.
pub fn rows_are_read()
    ensures { RowsAreRead }
{}
