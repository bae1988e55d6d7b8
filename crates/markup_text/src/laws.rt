ghost use Rattle.markup_text.specs.Escapes.{StaysTame};
ghost use Rattle.markup_text.specs.Formed.{MarkupIsFormed};

/// Of any bytes, nothing that is written opens or closes a tag or a value, and all of it can be printed.
pub fn law_escaped()
    ensures { StaysTame }
{}

/// The text of markup is formed.
pub fn law_formed()
    ensures { MarkupIsFormed }
{}
