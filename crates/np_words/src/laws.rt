//! Laws of the words.

ghost use Rattle.np_words.specs.Laws.{TakesWords};

/// MODE and FILE are taken where they begin with no hyphen, and so is a SECOND or `--budget` with a number behind them.
pub fn law_taken()
    ensures { TakesWords }
{}
