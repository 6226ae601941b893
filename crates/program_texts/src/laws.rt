ghost use Rattle.std.specs.Prelude.{ℕ, List};
ghost use Rattle.program_texts.specs.Laws.{HasOneReading};

/// A text is that of at most one program, has at most one first fault, and never both.
pub fn one_reading()
    ensures { (text : List ℕ) → HasOneReading text }
{}
