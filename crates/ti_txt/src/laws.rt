ghost use Rattle.std.specs.Prelude.{◌≡◌, ◌⊎◌, ℕ, List};
ghost use Rattle.ti_txt.specs.Grammar.{Faulty, Holds};
ghost use Rattle.ti_txt.specs.Image.{Block};
ghost use Rattle.ti_txt.specs.declared.fault.TxtFault.{TxtFault};

/// A text holds one image at most, has one fault at most, and not both.
pub fn one_answer()
    ensures image { (text : List ℕ) (blocks others : List Block) → Holds text blocks → Holds text others → blocks ≡ others }
    ensures fault { (text : List ℕ) (fault other : TxtFault) → Faulty text fault → Faulty text other → fault ≡ other }
    ensures apart { (text : List ℕ) (blocks : List Block) (fault : TxtFault) → Holds text blocks → Faulty text fault → ⊥ }
{}

/// Each text holds an image or has a fault.
pub fn some_answer()
    ensures { (text : List ℕ) → ((blocks : List Block) × Holds text blocks) ⊎ ((fault : TxtFault) × Faulty text fault) }
{}
