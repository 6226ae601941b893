ghost use Rattle.std.specs.Prelude.{◌≡◌, ◌⊎◌, ℕ, List};
ghost use Rattle.std.specs.List.{All};
ghost use Rattle.c_lex.specs.Cut.{Cut, Faulty, IsIn};
ghost use Rattle.c_lex.specs.declared.token.Token.{Token};
ghost use Rattle.c_lex.specs.declared.token.LexFault.{LexFault};

/// A text is cut into exactly one list of tokens, or has exactly one first fault, and never both.
pub fn one_cut()
    ensures some { (text : List ℕ) → ((tokens : List Token) × Cut text tokens) ⊎ ((fault : LexFault) × Faulty text fault) }
    ensures tokens { (text : List ℕ) (first second : List Token) → Cut text first → Cut text second → first ≡ second }
    ensures fault { (text : List ℕ) (first second : LexFault) → Faulty text first → Faulty text second → first ≡ second }
    ensures either { (text : List ℕ) (tokens : List Token) (fault : LexFault) → Cut text tokens → Faulty text fault → ⊥ }
{}

/// At each token of a text no longer token begins.
pub fn longest_tokens()
    ensures { (text : List ℕ) (tokens : List Token) → Cut text tokens → All (λ token. IsIn text token) tokens }
{}
