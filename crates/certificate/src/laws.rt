//! Laws of the text.
ghost use Rattle.std.specs.Prelude.{◌≡◌, ◌↔◌, ◌++◌, ℕ, List, None, Some};
ghost use Rattle.certificate.specs.Grammar.{IsCertificate, IsRow};
ghost use Rattle.certificate.specs.Line.{Line, rows_of};
ghost use Rattle.certificate.specs.Reading.{IsGoing, behind_rows, fault_at_end, fed, nothing_read, read_row};
ghost use Rattle.certificate.specs.Rows.{Certificate};
ghost use Rattle.certificate.specs.Spelling.{row_text};
ghost use Rattle.certificate.specs.Texts.{BadLineAt, Holds};

/// What is read of two pieces, one behind the other, is what is read of both at once.
pub fn cut_anywhere()
    ensures { (front piece : List ℕ) → fed nothing_read (front ++ piece) ≡ behind_rows (fed nothing_read front).0 (fed (fed nothing_read front).1 piece) }
{}

/// The rows read so far are the first of the certificate that the whole text spells; and while no line was bad, they are
/// the first of some certificate, so each of them stands in one.
pub fn rows_so_far_are_first()
    ensures whole { (front more : List ℕ) (c : Certificate) → Holds (front ++ more) c → (rest : List Line) × ((fed nothing_read front).0 ++ rest ≡ rows_of c) }
    ensures some { (front : List ℕ) → IsGoing (fed nothing_read front).1 → (c : Certificate) × (rest : List Line) × IsCertificate c × ((fed nothing_read front).0 ++ rest ≡ rows_of c) }
{}

/// A line is read as a row exactly where it is the text of that row and the row stands in the grammar.
pub fn rows_have_one_text()
    ensures { (text : List ℕ) (row : Line) → (read_row text ≡ Some row) ↔ (IsRow row × (text ≡ row_text row)) }
{}

/// The rows read of a certificate's text are the certificate's, and nothing is missing at its end; where nothing is
/// missing at a text's end, it is a certificate's; and what is at fault at the end is the text's first bad line.
pub fn texts_are_read_exactly()
    ensures whole { (text : List ℕ) (c : Certificate) → Holds text c → ((fed nothing_read text).0 ≡ rows_of c) × (fault_at_end (fed nothing_read text).1 ≡ None) }
    ensures only { (text : List ℕ) → fault_at_end (fed nothing_read text).1 ≡ None → (c : Certificate) × Holds text c × ((fed nothing_read text).0 ≡ rows_of c) }
    ensures bad { (text : List ℕ) (at : ℕ) → (fault_at_end (fed nothing_read text).1 ≡ Some at) ↔ BadLineAt text at }
{}

/// A text is one certificate's at most, has one first bad line at most, and not both.
pub fn one_answer()
    ensures certificate { (text : List ℕ) (c other : Certificate) → Holds text c → Holds text other → c ≡ other }
    ensures line { (text : List ℕ) (at other : ℕ) → BadLineAt text at → BadLineAt text other → at ≡ other }
    ensures apart { (text : List ℕ) (c : Certificate) (at : ℕ) → Holds text c → BadLineAt text at → ⊥ }
{}
