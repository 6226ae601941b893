ghost use Rattle.std.specs.Prelude.{◌≡◌, ℕ, List};
ghost use Rattle.c_parse.specs.Grammar.{Word, Nested, bare, Begins, Parses};
ghost use Rattle.c_parse.specs.Grouping.{IsOperation, Grouped};
ghost use Rattle.c_parse.specs.Precedence.{tree_of};
ghost use Rattle.c_parse.specs.declared.raw.Raw.{Raw};

/// The tokens of a text have at most one tree.
pub fn one_tree()
    ensures { (words : List Word) (first second : Raw) → Parses words first → Parses words second → first ≡ second }
{}

/// Operands with operators between them have a tree, which groups them by the levels of C11 6.5.5
/// to 6.5.14.
pub fn groups_by_level()
    ensures { (parts : List Raw) → IsOperation parts → Grouped 0 parts (tree_of parts) }
{}

/// They have no other.
pub fn one_grouping()
    ensures { (parts : List Raw) (tree : Raw) → Grouped 0 parts tree → tree ≡ tree_of parts }
{}

/// Tokens with which a text begins stand at the same levels in each text that begins with them.
pub fn one_level()
    ensures { (front other : List Nested) → Begins front → Begins other → bare front ≡ bare other → front ≡ other }
{}
