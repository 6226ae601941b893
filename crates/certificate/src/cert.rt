ghost use Rattle.certificate.specs.Facts.{certificate_prop};
ghost use Rattle.certificate.specs.Grammar.{IsCertificate};
ghost use Rattle.certificate.specs.Rows.{certificate_from};

/// A certificate: the budget, and rows about functions, stretches and points of the code, of which each kind ascends.
#[derive(Drop)]
pub struct Cert {
    pub budget: u64,
    pub functions: Vec<FunctionRow>,
    pub stretches: Vec<StretchRow>,
    pub points: Vec<PointRow>,
    pub ghost ruled: { IsCertificate (certificate_from budget functions.items stretches.items points.items) } by { certificate_prop (certificate_from budget functions.items stretches.items points.items) },
}

/// A function's code, from `start` up to and without `end`. What it calls has a smaller height.
#[derive(Drop)]
pub struct FunctionRow {
    pub start: u16,
    pub end: u16,
    pub height: u64,
    /// None where the function has heads of its own.
    pub flat: Option<FlatPart>,
}

/// What a call of a function without heads costs behind the call itself, and the words that it may write.
#[derive(Drop)]
pub struct FlatPart {
    pub cost: u64,
    pub writes: Vec<Span>,
}

/// What runs from a head up to the next one. `turns` is 0, or the number that a loop's counter begins with.
#[derive(Clone, Copy, PartialEq, Eq)]
pub struct StretchRow {
    pub head: u16,
    pub chain: u64,
    pub turns: u64,
    pub cost: u64,
}

/// What holds in a stretch, or in a function without heads, wherever the code comes to an address.
#[derive(Drop)]
pub struct PointRow {
    pub address: u16,
    /// The head of the stretch, or the start of the function without heads.
    pub stretch: u16,
    /// At most so much energy is spent.
    pub spent: Affine,
    pub facts: Vec<Fact>,
    /// Words of SRAM that the stretch has written.
    pub fresh: Vec<Span>,
}

/// The words from `lo` to `hi`, both included.
#[derive(Clone, Copy, PartialEq, Eq)]
pub struct Span {
    pub lo: u16,
    pub hi: u16,
}

/// A number that depends on registers and words.
#[derive(Drop)]
pub struct Affine {
    pub base: i64,
    pub terms: Vec<Term>,
}

/// `factor` times a value, taken away where `minus` is set.
#[derive(Clone, Copy, PartialEq, Eq)]
pub struct Term {
    pub minus: bool,
    pub factor: u64,
    pub of: Slot,
}

/// A value lies from `least` to `greatest`, and is even where `even` is set.
#[derive(Clone, Copy, PartialEq, Eq)]
pub struct Fact {
    pub of: Slot,
    pub least: u64,
    pub greatest: u64,
    pub even: bool,
}

/// What has a value: a register of 4 to 15, or the word at an even address of SRAM or data.
#[derive(Clone, Copy, PartialEq, Eq)]
pub enum Slot {
    Reg(u8),
    Word(u16),
}
