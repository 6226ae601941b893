//! Why what the files of a job hold is refused. Each refusal has its code and its line here, and stands in the job that gives it.
ghost use Rattle.std.specs.Prelude.{◌≡◌, IfOk, string_bytes};
ghost use Rattle.job_files.specs.Refusals.{board_refused, budget_too_small, certificate_refused, image_refused, program_refused, program_text, refusal_code, refusal_line, refusal_of};

use crate::digits::hex_digit;
use crate::operations::operation_name;
use crate::rules::rule_name;
use base_io::Place;
use cert_rules::Rule;
use flow_graph::OpKind;
use std::alloc::{AllocError, Global};

/// Why a text is no program: the names of `program_texts::ProgramRefusal`.
#[derive(Clone, Copy, Debug, PartialEq, Eq)]
pub enum ProgramRefusal {
    BadByte,
    BadLiteral,
    TooBig,
    OpenComment,
    HashLine,
    Unexpected,
    NotInProfile,
    TooDeep,
    Unknown,
    Redeclared,
    WrongArgs,
    NotConst,
    BadArray,
    BadAssign,
    NoMain,
    Recursion,
    TooMany,
    TooManyOps,
}

/// Why a board file is refused: the names of `board_table::BoardFault` without their keys.
#[derive(Clone, Copy, Debug, PartialEq, Eq)]
pub enum BoardRefusal {
    NotToml,
    Missing,
    OutOfRange,
    Extra,
}

/// Why the text of an image is refused: the names of `ti_txt::TxtFault` without their places.
#[derive(Clone, Copy, Debug, PartialEq, Eq)]
pub enum ImageRefusal {
    BadByte,
    Overlap,
    PastEnd,
    Unmapped,
    NoEnd,
}

/// Why what the files of a job hold is refused.
#[derive(Debug, Drop)]
pub enum Refusal {
    /// The text is no program; the first fault stands at `place`.
    Program {
        fault: ProgramRefusal,
        place: Place,
    },
    /// The program is of a form that isn't built yet.
    FormNotBuilt,
    /// The board file is no board; `key` is the dotted path of the first key at fault, and empty for NotToml.
    Board {
        fault: BoardRefusal,
        key: String,
    },
    /// The text is no image; `at` is an offset in bytes.
    Image {
        fault: ImageRefusal,
        at: usize,
    },
    /// The input, supply or certificate text isn't in its grammar; `at` is an offset in bytes.
    Text {
        name: String,
        at: usize,
    },
    /// The objects of the program need so many bytes, and have room for fewer.
    DataTooLarge {
        need: u32,
        room: u32,
    },
    /// So many calls nest below `main`, and there is room for fewer.
    CallsTooDeep {
        need: u32,
        room: u32,
    },
    /// An operation, which comes from `place`, needs so many energy units with a wake and a sleep, and the board's budget is less.
    BudgetTooSmall {
        op: OpKind,
        place: Place,
        need: u64,
        budget: u64,
    },
    /// The code of the program needs so many bytes, and has room for fewer.
    CodeTooLarge {
        need: u32,
        room: u32,
    },
    /// The image, with its certificate, breaks a rule at this address; these are the two values that don't fit.
    Certificate {
        rule: Rule,
        address: u16,
        left: i128,
        right: i128,
    },
}

impl Refusal {
    /// The exit status of the program.
    pub fn code(&self) -> u8
        ensures { result ≡ refusal_code (refusal_of self.now) }
    {
        match self {
            Refusal::Program { .. } => 6,
            Refusal::FormNotBuilt => 30,
            Refusal::Board { .. } => 7,
            Refusal::Image { .. } => 11,
            Refusal::Text { .. } => 13,
            Refusal::DataTooLarge { .. } | Refusal::CallsTooDeep { .. } => 9,
            Refusal::BudgetTooSmall { .. } => 8,
            Refusal::CodeTooLarge { .. } => 10,
            Refusal::Certificate { .. } => 12,
        }
    }
}

/// The line that tells a refusal, ended by a line feed.
pub fn refusal_line(alloc: Global, refusal: &Refusal) -> Result<String, AllocError>
    ensures { IfOk result (λ line. string_bytes line ≡ refusal_line (refusal_of refusal.now)) }
{
    match refusal {
        Refusal::Program { fault, place } => program_line(alloc, *fault, *place),
        Refusal::FormNotBuilt => String::from_str(alloc, "not built: program\n"),
        Refusal::Board { fault, key } => board_line(alloc, *fault, key.as_str()),
        Refusal::Image { fault, at } => image_line(alloc, *fault, *at),
        Refusal::Text { name, at } => format!(in alloc; "text refused: {name} at {at}\n"),
        Refusal::DataTooLarge { need, room } => {
            format!(in alloc; "data too large: {need} of {room}\n")
        }
        Refusal::CallsTooDeep { need, room } => {
            format!(in alloc; "calls too deep: {need} of {room}\n")
        }
        Refusal::BudgetTooSmall {
            op,
            place,
            need,
            budget,
        } => budget_line(alloc, *op, *place, *need, *budget),
        Refusal::CodeTooLarge { need, room } => {
            format!(in alloc; "code too large: {need} of {room}\n")
        }
        Refusal::Certificate {
            rule,
            address,
            left,
            right,
        } => certificate_line(alloc, *rule, *address, *left, *right),
    }
}

// A refusal as its variant is spelt.
fn refusal_name(fault: ProgramRefusal) -> &'static str
    ensures { result.now ≡ program_text fault }
{
    match fault {
        ProgramRefusal::BadByte => "BadByte",
        ProgramRefusal::BadLiteral => "BadLiteral",
        ProgramRefusal::TooBig => "TooBig",
        ProgramRefusal::OpenComment => "OpenComment",
        ProgramRefusal::HashLine => "HashLine",
        ProgramRefusal::Unexpected => "Unexpected",
        ProgramRefusal::NotInProfile => "NotInProfile",
        ProgramRefusal::TooDeep => "TooDeep",
        ProgramRefusal::Unknown => "Unknown",
        ProgramRefusal::Redeclared => "Redeclared",
        ProgramRefusal::WrongArgs => "WrongArgs",
        ProgramRefusal::NotConst => "NotConst",
        ProgramRefusal::BadArray => "BadArray",
        ProgramRefusal::BadAssign => "BadAssign",
        ProgramRefusal::NoMain => "NoMain",
        ProgramRefusal::Recursion => "Recursion",
        ProgramRefusal::TooMany => "TooMany",
        ProgramRefusal::TooManyOps => "TooManyOps",
    }
}

// The line of a refused program.
fn program_line(alloc: Global, fault: ProgramRefusal, place: Place) -> Result<String, AllocError>
    ensures { IfOk result (λ line. string_bytes line ≡ refusal_line (program_refused fault place)) }
{
    let name = refusal_name(fault);
    let Place { line, column } = place;
    format!(in alloc; "program refused: {name} at {line}:{column}\n")
}

// The line of an operation that needs more than the budget.
fn budget_line(
    alloc: Global,
    op: OpKind,
    place: Place,
    need: u64,
    budget: u64,
) -> Result<String, AllocError>
    ensures { IfOk result (λ line. string_bytes line ≡ refusal_line (budget_too_small op place need budget)) }
{
    let name = operation_name(op);
    let Place { line, column } = place;
    format!(in alloc; "budget too small: {name} at {line}:{column} needs {need} of {budget}\n")
}

// The line of a refused certificate.
fn certificate_line(
    alloc: Global,
    rule: Rule,
    address: u16,
    left: i128,
    right: i128,
) -> Result<String, AllocError>
    ensures { IfOk result (λ line. string_bytes line ≡ refusal_line (certificate_refused rule address left right)) }
{
    let name = rule_name(rule);
    let a = hex_digit(address / 4096);
    let b = hex_digit(address / 256 % 16);
    let c = hex_digit(address / 16 % 16);
    let d = hex_digit(address % 16);
    format!(in alloc; "certificate refused: {name} at {a}{b}{c}{d}: {left} against {right}\n")
}

// The line of a refused image.
fn image_line(alloc: Global, fault: ImageRefusal, at: usize) -> Result<String, AllocError>
    ensures { IfOk result (λ line. string_bytes line ≡ refusal_line (image_refused fault at)) }
{
    match fault {
        ImageRefusal::BadByte => format!(in alloc; "image refused: BadByte at {at}\n"),
        ImageRefusal::Overlap => format!(in alloc; "image refused: Overlap at {at}\n"),
        ImageRefusal::PastEnd => format!(in alloc; "image refused: PastEnd at {at}\n"),
        ImageRefusal::Unmapped => format!(in alloc; "image refused: Unmapped at {at}\n"),
        ImageRefusal::NoEnd => format!(in alloc; "image refused: NoEnd at {at}\n"),
    }
}

// The line of a refused board.
fn board_line(alloc: Global, fault: BoardRefusal, key: &str) -> Result<String, AllocError>
    ensures { IfOk result (λ line. string_bytes line ≡ refusal_line (board_refused fault key.now)) }
{
    match fault {
        BoardRefusal::NotToml => String::from_str(alloc, "board refused: NotToml\n"),
        BoardRefusal::Missing => format!(in alloc; "board refused: Missing {key}\n"),
        BoardRefusal::OutOfRange => format!(in alloc; "board refused: OutOfRange {key}\n"),
        BoardRefusal::Extra => format!(in alloc; "board refused: Extra {key}\n"),
    }
}
