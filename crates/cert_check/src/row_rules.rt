//! The rules that look at the rows, and at fixed places of an image.
ghost use Rattle.std.specs.Prelude.{◌≡◌, ◌+◌, ◌≤◌, []};
ghost use Rattle.ti_txt.specs.Bytes.{blocks_of};
ghost use Rattle.certificate.specs.Rows.{function_of};
ghost use Rattle.cert_rules.specs.Faults.{first_of};
ghost use Rattle.cert_rules.specs.Words.{head_words as head_words_lem, shown as shown_lem};
ghost use Rattle.cert_rules.specs.Tables.{board_fault as board_fault_lem, boot_fault as boot_fault_lem, budget_fault as budget_fault_lem, code_end as code_end_lem, first_start as first_start_lem, function_fault as function_fault_lem, functions_fault as functions_fault_lem, head_fault as head_fault_lem, is_number, others_fault as others_fault_lem, start_fault as start_fault_lem, tables_fault};
ghost use Rattle.cert_state.specs.Shown.{blocks_in, functions_in, shown_fault};

use board_table::Board;
use cert_rules::Rule;
use cert_state::{Fault, is_head, is_split, lies_in, unless, word_fault, words_fault};
use certificate::{FunctionRow, StretchRow};
use ti_txt::{Image, Segment};

// CMP #1,&GATE; JNE f; MOV &SAVED_SP,SP; MOV &RESUME,PC; f: MOV #4,&TRAP
const BOOT: [u16; 9] = [
    0x9392, 0x1800, 0x2004, 0x4211, 0x1804, 0x4210, 0x1802, 0x42A2, 0x0F06,
];

fn board_fault(budget: u64, b: &Board) -> Option<Fault>
    ensures { shown_fault result ≡ board_fault_lem budget b.now }
{
    unless(
        budget == b.budget,
        Rule::Board,
        0,
        budget as i128,
        b.budget as i128,
    )
}

// ---- Boot

fn first_start(functions: &[FunctionRow]) -> u16
    ensures { result ≡ first_start_lem (functions_in functions.now) }
{
    match functions {
        [] => 0,
        [first, ..] => first.start,
    }
}

fn boot_fault(segments: &[Segment], functions: &[FunctionRow]) -> Option<Fault>
    ensures { shown_fault result ≡ boot_fault_lem (blocks_in segments.now) (functions_in functions.now) }
{
    if let Some(fault) = words_fault(segments, Rule::Boot, 0x8000, &BOOT) {
        return Some(fault);
    }
    if let Some(fault) = word_fault(segments, Rule::Boot, 0xFFFE, 0x8000) {
        return Some(fault);
    }
    if let Some(fault) = word_fault(segments, Rule::Boot, 0x1800, 1) {
        return Some(fault);
    }
    let resume = first_start(functions) as u32 + 18;
    if let Some(fault) = word_fault(segments, Rule::Boot, 0x1802, resume) {
        return Some(fault);
    }
    if let Some(fault) = word_fault(segments, Rule::Boot, 0x1804, 0x8000) {
        return Some(fault);
    }
    None
}

// ---- Functions

// one function, which has to begin here
fn function_fault(begin: u16, f: &FunctionRow) -> Option<Fault>
    ensures { shown_fault result ≡ function_fault_lem begin (function_of f.now) }
{
    let start = f.start as i128;
    if let Some(fault) = unless(f.start == begin, Rule::Order, f.start, start, begin as i128) {
        return Some(fault);
    }
    if let Some(fault) = unless(f.start < f.end, Rule::Order, f.start, start, f.end as i128) {
        return Some(fault);
    }
    let height = f.height as i128;
    if let Some(fault) = unless(1 <= f.height, Rule::Order, f.start, height, 1) {
        return Some(fault);
    }
    if let Some(fault) = unless(f.height <= 65, Rule::Order, f.start, height, 65) {
        return Some(fault);
    }
    None
}

fn is_end(end: Option<usize>, at: u16) -> bool
    ensures { result ≡ is_number end at }
{
    match end {
        Some(end) => end == at as usize,
        None => false,
    }
}

fn shown_end(end: Option<usize>) -> i128
    ensures { result ≡ shown_lem end }
{
    match end {
        Some(end) => end as i128,
        None => -1,
    }
}

fn last_fault(end: Option<usize>, f: &FunctionRow) -> Option<Fault>
    ensures { shown_fault result ≡ others_fault_lem end (function_of f.now) [] }
{
    unless(
        is_end(end, f.end),
        Rule::Order,
        f.start,
        f.end as i128,
        shown_end(end),
    )
}

// the functions behind the first, up to the end of the code
fn others_fault(end: Option<usize>, first: &FunctionRow, others: &[FunctionRow]) -> Option<Fault>
    ensures { shown_fault result ≡ others_fault_lem end (function_of first.now) (functions_in others.now) }
{
    let mut last = first;
    let mut rest = others;
    while let [next, after @ ..] = rest {
        if let Some(fault) = function_fault(last.end, next) {
            return Some(fault);
        }
        last = next;
        rest = after;
    }
    last_fault(end, last)
}

fn functions_fault(end: Option<usize>, functions: &[FunctionRow]) -> Option<Fault>
    ensures { shown_fault result ≡ functions_fault_lem end (functions_in functions.now) }
{
    let [first, others @ ..] = functions else {
        return None;
    };
    if let Some(fault) = function_fault(0x8012, first) {
        return Some(fault);
    }
    if let Some(fault) = unless(is_split(first), Rule::Order, first.start, 1, 0) {
        return Some(fault);
    }
    if let Some(fault) = others_fault(end, first, others) {
        return Some(fault);
    }
    None
}

// the first address behind the segment that holds the byte at 0x8000
fn code_end(segments: &[Segment]) -> Option<usize>
    ensures { result ≡ code_end_lem (blocks_in segments.now) }
{
    let mut rest = segments;
    while let [first, after @ ..] = rest {
        let end = first.start as usize + first.bytes.len();
        if first.start <= 0x8000 && 0x8000 < end {
            return Some(end);
        }
        rest = after;
    }
    None
}

// ---- Heads

// MOV SP,&SAVED_SP; MOV #head + 18,&RESUME; MOV #1,&GATE; BIS #16,SR; MOV #0,&GATE
fn head_words(head: u16) -> [u16; 11]
    requires { head + 18 ≤ 65535 }
    ensures { result ≡ head_words_lem head }
{
    [
        0x4182,
        0x1804,
        0x40B2,
        head + 18,
        0x1802,
        0x4392,
        0x1800,
        0xD032,
        0x0010,
        0x4382,
        0x1800,
    ]
}

fn head_fault(segments: &[Segment], functions: &[FunctionRow], s: &StretchRow) -> Option<Fault>
    ensures { shown_fault result ≡ head_fault_lem (blocks_in segments.now) (functions_in functions.now) s.now }
{
    if !lies_in(functions, s.head) {
        return unless(false, Rule::Head, s.head, s.head as i128, 0);
    }
    if let Some(fault) = words_fault(segments, Rule::Head, s.head, &head_words(s.head)) {
        return Some(fault);
    }
    None
}

fn heads_fault(
    segments: &[Segment],
    functions: &[FunctionRow],
    stretches: &[StretchRow],
) -> Option<Fault>
    ensures { shown_fault result ≡ first_of (head_fault_lem (blocks_in segments.now) (functions_in functions.now)) stretches.now }
{
    let mut rest = stretches;
    while let [first, after @ ..] = rest {
        if let Some(fault) = head_fault(segments, functions, first) {
            return Some(fault);
        }
        rest = after;
    }
    None
}

// a function that isn't flat begins with a head
fn start_fault(stretches: &[StretchRow], f: &FunctionRow) -> Option<Fault>
    ensures { shown_fault result ≡ start_fault_lem stretches.now (function_of f.now) }
{
    let holds = !is_split(f) || is_head(stretches, f.start);
    unless(holds, Rule::Head, f.start, f.start as i128, 0)
}

fn starts_fault(stretches: &[StretchRow], functions: &[FunctionRow]) -> Option<Fault>
    ensures { shown_fault result ≡ first_of (start_fault_lem stretches.now) (functions_in functions.now) }
{
    let mut rest = functions;
    while let [first, after @ ..] = rest {
        if let Some(fault) = start_fault(stretches, first) {
            return Some(fault);
        }
        rest = after;
    }
    None
}

// ---- Costs

fn budget_fault(budget: u64, s: &StretchRow) -> Option<Fault>
    ensures { shown_fault result ≡ budget_fault_lem budget s.now }
{
    unless(
        s.cost <= budget,
        Rule::Budget,
        s.head,
        s.cost as i128,
        budget as i128,
    )
}

fn budgets_fault(budget: u64, stretches: &[StretchRow]) -> Option<Fault>
    ensures { shown_fault result ≡ first_of (budget_fault_lem budget) stretches.now }
{
    let mut rest = stretches;
    while let [first, after @ ..] = rest {
        if let Some(fault) = budget_fault(budget, first) {
            return Some(fault);
        }
        rest = after;
    }
    None
}

/// The first rule on the rows, but those of points, that an image and its certificate break. Energy is in the board's units.
pub fn first_fault(
    img: &Image,
    budget: u64,
    functions: &[FunctionRow],
    stretches: &[StretchRow],
    b: &Board,
) -> Option<Fault>
    ensures { shown_fault result ≡ tables_fault (blocks_of img.now) budget (functions_in functions.now) stretches.now b.now }
{
    if let Some(fault) = board_fault(budget, b) {
        return Some(fault);
    }
    if let Some(fault) = boot_fault(&img.segments, functions) {
        return Some(fault);
    }
    if let Some(fault) = functions_fault(code_end(&img.segments), functions) {
        return Some(fault);
    }
    if let Some(fault) = heads_fault(&img.segments, functions, stretches) {
        return Some(fault);
    }
    if let Some(fault) = starts_fault(stretches, functions) {
        return Some(fault);
    }
    if let Some(fault) = budgets_fault(budget, stretches) {
        return Some(fault);
    }
    None
}
