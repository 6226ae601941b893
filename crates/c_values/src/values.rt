//! The operators on words.

ghost use Rattle.std.specs.Prelude.{◌≡◌, ℕ, ◌^◌, ◌<◌, ◌≤◌, pos, ◌-ℤ◌, ◌*ℤ◌, ◌≤ℤ◌, ◌<ℤ◌, neg_ℤ, IsTrue, ◌↔◌, MatchResult, int_div, int_rem, nat_abs, ◌≢◌};
ghost use Rattle.c_values.specs.Values as spec;

use crate::ops::{BinaryOp, Ty, UnaryOp};

/// The number of the trap of a division or remainder by 0.
pub const DIVIDE_TRAP: u16 = 1;

/// The number of the trap of an index outside of its array.
pub const INDEX_TRAP: u16 = 2;

/// The number of the trap of a shift by a count below 0 or not below the width.
pub const SHIFT_TRAP: u16 = 3;

/// The value that a word stands for at a type.
pub fn value(ty: Ty, word: u16) -> i64
    ensures is { result ≡ spec.value ty word }
    ensures low { neg_ℤ (pos 32768) ≤ℤ result }
    ensures high { result <ℤ pos 65536 }
{
    match ty {
        Ty::I8 | Ty::I16 => word.cast_signed() as i64,
        Ty::U8 | Ty::U16 => word as i64,
    }
}

/// The word of what is left of a whole number at a type.
fn kept(ty: Ty, z: i64) -> u16
    ensures { result ≡ spec.kept ty z }
{
    match ty {
        Ty::I8 => {
            let low = z.rem_euclid(256);
            if low < 128 {
                low as u16
            } else {
                (low + 65280) as u16
            }
        }
        Ty::U8 => z.rem_euclid(256) as u16,
        Ty::I16 | Ty::U16 => z.rem_euclid(65536) as u16,
    }
}

/// A word of one type, converted to another (C11 6.3.1.3).
pub fn converted(to: Ty, from: Ty, word: u16) -> u16
    ensures { result ≡ spec.converted to from word }
{
    kept(to, value(from, word))
}

/// A test takes 0 as false, and all else as true.
pub fn is_set(word: u16) -> bool
    ensures { result ≡ spec.is_set word }
{
    word != 0
}

/// 1 for a test that holds, else 0.
pub fn from_test(holds: bool) -> u16
    ensures { result ≡ spec.from_test holds }
{
    if holds { 1 } else { 0 }
}

/// What an operator gives on a word of the type.
pub fn unary(ty: Ty, op: UnaryOp, word: u16) -> u16
    ensures { result ≡ spec.unary_of ty op word }
{
    match op {
        UnaryOp::Plus => word,
        UnaryOp::Minus => kept(ty, -value(ty, word)),
        UnaryOp::Inv => kept(ty, -value(ty, word) - 1),
        UnaryOp::Not => from_test(word == 0),
    }
}

/// What an operator gives on two words of the type, or the number of a trap. The count of a shift has the type `by`.
pub fn binary(ty: Ty, by: Ty, op: BinaryOp, x: u16, y: u16) -> Result<u16, u16>
    ensures { MatchResult result (λ w. spec.binary_of ty by op x y ≡ spec.Gives w) (λ t. spec.binary_of ty by op x y ≡ spec.Traps t) }
{
    let a = value(ty, x);
    let b = value(ty, y);
    match op {
        BinaryOp::Add => Ok(kept(ty, a + b)),
        BinaryOp::Sub => Ok(kept(ty, a - b)),
        BinaryOp::Mul => Ok(kept(ty, product(a, b))),
        BinaryOp::Div => if y == 0 {
            Err(DIVIDE_TRAP)
        } else {
            Ok(kept(ty, quotient(a, b)))
        },
        BinaryOp::Rem => if y == 0 {
            Err(DIVIDE_TRAP)
        } else {
            Ok(kept(ty, remainder(a, b)))
        },
        BinaryOp::Less => Ok(from_test(a < b)),
        BinaryOp::Greater => Ok(from_test(b < a)),
        BinaryOp::LessEq => Ok(from_test(!(b < a))),
        BinaryOp::GreaterEq => Ok(from_test(!(a < b))),
        BinaryOp::Equal => Ok(from_test(x == y)),
        BinaryOp::NotEqual => Ok(from_test(x != y)),
        BinaryOp::BitAnd => Ok(x & y),
        BinaryOp::BitXor => Ok(x ^ y),
        BinaryOp::BitOr => Ok(x | y),
        BinaryOp::And => Ok(from_test(is_set(x) && is_set(y))),
        BinaryOp::Or => Ok(from_test(is_set(x) || is_set(y))),
        BinaryOp::Shl => shifted_left(ty, by, a, y),
        BinaryOp::Shr => shifted_right(ty, by, a, y),
    }
}

fn shifted_left(ty: Ty, by: Ty, a: i64, y: u16) -> Result<u16, u16>
    requires low { neg_ℤ (pos 32768) ≤ℤ a }
    requires high { a <ℤ pos 65536 }
    ensures { let w = spec.shifted (spec.value by y) (λ n. spec.kept ty (a *ℤ pos (2 ^ n))) in MatchResult result (λ r. w ≡ spec.Gives r) (λ t. w ≡ spec.Traps t) }
{
    let count = value(by, y);
    if count < 0 || count >= 16 {
        Err(SHIFT_TRAP)
    } else {
        Ok(kept(ty, product(a, power_of_two(count))))
    }
}

fn shifted_right(ty: Ty, by: Ty, a: i64, y: u16) -> Result<u16, u16>
    ensures { let w = spec.shifted (spec.value by y) (λ n. spec.kept ty (spec.halved a n)) in MatchResult result (λ r. w ≡ spec.Gives r) (λ t. w ≡ spec.Traps t) }
{
    let count = value(by, y);
    if count < 0 || count >= 16 {
        Err(SHIFT_TRAP)
    } else {
        Ok(kept(ty, a >> count))
    }
}

fn product(a: i64, b: i64) -> i64
    requires low_a { neg_ℤ (pos 32768) ≤ℤ a }
    requires high_a { a <ℤ pos 65536 }
    requires low_b { neg_ℤ (pos 32768) ≤ℤ b }
    requires high_b { b <ℤ pos 65536 }
    ensures { result ≡ a *ℤ b }
{
    a * b
}

fn power_of_two(count: i64) -> i64
    requires low { pos 0 ≤ℤ count }
    requires high { count <ℤ pos 16 }
    ensures is { result ≡ pos (2 ^ nat_abs count) }
    ensures low { pos 0 <ℤ result }
    ensures high { result <ℤ pos 65536 }
{
    1i64 << count
}

fn quotient(a: i64, b: i64) -> i64
    requires low_a { neg_ℤ (pos 32768) ≤ℤ a }
    requires nonzero { b ≢ pos 0 }
    ensures { result ≡ int_div a b }
{
    a / b
}

fn remainder(a: i64, b: i64) -> i64
    requires low_a { neg_ℤ (pos 32768) ≤ℤ a }
    requires nonzero { b ≢ pos 0 }
    ensures { result ≡ int_rem a b }
{
    a % b
}
