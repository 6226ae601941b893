//! Results and flags.

ghost use Rattle.std.specs.Prelude.{◌≡◌, ◌+◌, ◌-◌, ◌*◌, ◌/◌, ◌%◌, ◌^◌, ◌<◌, ◌≤◌, ℕ, IsTrue, Bool, true, false, not, ◌&&◌, ◌==◌, if◌then◌else◌, bit_and, bit_or, bit_xor};
ghost use Rattle.msp430_isa.specs.Profile.{guards_width};
ghost use Rattle.msp430_isa.specs.Results.{one_if, sign_bit as sign_bit_lem, values as values_lem, is_negative as is_negative_lem, complement as complement_lem, sum as sum_lem, sum_flags as sum_flags_lem, flags_of as flags_of_lem, two_result as two_result_lem, two_flags as two_flags_lem, reads_destination as reads_destination_lem, writes_destination as writes_destination_lem, one_result as one_result_lem, one_flags as one_flags_lem, is_taken as is_taken_lem, jump_target as jump_target_lem, overflows as overflows_lem};
ghost use Rattle.msp430_machine.specs.Views.{flags_in};

use msp430_isa::{Cond, OneOp, TwoOp};

/// C, Z, N and V.
#[derive(Clone, Copy, Debug, PartialEq, Eq)]
pub struct Flags {
    pub carry: bool,
    pub zero_flag: bool,
    pub negative: bool,
    pub overflow: bool,
}

fn values(byte: bool) -> u32
    ensures { result ≡ values_lem byte }
{
    if byte { 256 } else { 65536 }
}

fn is_negative(byte: bool, v: u16) -> bool
    ensures { result ≡ is_negative_lem byte v }
{
    if byte { v >= 128 } else { v >= 32768 }
}

fn complement(byte: bool, v: u16) -> u16
    requires { v < values_lem byte }
    ensures value { result ≡ complement_lem byte v }
    ensures small { result < values_lem byte }
{
    if byte { 255 - v } else { 65535 - v }
}

// A sum that isn't brought to its width yet.
fn total(d: u16, v: u16, carried: bool) -> u32
    ensures value { result ≡ d + v + one_if carried }
    ensures small { result ≤ 131071 }
{
    d as u32 + v as u32 + carried as u32
}

fn sum(byte: bool, d: u16, v: u16, carried: bool) -> u16
    ensures value { result ≡ sum_lem byte d v carried }
    ensures small { result < values_lem byte }
{
    if byte {
        (total(d, v, carried) % 256) as u16
    } else {
        (total(d, v, carried) % 65536) as u16
    }
}

// Two numbers of one sign have a sum of the other.
fn overflows(byte: bool, d: u16, v: u16, r: u16) -> bool
    ensures { result ≡ overflows_lem byte d v r }
{
    let d = is_negative(byte, d);
    let v = is_negative(byte, v);
    let r = is_negative(byte, r);
    (d && v && !r) || (!d && !v && r)
}

fn sum_flags(byte: bool, d: u16, v: u16, carried: bool) -> Flags
    ensures { flags_in result ≡ sum_flags_lem byte d v carried }
{
    let r = sum(byte, d, v, carried);
    Flags {
        carry: values(byte) <= total(d, v, carried),
        zero_flag: r == 0,
        negative: is_negative(byte, r),
        overflow: overflows(byte, d, v, r),
    }
}

// The flags of a result that is no sum.
fn flags_of(byte: bool, r: u16, carry: bool, overflow: bool) -> Flags
    ensures { flags_in result ≡ flags_of_lem byte r carry overflow }
{
    Flags {
        carry,
        zero_flag: r == 0,
        negative: is_negative(byte, r),
        overflow,
    }
}

// ---- Two operands

fn and(byte: bool, d: u16, v: u16) -> u16
    requires d { d < values_lem byte }
    requires v { v < values_lem byte }
    ensures value { result ≡ bit_and d v }
    ensures small { result < values_lem byte }
{
    if byte {
        (d as u8 & v as u8) as u16
    } else {
        d & v
    }
}

fn or(byte: bool, d: u16, v: u16) -> u16
    requires d { d < values_lem byte }
    requires v { v < values_lem byte }
    ensures value { result ≡ bit_or d v }
    ensures small { result < values_lem byte }
{
    if byte {
        (d as u8 | v as u8) as u16
    } else {
        d | v
    }
}

fn xor(byte: bool, d: u16, v: u16) -> u16
    requires d { d < values_lem byte }
    requires v { v < values_lem byte }
    ensures value { result ≡ bit_xor d v }
    ensures small { result < values_lem byte }
{
    if byte {
        (d as u8 ^ v as u8) as u16
    } else {
        d ^ v
    }
}

/// The result of an operation of this width on the source v and the destination d.
pub fn two_result(op: TwoOp, byte: bool, carry: bool, v: u16, d: u16) -> u16
    requires v { v < values_lem byte }
    requires d { d < values_lem byte }
    ensures value { result ≡ two_result_lem op byte carry v d }
    ensures small { result < values_lem byte }
{
    match op {
        TwoOp::Mov => v,
        TwoOp::Add => sum(byte, d, v, false),
        TwoOp::Addc => sum(byte, d, v, carry),
        TwoOp::Sub | TwoOp::Cmp => sum(byte, d, complement(byte, v), true),
        TwoOp::Subc => sum(byte, d, complement(byte, v), carry),
        TwoOp::Bit | TwoOp::And => and(byte, d, v),
        TwoOp::Bic => and(byte, d, complement(byte, v)),
        TwoOp::Bis => or(byte, d, v),
        TwoOp::Xor => xor(byte, d, v),
    }
}

/// The flags behind an operation of this width on the source v and the destination d.
pub fn two_flags(op: TwoOp, byte: bool, flags: Flags, v: u16, d: u16) -> Flags
    requires v { v < values_lem byte }
    requires d { d < values_lem byte }
    ensures { flags_in result ≡ two_flags_lem op byte (flags_in flags) v d }
{
    match op {
        TwoOp::Mov | TwoOp::Bic | TwoOp::Bis => flags,
        TwoOp::Add => sum_flags(byte, d, v, false),
        TwoOp::Addc => sum_flags(byte, d, v, flags.carry),
        TwoOp::Sub | TwoOp::Cmp => sum_flags(byte, d, complement(byte, v), true),
        TwoOp::Subc => sum_flags(byte, d, complement(byte, v), flags.carry),
        TwoOp::Bit | TwoOp::And => and_flags(byte, v, d),
        TwoOp::Xor => xor_flags(byte, v, d),
    }
}

fn and_flags(byte: bool, v: u16, d: u16) -> Flags
    requires v { v < values_lem byte }
    requires d { d < values_lem byte }
    ensures { flags_in result ≡ flags_of_lem byte (bit_and d v) (not (bit_and d v == 0)) false }
{
    let r = and(byte, d, v);
    flags_of(byte, r, r != 0, false)
}

fn xor_flags(byte: bool, v: u16, d: u16) -> Flags
    requires v { v < values_lem byte }
    requires d { d < values_lem byte }
    ensures { flags_in result ≡ flags_of_lem byte (bit_xor d v) (not (bit_xor d v == 0)) (is_negative_lem byte d && is_negative_lem byte v) }
{
    let r = xor(byte, d, v);
    let both = is_negative(byte, d) && is_negative(byte, v);
    flags_of(byte, r, r != 0, both)
}

/// Whether the operation writes its destination.
pub fn writes_destination(op: TwoOp) -> bool
    ensures { result ≡ writes_destination_lem op }
{
    match op {
        TwoOp::Cmp | TwoOp::Bit => false,
        _ => true,
    }
}

/// Whether the operation reads its destination.
pub fn reads_destination(op: TwoOp) -> bool
    ensures { result ≡ reads_destination_lem op }
{
    match op {
        TwoOp::Mov => false,
        _ => true,
    }
}

// ---- One operand

fn sign_bit(byte: bool) -> u16
    ensures { result ≡ sign_bit_lem byte }
{
    if byte { 128 } else { 32768 }
}

// Shifted right by one, with this bit at the top.
fn shifted(byte: bool, v: u16, top: bool) -> u16
    requires { v < values_lem byte }
    ensures value { result ≡ v / 2 + (if top then sign_bit_lem byte else 0) }
    ensures small { result < values_lem byte }
{
    if top { v / 2 + sign_bit(byte) } else { v / 2 }
}

// The sign of the low byte in the high byte.
fn extended(v: u16) -> u16
    ensures { result ≡ v % 256 + (if is_negative_lem true (v % 256) then 0xFF00 else 0) }
{
    let low = v % 256;
    if is_negative(true, low) {
        low + 0xFF00
    } else {
        low
    }
}

/// The result of an operation of this width on the operand v.
pub fn one_result(op: OneOp, byte: bool, carry: bool, v: u16) -> u16
    requires width { IsTrue (guards_width op byte) }
    requires v { v < values_lem byte }
    ensures value { result ≡ one_result_lem op byte carry v }
    ensures small { result < values_lem byte }
{
    match op {
        OneOp::Rrc => shifted(byte, v, carry),
        OneOp::Rra => shifted(byte, v, is_negative(byte, v)),
        OneOp::Swpb => v % 256 * 256 + v / 256,
        OneOp::Sxt => extended(v),
        OneOp::Push | OneOp::Call => v,
    }
}

/// The flags behind an operation of this width on the operand v.
pub fn one_flags(op: OneOp, byte: bool, flags: Flags, v: u16) -> Flags
    requires v { v < values_lem byte }
    ensures { flags_in result ≡ one_flags_lem op byte (flags_in flags) v }
{
    match op {
        OneOp::Rrc => flags_of(byte, shifted(byte, v, flags.carry), v % 2 == 1, false),
        OneOp::Rra => flags_of(
            byte,
            shifted(byte, v, is_negative(byte, v)),
            v % 2 == 1,
            false,
        ),
        OneOp::Sxt => {
            let r = extended(v);
            flags_of(byte, r, r != 0, false)
        }
        OneOp::Swpb | OneOp::Push | OneOp::Call => flags,
    }
}

// ---- Jumps

/// Whether a jump is taken.
pub fn is_taken(on: Cond, flags: Flags) -> bool
    ensures { result ≡ is_taken_lem on (flags_in flags) }
{
    match on {
        Cond::Jne => !flags.zero_flag,
        Cond::Jeq => flags.zero_flag,
        Cond::Jnc => !flags.carry,
        Cond::Jc => flags.carry,
        Cond::Jn => flags.negative,
        Cond::Jge => flags.negative == flags.overflow,
        Cond::Jl => flags.negative != flags.overflow,
        Cond::Jmp => true,
    }
}

/// Where a jump goes, from the address of the next instruction.
pub fn jump_target(following: u16, words: i16) -> u16
    ensures { result ≡ jump_target_lem following words }
{
    if words >= 0 {
        following.wrapping_add((words as u16).wrapping_mul(2))
    } else {
        following.wrapping_sub(((-(words as i32)) as u16).wrapping_mul(2))
    }
}
