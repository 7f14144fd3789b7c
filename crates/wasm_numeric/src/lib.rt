// The integer arithmetic of WebAssembly Core 1.0, chapters 4.3.2 and 4.3.4.
#![tactic(auto)]

ghost use Rattle.std.specs.Prelude.{◌≡◌, ◌<◌, ◌≤◌, ◌^◌, IfOk, IfErr, IsErrOf};
ghost use Rattle.std.specs.Result.{result_ok};
ghost use Rattle.wasm_numeric.specs.Integers.{least, minus_one, idiv_s, irem_s};
ghost use Rattle.wasm_numeric.specs.Opcodes.{IsFrom, IsOverflow, IsUnary, IsBinary, IsDivision, IsCompare};
ghost use Rattle.wasm_numeric.specs.Opcodes.{IsConvert, IsNarrowUnary, unary_value, binary_value, compare_value};
ghost use Rattle.wasm_numeric.specs.Opcodes.{convert_value};

/// Why an integer instruction has no value.
#[derive(Clone, Copy, Debug, PartialEq, Eq)]
pub enum NumFault {
    /// A division or a remainder by 0.
    DivideByZero,
    /// A signed division of the least number by -1.
    Overflow,
}

/// Counts bits, by opcode 67 to 69 (`i32`) or 79 to 7B (`i64`), or carries the sign of the low bits on, by
/// opcode C0 (8 bits), C1 (16; both `i32`) or C2 (8), C3 (16), C4 (32; all `i64`). An `i32` stands in the low
/// 32 bits, the others 0.
#[inline]
pub fn unary(op: u8, a: u64) -> u64
    requires group { IsUnary op }
    requires operand { IsNarrowUnary op → a < 2 ^ 32 }
    ensures value { result ≡ unary_value op a }
    ensures range { IsNarrowUnary op → result < 2 ^ 32 }
{
    match op {
        0x67 => u64::from((a as u32).leading_zeros()),
        0x68 => u64::from((a as u32).trailing_zeros()),
        0x69 => u64::from((a as u32).count_ones()),
        0x79 => u64::from(a.leading_zeros()),
        0x7a => u64::from(a.trailing_zeros()),
        0x7b => u64::from(a.count_ones()),
        _ => extend_within(op, a),
    }
}

// Carries the sign of the low bits on, by opcode C0 to C4.
#[inline]
#[tactic(auto, unfolding(crate::specs::Opcodes::unary_value, crate::specs::Opcodes::unary_entry))]
fn extend_within(op: u8, a: u64) -> u64
    requires { IsFrom 0xc0 0xc4 op }
    ensures value { result ≡ unary_value op a }
    ensures range { op ≤ 0xc1 → result < 2 ^ 32 }
{
    let byte = ((a & 0xff) as u8).cast_signed();
    let two_bytes = ((a & 0xffff) as u16).cast_signed();
    match op {
        0xc0 => u64::from(i32::from(byte).cast_unsigned()),
        0xc1 => u64::from(i32::from(two_bytes).cast_unsigned()),
        0xc2 => i64::from(byte).cast_unsigned(),
        0xc3 => i64::from(two_bytes).cast_unsigned(),
        _ => i64::from(((a & 0xffff_ffff) as u32).cast_signed()).cast_unsigned(),
    }
}

/// Calculates with two operands, by opcode 6A to 78 (`i32`) or 7C to 8A (`i64`). An `i32` stands in the low
/// 32 bits, the others 0.
#[inline]
pub fn binary(op: u8, a: u64, b: u64) -> Result<u64, NumFault>
    requires group { IsBinary op }
    requires first { op ≤ 0x78 → a < 2 ^ 32 }
    requires second { op ≤ 0x78 → b < 2 ^ 32 }
    ensures value { result_ok result ≡ binary_value op a b }
    ensures range { IfOk result (λ n. op ≤ 0x78 → n < 2 ^ 32) }
    ensures by_zero { IfErr result (λ e. e ≡ NumFault.DivideByZero → IsDivision op × (b ≡ 0)) }
    ensures zero_refused { IsDivision op → b ≡ 0 → IsErrOf result NumFault.DivideByZero }
    ensures overflow { IfErr result (λ e. e ≡ NumFault.Overflow → IsOverflow op a b) }
    ensures overflow_refused { IsOverflow op a b → IsErrOf result NumFault.Overflow }
{
    match op {
        0x6a..=0x78 => Ok(u64::from(binary_32(op, a as u32, b as u32)?)),
        _ => binary_64(op, a, b),
    }
}

#[inline]
#[tactic(auto, unfolding(crate::specs::Opcodes::binary_value, crate::specs::Opcodes::binary_entry))]
fn binary_32(op: u8, a: u32, b: u32) -> Result<u32, NumFault>
    requires { IsFrom 0x6a 0x78 op }
    ensures value { result_ok result ≡ binary_value op a b }
    ensures by_zero { IfErr result (λ e. e ≡ NumFault.DivideByZero → IsDivision op × (b ≡ 0)) }
    ensures overflow { IfErr result (λ e. e ≡ NumFault.Overflow → IsOverflow op a b) }
{
    match op {
        0x6a => Ok(a.wrapping_add(b)),
        0x6b => Ok(a.wrapping_sub(b)),
        0x6c => Ok(a.wrapping_mul(b)),
        0x6d => divide_signed_32(a, b),
        0x6e => a.checked_div(b).ok_or(NumFault::DivideByZero),
        0x6f => remainder_signed_32(a, b),
        0x70 => a.checked_rem(b).ok_or(NumFault::DivideByZero),
        0x71 => Ok(a & b),
        0x72 => Ok(a | b),
        0x73 => Ok(a ^ b),
        0x74 => Ok(a.wrapping_shl(b)),
        0x75 => Ok(a.cast_signed().wrapping_shr(b).cast_unsigned()),
        0x76 => Ok(a.wrapping_shr(b)),
        0x77 => Ok(a.rotate_left(b % 32)),
        _ => Ok(a.rotate_right(b % 32)),
    }
}

#[inline]
#[tactic(auto, unfolding(crate::specs::Opcodes::binary_value, crate::specs::Opcodes::binary_entry))]
fn binary_64(op: u8, a: u64, b: u64) -> Result<u64, NumFault>
    requires { IsFrom 0x7c 0x8a op }
    ensures value { result_ok result ≡ binary_value op a b }
    ensures by_zero { IfErr result (λ e. e ≡ NumFault.DivideByZero → IsDivision op × (b ≡ 0)) }
    ensures overflow { IfErr result (λ e. e ≡ NumFault.Overflow → IsOverflow op a b) }
{
    match op {
        0x7c => Ok(a.wrapping_add(b)),
        0x7d => Ok(a.wrapping_sub(b)),
        0x7e => Ok(a.wrapping_mul(b)),
        0x7f => divide_signed_64(a, b),
        0x80 => a.checked_div(b).ok_or(NumFault::DivideByZero),
        0x81 => remainder_signed_64(a, b),
        0x82 => a.checked_rem(b).ok_or(NumFault::DivideByZero),
        0x83 => Ok(a & b),
        0x84 => Ok(a | b),
        0x85 => Ok(a ^ b),
        0x86 => Ok(a << (b % 64)),
        0x87 => Ok((a.cast_signed() >> (b % 64)).cast_unsigned()),
        0x88 => Ok(a >> (b % 64)),
        0x89 => Ok(a.rotate_left((b % 64) as u32)),
        _ => Ok(a.rotate_right((b % 64) as u32)),
    }
}

#[inline]
fn divide_signed_32(a: u32, b: u32) -> Result<u32, NumFault>
    ensures value { result_ok result ≡ idiv_s 32 a b }
    ensures by_zero { IfErr result (λ e. e ≡ NumFault.DivideByZero → b ≡ 0) }
    ensures overflow { IfErr result (λ e. e ≡ NumFault.Overflow → (a ≡ least 32) × (b ≡ minus_one 32)) }
{
    if b == 0 {
        return Err(NumFault::DivideByZero);
    }
    match a.cast_signed().checked_div(b.cast_signed()) {
        Some(quotient) => Ok(quotient.cast_unsigned()),
        None => Err(NumFault::Overflow),
    }
}

#[inline]
fn divide_signed_64(a: u64, b: u64) -> Result<u64, NumFault>
    ensures value { result_ok result ≡ idiv_s 64 a b }
    ensures by_zero { IfErr result (λ e. e ≡ NumFault.DivideByZero → b ≡ 0) }
    ensures overflow { IfErr result (λ e. e ≡ NumFault.Overflow → (a ≡ least 64) × (b ≡ minus_one 64)) }
{
    if b == 0 {
        return Err(NumFault::DivideByZero);
    }
    match a.cast_signed().checked_div(b.cast_signed()) {
        Some(quotient) => Ok(quotient.cast_unsigned()),
        None => Err(NumFault::Overflow),
    }
}

#[inline]
fn remainder_signed_32(a: u32, b: u32) -> Result<u32, NumFault>
    ensures value { result_ok result ≡ irem_s 32 a b }
    ensures by_zero { IfErr result (λ e. (e ≡ NumFault.DivideByZero) × (b ≡ 0)) }
{
    if b == 0 {
        return Err(NumFault::DivideByZero);
    }
    Ok(
        a.cast_signed()
            .wrapping_rem(b.cast_signed())
            .cast_unsigned(),
    )
}

#[inline]
fn remainder_signed_64(a: u64, b: u64) -> Result<u64, NumFault>
    ensures value { result_ok result ≡ irem_s 64 a b }
    ensures by_zero { IfErr result (λ e. (e ≡ NumFault.DivideByZero) × (b ≡ 0)) }
{
    if b == 0 {
        return Err(NumFault::DivideByZero);
    }
    Ok(
        a.cast_signed()
            .wrapping_rem(b.cast_signed())
            .cast_unsigned(),
    )
}

/// Compares, by opcode 45 to 4F (`i32`) or 50 to 5A (`i64`); 45 and 50 look at `a` alone. An `i32` stands in
/// the low 32 bits, the others 0.
#[inline]
pub fn compare(op: u8, a: u64, b: u64) -> bool
    requires group { IsCompare op }
    requires first { op ≤ 0x4f → a < 2 ^ 32 }
    requires second { op ≤ 0x4f → b < 2 ^ 32 }
    ensures { result ≡ compare_value op a b }
{
    match op {
        0x45..=0x4f => compare_32(op, a as u32, b as u32),
        _ => compare_64(op, a, b),
    }
}

#[inline]
#[tactic(auto, unfolding(crate::specs::Opcodes::compare_value, crate::specs::Opcodes::compare_entry))]
fn compare_32(op: u8, a: u32, b: u32) -> bool
    requires { IsFrom 0x45 0x4f op }
    ensures { result ≡ compare_value op a b }
{
    let (signed_a, signed_b) = (a.cast_signed(), b.cast_signed());
    match op {
        0x45 => a == 0,
        0x46 => a == b,
        0x47 => a != b,
        0x48 => signed_a < signed_b,
        0x49 => a < b,
        0x4a => signed_a > signed_b,
        0x4b => a > b,
        0x4c => signed_a <= signed_b,
        0x4d => a <= b,
        0x4e => signed_a >= signed_b,
        _ => a >= b,
    }
}

#[inline]
#[tactic(auto, unfolding(crate::specs::Opcodes::compare_value, crate::specs::Opcodes::compare_entry))]
fn compare_64(op: u8, a: u64, b: u64) -> bool
    requires { IsFrom 0x50 0x5a op }
    ensures { result ≡ compare_value op a b }
{
    let (signed_a, signed_b) = (a.cast_signed(), b.cast_signed());
    match op {
        0x50 => a == 0,
        0x51 => a == b,
        0x52 => a != b,
        0x53 => signed_a < signed_b,
        0x54 => a < b,
        0x55 => signed_a > signed_b,
        0x56 => a > b,
        0x57 => signed_a <= signed_b,
        0x58 => a <= b,
        0x59 => signed_a >= signed_b,
        _ => a >= b,
    }
}

/// Changes the width, by opcode A7 (`i64` to `i32`), AC or AD (`i32` to `i64`, signed or unsigned).
#[inline]
#[tactic(auto, unfolding(crate::specs::Opcodes::convert_value, crate::specs::Opcodes::convert_entry))]
pub fn convert(op: u8, a: u64) -> u64
    requires group { IsConvert op }
    requires operand { 0xac ≤ op → a < 2 ^ 32 }
    ensures value { result ≡ convert_value op a }
    ensures range { op ≡ 0xa7 → result < 2 ^ 32 }
{
    match op {
        0xa7 => a & 0xffff_ffff,
        0xac => i64::from((a as u32).cast_signed()).cast_unsigned(),
        _ => a,
    }
}
