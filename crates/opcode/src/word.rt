//! Words: fields put into an opcode by shifts and masks, each word equal to the sum of its parts.
ghost use Rattle.std.specs.Prelude.{◌≡◌, ◌+◌, ◌*◌, ◌/◌, ◌%◌, ◌<◌};
ghost use Rattle.rules.specs.Encode.{R};

/// A register in bits 9 to 11, which are clear in the opcode.
pub fn with_high(opcode: u16, high: u16) -> u16
    requires { (high < 8) × (opcode / 512 % 8 ≡ 0) }
    ensures { result ≡ opcode + R high }
{
    opcode | (high << 9)
}

/// A register in bits 0 to 2, which are clear in the opcode.
pub fn with_low(opcode: u16, low: u16) -> u16
    requires { (low < 8) × (opcode % 8 ≡ 0) }
    ensures { result ≡ opcode + low }
{
    opcode | low
}

/// Both registers.
pub fn with_registers(opcode: u16, high: u16, low: u16) -> u16
    requires { (high < 8) × (low < 8) × (opcode / 512 % 8 ≡ 0) × (opcode % 8 ≡ 0) }
    ensures { result ≡ opcode + R high + low }
{
    opcode | (high << 9) | low
}

/// SUBQ and ASL: "low three bits of the value in bits 9 to 11".
pub fn quick_word(opcode: u16, value: u16, register: u16) -> u16
    requires { (register < 8) × (opcode / 512 % 8 ≡ 0) × (opcode % 8 ≡ 0) }
    ensures { result ≡ opcode + register + R (value % 8) }
{
    opcode | ((value & 7) << 9) | register
}

/// MOVEQ: the register in bits 9 to 11, the value's byte in the low ones.
pub fn moveq_word(register: u16, byte: u8) -> u16
    requires { register < 8 }
    ensures { result ≡ 0x7000 + R register + byte }
{
    0x7000 | (register << 9) | u16::from(byte)
}

/// A branch: the condition in bits 8 to 11, the displacement's byte in the low ones.
pub fn branch_word(condition: u8, byte: u8) -> u16
    requires { condition < 16 }
    ensures { result ≡ 0x6000 + 256 * condition + byte }
{
    0x6000 | (u16::from(condition) << 8) | u16::from(byte)
}

/// The high word of a value; `as` narrows what is below 65,536.
pub fn high_word(value: u32) -> u16
    ensures { result ≡ value / 65536 }
{
    (value >> 16) as u16
}

/// The low word of a value, likewise.
pub fn low_word(value: u32) -> u16
    ensures { result ≡ value % 65536 }
{
    (value & 0xFFFF) as u16
}
