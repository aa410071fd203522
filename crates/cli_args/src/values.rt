//! The numbers among what is given.
ghost use Rattle.std.specs.Prelude.{◌≡◌, ◌-◌, ◌^◌, map, option_map};
ghost use Rattle.cli_args.specs.Number.{address, decimal, distance};
ghost use Rattle.cli_args.specs.Asked.{value_of, number_in, line_in, registers, registers_in, last_of, tries_of, sweep_of, sweep_in, operand_at, operand_number};
ghost use Rattle.cli_args.specs.Lexed.{givens_of};
ghost use Rattle.cli_args.specs.Parsed.{three_of, sweep_of_code, read_as, read_of};

use crate::Setting;
use crate::args::Sweep;
use crate::givens::{Three, operand_at, three_of, value_of};
use crate::lexing::{Given, Wrong};
use crate::number::{read_address, read_decimal, read_distance};

// ---- Options.

/// The number of an option that is an address, 0 if it is not given.
pub(crate) fn address_of<'a>(setting: Setting, givens: &[Given<'a>]) -> Result<u32, Wrong<'a>>
    ensures { read_of result ≡ number_in setting address 0 (value_of setting (givens_of givens.now)) }
{
    match value_of(setting, givens) {
        None => Ok(0),
        Some(word) => match read_address(word.as_bytes()) {
            Some(number) => Ok(number),
            None => Err(Wrong::Takes(setting)),
        },
    }
}

/// The number of --line.
pub(crate) fn line_of<'a>(givens: &[Given<'a>]) -> Result<Option<u64>, Wrong<'a>>
    ensures { read_of result ≡ line_in (givens_of givens.now) }
{
    match value_of(Setting::Line, givens) {
        None => Ok(None),
        Some(word) => match read_decimal(word.as_bytes(), 0xFFFF_FFFF) {
            Some(line) => Ok(Some(line)),
            None => Err(Wrong::Takes(Setting::Line)),
        },
    }
}

// The options of the registers.
static REGISTERS: [Setting; 8] = [
    Setting::A0,
    Setting::A1,
    Setting::A2,
    Setting::A3,
    Setting::A4,
    Setting::A5,
    Setting::A6,
    Setting::A7,
];

/// A0 to A7, each 0 if it is not given.
pub(crate) fn registers_of<'a>(givens: &[Given<'a>]) -> Result<[u32; 8], Wrong<'a>>
    ensures { read_of result ≡ registers_in (givens_of givens.now) registers }
{
    let mut a = [0; 8];
    for k in 0..8 {
        match address_of(REGISTERS[k], givens) {
            Ok(number) => a[k] = number,
            Err(wrong) => return Err(wrong),
        }
    }
    Ok(a)
}

// An address and two numbers of 16 bits, the second not below the first.
fn read_sweep(three: Three<'_>) -> Option<Sweep>
    ensures { option_map sweep_of_code result ≡ sweep_of (three_of three.entry) }
{
    let at = read_address(three.at.as_bytes())?;
    let from = read_decimal(three.from.as_bytes(), 0xFFFF)?;
    let to = read_decimal(three.to.as_bytes(), 0xFFFF)?;
    if from <= to {
        Some(Sweep {
            at,
            from: from as u16,
            to: to as u16,
        })
    } else {
        None
    }
}

/// The values of -w.
pub(crate) fn sweep_of<'a>(givens: &[Given<'a>]) -> Result<Option<Sweep>, Wrong<'a>>
    ensures { read_as (λ o. option_map sweep_of_code o) result ≡ sweep_in (last_of (tries_of (givens_of givens.now))) }
{
    match three_of(givens) {
        None => Ok(None),
        Some(three) => match read_sweep(three) {
            Some(sweep) => Ok(Some(sweep)),
            None => Err(Wrong::Takes(Setting::Tries)),
        },
    }
}

// ---- The numbers before FILE, which have to be there.

/// ADDRESS or START.
pub(crate) fn address_at<'a>(operands: &[&'a str], k: usize) -> Result<u32, Wrong<'a>>
    ensures { read_of result ≡ operand_number address (operand_at k (map (λ s. s.now) operands.now)) }
{
    match operand_at(operands, k) {
        None => Err(Wrong::Missing),
        Some(word) => match read_address(word.as_bytes()) {
            Some(number) => Ok(number),
            None => Err(Wrong::NoNumber(word)),
        },
    }
}

/// LIMIT.
pub(crate) fn limit_at<'a>(operands: &[&'a str], k: usize) -> Result<u64, Wrong<'a>>
    ensures { read_of result
        ≡ operand_number (λ w. decimal (2 ^ 64 - 1) w) (operand_at k (map (λ s. s.now) operands.now)) }
{
    match operand_at(operands, k) {
        None => Err(Wrong::Missing),
        Some(word) => match read_decimal(word.as_bytes(), u64::MAX) {
            Some(number) => Ok(number),
            None => Err(Wrong::NoNumber(word)),
        },
    }
}

/// DISTANCE.
pub(crate) fn distance_at<'a>(operands: &[&'a str], k: usize) -> Result<i32, Wrong<'a>>
    ensures { read_of result ≡ operand_number distance (operand_at k (map (λ s. s.now) operands.now)) }
{
    match operand_at(operands, k) {
        None => Err(Wrong::Missing),
        Some(word) => match read_distance(word.as_bytes()) {
            Some(number) => Ok(number),
            None => Err(Wrong::NoNumber(word)),
        },
    }
}
