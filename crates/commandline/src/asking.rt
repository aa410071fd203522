//! What is asked, from what clap found.
ghost use Rattle.std.specs.Prelude.{◌≡◌, true, ◌^◌, ◌-◌, ℕ, Some, Ok, codes, map, option_map, IfOk, IfErr, OnOk};
ghost use Rattle.clap.specs.Words.{found_of, first_value};
ghost use Rattle.commandline.specs.Number.{address, decimal, distance};
ghost use Rattle.commandline.specs.Asked.{address_found, has_address, line_answer, tries_read, tries_in, tries_answer, IsNoNumber, NumberAnswer, AddressAnswer, LimitAnswer, DistanceAnswer, registers, values_found, all_values, named_file, Shows, IsWrong};

use crate::number::{read_address, read_decimal, read_distance};
use crate::{Asked, Command, Setting, Tries, Wrong};
use clap::ArgMatches;
use std::alloc::{AllocError, Global};

/// The name to clap of FILE.
pub const FILE: &str = "FILE";
/// The name to clap of DISTANCE.
pub const DISTANCE: &str = "DISTANCE";
/// The name to clap of ADDRESS and of START.
pub const ADDRESS: &str = "ADDRESS";
/// The name to clap of LIMIT.
pub const LIMIT: &str = "LIMIT";

// A hexadecimal option, 0 where it is not given.
fn address_of(command: Command, setting: Setting, matches: &ArgMatches<'_>) -> Result<u32, Wrong>
    requires { has_address setting ≡ true }
    ensures value { result ≡ address_found command (found_of matches.now) setting }
    ensures err { IfErr result (λ w. IsWrong command (found_of matches.now) w) }
{
    match matches.get_str(setting.id()) {
        None => Ok(0),
        Some(word) => match read_address(word.as_bytes()) {
            Some(number) => Ok(number),
            None => Err(Wrong::Takes(command, setting)),
        },
    }
}

// The line that is asked for.
fn line_of(command: Command, matches: &ArgMatches<'_>) -> Result<Option<u64>, Wrong>
    ensures { result ≡ line_answer command (first_value (found_of matches.now) (codes "line")) }
{
    match matches.get_str("line") {
        None => Ok(None),
        Some(word) => match read_decimal(word.as_bytes(), 0xFFFF_FFFF) {
            Some(line) => Ok(Some(line)),
            None => Err(Wrong::Takes(command, Setting::Line)),
        },
    }
}

// An address and two numbers of 16 bits, the second not below the first.
fn read_tries(address: &str, from: &str, to: &str) -> Option<Tries>
    ensures { result ≡ tries_read address.now from.now to.now }
{
    let address = read_address(address.as_bytes())?;
    let from = read_decimal(from.as_bytes(), 0xFFFF)?;
    let to = read_decimal(to.as_bytes(), 0xFFFF)?;
    if from <= to {
        Some(Tries {
            address,
            from: from as u16,
            to: to as u16,
        })
    } else {
        None
    }
}

// The values of -w.
fn tries_in(values: &[&str]) -> Option<Tries>
    ensures { result ≡ tries_in (map (λ v. v.now) values.now) }
{
    match values {
        [address, from, to] => read_tries(address, from, to),
        _ => None,
    }
}

// What -w asks, where it is given.
fn tries_of(command: Command, matches: &ArgMatches<'_>) -> Result<Option<Tries>, Wrong>
    ensures { result ≡ tries_answer command (values_found (found_of matches.now) (codes "tries")) }
{
    match matches.get_raw("tries") {
        None => Ok(None),
        Some(values) => match tries_in(values) {
            Some(tries) => Ok(Some(tries)),
            None => Err(Wrong::Takes(command, Setting::Tries)),
        },
    }
}

// What is wrong with a word that is no number.
fn no_number(alloc: Global, command: Command, word: &str) -> Wrong
    ensures { IsNoNumber command word.now result }
{
    match String::from_str(alloc, word) {
        Ok(word) => Wrong::NoNumber(command, word),
        Err(_) => Wrong::OutOfMemory,
    }
}

// ADDRESS or START.
fn start_of(alloc: Global, command: Command, matches: &ArgMatches<'_>) -> Result<u32, Wrong>
    ensures { AddressAnswer command (first_value (found_of matches.now) (codes "ADDRESS")) result }
{
    if !command.takes_address() {
        return Ok(0);
    }
    match matches.get_str(ADDRESS) {
        None => Err(Wrong::Missing(command)),
        Some(word) => match read_address(word.as_bytes()) {
            Some(number) => Ok(number),
            None => Err(no_number(alloc, command, word)),
        },
    }
}

// LIMIT.
fn limit_of(alloc: Global, command: Command, matches: &ArgMatches<'_>) -> Result<u64, Wrong>
    ensures { LimitAnswer command (first_value (found_of matches.now) (codes "LIMIT")) result }
{
    if !command.is_run() {
        return Ok(0);
    }
    match matches.get_str(LIMIT) {
        None => Err(Wrong::Missing(command)),
        Some(word) => match read_decimal(word.as_bytes(), u64::MAX) {
            Some(number) => Ok(number),
            None => Err(no_number(alloc, command, word)),
        },
    }
}

// DISTANCE.
fn distance_of(alloc: Global, command: Command, matches: &ArgMatches<'_>) -> Result<i32, Wrong>
    ensures { DistanceAnswer command (first_value (found_of matches.now) (codes "DISTANCE")) result }
{
    if !command.is_move() {
        return Ok(0);
    }
    match matches.get_str(DISTANCE) {
        None => Err(Wrong::Missing(command)),
        Some(word) => match read_distance(word.as_bytes()) {
            Some(number) => Ok(number),
            None => Err(no_number(alloc, command, word)),
        },
    }
}

// All values of an argument.
fn all_of<'a>(alloc: Global, matches: &ArgMatches<'a>, id: &str) -> Result<Vec<&'a str>, AllocError>
    ensures { IfOk result (λ v. map (λ s. s.now) v.items ≡ all_values (values_found (found_of matches.now) id.now)) }
{
    let mut all = Vec::new(alloc);
    if let Some(values) = matches.get_raw(id) {
        all.extend_from_slice(values)?;
    }
    Ok(all)
}

// The file that -o names; `-` is standard output.
fn output_of<'a>(matches: &ArgMatches<'a>) -> Option<&'a str>
    ensures { option_map (λ s. s.now) result ≡ named_file (first_value (found_of matches.now) (codes "output")) }
{
    let word = matches.get_str("output")?;
    if word == "-" { None } else { Some(word) }
}

// The registers.
fn registers_of(command: Command, matches: &ArgMatches<'_>) -> Result<[u32; 8], Wrong>
    ensures ok { IfOk result (λ a. map (λ n. Ok n) a ≡ map (address_found command (found_of matches.now)) registers) }
    ensures err { IfErr result (λ w. IsWrong command (found_of matches.now) w) }
{
    let a0 = address_of(command, Setting::A0, matches)?;
    let a1 = address_of(command, Setting::A1, matches)?;
    let a2 = address_of(command, Setting::A2, matches)?;
    let a3 = address_of(command, Setting::A3, matches)?;
    let a4 = address_of(command, Setting::A4, matches)?;
    let a5 = address_of(command, Setting::A5, matches)?;
    let a6 = address_of(command, Setting::A6, matches)?;
    let a7 = address_of(command, Setting::A7, matches)?;
    Ok([a0, a1, a2, a3, a4, a5, a6, a7])
}

/// What is asked, from what clap found among the words of a command; or what is wrong with a number.
pub fn asked_from<'a>(
    alloc: Global,
    command: Command,
    matches: &ArgMatches<'a>,
) -> Result<Asked<'a>, Wrong>
    ensures ok { IfOk result (λ a. Shows command (found_of matches.now) a) }
    ensures err { IfErr result (λ w. IsWrong command (found_of matches.now) w) }
{
    let base = address_of(command, Setting::Base, matches)?;
    let line = line_of(command, matches)?;
    let a = registers_of(command, matches)?;
    let tries = tries_of(command, matches)?;
    let address = start_of(alloc, command, matches)?;
    let limit = limit_of(alloc, command, matches)?;
    let distance = distance_of(alloc, command, matches)?;
    let Ok(files) = all_of(alloc, matches, FILE) else {
        return Err(Wrong::OutOfMemory);
    };
    let Ok(sheets) = all_of(alloc, matches, "sheet") else {
        return Err(Wrong::OutOfMemory);
    };
    Ok(Asked {
        command,
        files,
        output: output_of(matches),
        branches: matches.get_str("branches"),
        base,
        line,
        a,
        tries,
        sheets,
        address,
        limit,
        distance,
        json: matches.get_flag("json"),
    })
}
