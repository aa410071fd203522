//! From what is given to a call, and from the words to what they ask for.
ghost use Rattle.std.specs.Prelude.{◌≡◌, ◌++◌, ◌∷◌, Some, None, codes, map, option_map, string_bytes, IfOk};
ghost use Rattle.cli_error.specs.Fault.{misused};
ghost use Rattle.cli_error.specs.Refusals.{refusals_text};
ghost use Rattle.cli_error.specs.declared.What.TheVariants.{Open, Write};
ghost use Rattle.cli_run.specs.From.{from_of};
ghost use Rattle.cli_args.specs.Help.{help_text, command_help_text};
ghost use Rattle.cli_args.specs.Given.{given_in};
ghost use Rattle.cli_args.specs.Lexed.{givens_of, complaint_of};
ghost use Rattle.cli_args.specs.Asked.{calls, prints, fails, shown, values_of, operands_of, all_froms, work_of, named_by, complains, asked_by, asked_at, asked_of};
ghost use Rattle.cli_args.specs.Parsed.{asked, work_of_args, call_of, read_as, broken_in};
ghost use Rattle.cli_args.specs.declared.Command.TheVariants as Is;
ghost use Rattle.cli_args.specs.declared.Setting.TheVariants as Of;
ghost use Rattle.cli_args.specs.declared.help.TheConstants.{VERSION};

use crate::args::{
    Args, AssembleArgs, Call, CheckArgs, ListArgs, ManualArgs, MoveArgs, NearestArgs, Parsed,
    RunArgs, SheetArgs, SymbolsArgs, TidyArgs, WhyArgs,
};
use crate::complaints::{complaint_text, joined};
use crate::givens::{has_json, operands_of, value_of, values_of};
use crate::help::{VERSION, command_help, help};
use crate::lexing::{Given, Stop, Wrong, read_words};
use crate::naming::{broken, file_at, named_file, shown, shown_name, sources_of, unread_name};
use crate::table::command_named;
use crate::values::{
    address_at, address_of, distance_at, limit_at, line_of, registers_of, sweep_of,
};
use crate::{Command, Setting};
use cli_error::What;
use cli_error::words::refusals;
use cli_run::source::Source;
use std::alloc::{AllocError, Global};

// ---- The arguments of each command: of two numbers that are wrong the first is reported.

fn assemble_args<'a>(givens: &[Given<'a>], operands: &[&'a str]) -> Result<Args<'a>, Wrong<'a>>
    requires { map (λ s. s.now) operands.now ≡ operands_of (givens_of givens.now) }
    ensures { read_as work_of_args result ≡ work_of Is.Assemble (givens_of givens.now) }
{
    let base = address_of(Setting::Base, givens)?;
    Ok(Args::Assemble(AssembleArgs {
        json: has_json(givens),
        base,
        branches: value_of(Setting::Branches, givens),
        file: file_at(operands, 0),
    }))
}

fn manual_args<'a>(givens: &[Given<'a>], operands: &[&'a str]) -> Result<Args<'a>, Wrong<'a>>
    requires { map (λ s. s.now) operands.now ≡ operands_of (givens_of givens.now) }
    ensures { read_as work_of_args result ≡ work_of Is.Manual (givens_of givens.now) }
{
    let base = address_of(Setting::Base, givens)?;
    Ok(Args::Manual(ManualArgs {
        base,
        file: file_at(operands, 0),
    }))
}

fn move_args<'a>(givens: &[Given<'a>], operands: &[&'a str]) -> Result<Args<'a>, Wrong<'a>>
    requires { map (λ s. s.now) operands.now ≡ operands_of (givens_of givens.now) }
    ensures { read_as work_of_args result ≡ work_of Is.Move (givens_of givens.now) }
{
    let distance = distance_at(operands, 0)?;
    Ok(Args::Move(MoveArgs {
        distance,
        file: file_at(operands, 1),
    }))
}

fn symbols_args<'a>(givens: &[Given<'a>], operands: &[&'a str]) -> Result<Args<'a>, Wrong<'a>>
    requires { map (λ s. s.now) operands.now ≡ operands_of (givens_of givens.now) }
    ensures { read_as work_of_args result ≡ work_of Is.Symbols (givens_of givens.now) }
{
    let base = address_of(Setting::Base, givens)?;
    Ok(Args::Symbols(SymbolsArgs {
        json: has_json(givens),
        base,
        file: file_at(operands, 0),
    }))
}

fn nearest_args<'a>(givens: &[Given<'a>], operands: &[&'a str]) -> Result<Args<'a>, Wrong<'a>>
    requires { map (λ s. s.now) operands.now ≡ operands_of (givens_of givens.now) }
    ensures { read_as work_of_args result ≡ work_of Is.Nearest (givens_of givens.now) }
{
    let base = address_of(Setting::Base, givens)?;
    let address = address_at(operands, 0)?;
    Ok(Args::Nearest(NearestArgs {
        json: has_json(givens),
        base,
        address,
        file: file_at(operands, 1),
    }))
}

fn why_args<'a>(givens: &[Given<'a>], files: Vec<Source<'a>>) -> Result<Args<'a>, Wrong<'a>>
    requires { map from_of files.items ≡ all_froms (operands_of (givens_of givens.now)) }
    ensures { read_as work_of_args result ≡ work_of Is.Why (givens_of givens.now) }
{
    let base = address_of(Setting::Base, givens)?;
    let line = line_of(givens)?;
    Ok(Args::Why(WhyArgs {
        json: has_json(givens),
        base,
        branches: value_of(Setting::Branches, givens),
        line,
        files,
    }))
}

fn tidy_args<'a>(givens: &[Given<'a>], operands: &[&'a str]) -> Result<Args<'a>, Wrong<'a>>
    requires { map (λ s. s.now) operands.now ≡ operands_of (givens_of givens.now) }
    ensures { read_as work_of_args result ≡ work_of Is.Tidy (givens_of givens.now) }
{
    Ok(Args::Tidy(TidyArgs {
        file: file_at(operands, 0),
    }))
}

fn run_args<'a>(givens: &[Given<'a>], operands: &[&'a str]) -> Result<Args<'a>, Wrong<'a>>
    requires { map (λ s. s.now) operands.now ≡ operands_of (givens_of givens.now) }
    ensures { read_as work_of_args result ≡ work_of Is.Run (givens_of givens.now) }
{
    let a = registers_of(givens)?;
    let sweep = sweep_of(givens)?;
    let start = address_at(operands, 0)?;
    let limit = limit_at(operands, 1)?;
    Ok(Args::Run(RunArgs {
        json: has_json(givens),
        a,
        start,
        limit,
        sweep,
        file: file_at(operands, 2),
    }))
}

fn sheet_args<'a>(
    givens: &[Given<'a>],
    operands: &[&'a str],
    sheets: Vec<&'a str>,
) -> Result<Args<'a>, Wrong<'a>>
    requires operands { map (λ s. s.now) operands.now ≡ operands_of (givens_of givens.now) }
    requires sheets { map (λ s. s.now) sheets.items ≡ values_of Of.Sheet (givens_of givens.now) }
    ensures { read_as work_of_args result ≡ work_of Is.Sheet (givens_of givens.now) }
{
    Ok(Args::Sheet(SheetArgs {
        json: has_json(givens),
        sheets,
        file: file_at(operands, 0),
    }))
}

fn list_args<'a>(givens: &[Given<'a>], files: Vec<Source<'a>>) -> Result<Args<'a>, Wrong<'a>>
    requires { map from_of files.items ≡ all_froms (operands_of (givens_of givens.now)) }
    ensures { read_as work_of_args result ≡ work_of Is.List (givens_of givens.now) }
{
    let base = address_of(Setting::Base, givens)?;
    Ok(Args::List(ListArgs {
        base,
        branches: value_of(Setting::Branches, givens),
        files,
    }))
}

fn check_args<'a>(givens: &[Given<'a>], files: Vec<Source<'a>>) -> Result<Args<'a>, Wrong<'a>>
    requires { map from_of files.items ≡ all_froms (operands_of (givens_of givens.now)) }
    ensures { read_as work_of_args result ≡ work_of Is.Check (givens_of givens.now) }
{
    let base = address_of(Setting::Base, givens)?;
    Ok(Args::Check(CheckArgs {
        base,
        branches: value_of(Setting::Branches, givens),
        files,
    }))
}

// The arguments of a command.
fn args_of<'a>(
    alloc: Global,
    command: Command,
    givens: &[Given<'a>],
    operands: &[&'a str],
) -> Result<Result<Args<'a>, Wrong<'a>>, AllocError>
    requires { map (λ s. s.now) operands.now ≡ operands_of (givens_of givens.now) }
    ensures { IfOk result (λ r. read_as work_of_args r ≡ work_of command (givens_of givens.now)) }
{
    match command {
        Command::Assemble => Ok(assemble_args(givens, operands)),
        Command::Manual => Ok(manual_args(givens, operands)),
        Command::Move => Ok(move_args(givens, operands)),
        Command::Symbols => Ok(symbols_args(givens, operands)),
        Command::Nearest => Ok(nearest_args(givens, operands)),
        Command::Why => Ok(why_args(givens, sources_of(alloc, operands)?)),
        Command::Tidy => Ok(tidy_args(givens, operands)),
        Command::Run => Ok(run_args(givens, operands)),
        Command::Sheet => {
            let sheets = values_of(alloc, Setting::Sheet, givens)?;
            Ok(sheet_args(givens, operands, sheets))
        }
        Command::List => Ok(list_args(givens, sources_of(alloc, operands)?)),
        Command::Check => Ok(check_args(givens, sources_of(alloc, operands)?)),
    }
}

// ---- What the words of a command ask for.

// What is wrong with them.
fn complain<'a>(alloc: Global, command: Command, wrong: Wrong<'_>) -> Result<Parsed<'a>, AllocError>
    ensures { IfOk result (λ p. asked p ≡ complains command (complaint_of wrong.entry)) }
{
    let text = complaint_text(alloc, command, wrong)?;
    Ok(Parsed::Misuse(Some(command), text))
}

// A call; or the first of its names that is none: of the files that are read, or else of the output.
fn named_call<'a>(call: Call<'a>, unread: Option<&'a str>) -> Parsed<'a>
    ensures { asked result
        ≡ named_by Open (option_map (λ s. s.now) unread.entry)
        (named_by Write (broken_in (option_map (λ s. s.now) call.entry.output)) (calls (call_of call.entry))) }
{
    match unread {
        Some(name) => Parsed::Unnamed(What::Open, shown_name(name)),
        None => match broken(call.output) {
            Some(name) => Parsed::Unnamed(What::Write, shown_name(name)),
            None => Parsed::Run(call),
        },
    }
}

// What is given asks for a call.
fn parse_givens<'a>(
    alloc: Global,
    command: Command,
    givens: &[Given<'a>],
) -> Result<Parsed<'a>, AllocError>
    ensures { IfOk result (λ p. asked p ≡ asked_by command (givens_of givens.now) (work_of command (givens_of givens.now))) }
{
    let operands = operands_of(alloc, givens)?;
    let unread = unread_name(alloc, command, givens, operands.as_slice())?;
    match args_of(alloc, command, givens, operands.as_slice()) {
        Ok(Ok(args)) => {
            let output = named_file(value_of(Setting::Output, givens));
            Ok(named_call(Call { args, output }, unread))
        }
        Ok(Err(wrong)) => complain(alloc, command, wrong),
        Err(error) => Err(error),
    }
}

// ---- Help and the version.

// The help of all commands.
#[tactic(auto, using(crate::proofs::Gathered::nothing_between))]
fn whole_help(alloc: Global) -> Result<Vec<u8>, AllocError>
    ensures { IfOk result (λ t. t.items ≡ help_text refusals_text) }
{
    let mut text = help(alloc, "")?.into_bytes();
    text.extend_from_slice(refusals())?;
    Ok(text)
}

fn print_help<'a>(alloc: Global) -> Result<Parsed<'a>, AllocError>
    ensures { IfOk result (λ p. asked p ≡ prints (help_text refusals_text)) }
{
    let text = whole_help(alloc)?;
    Ok(Parsed::Print(text))
}

fn print_command_help<'a>(alloc: Global, command: Command) -> Result<Parsed<'a>, AllocError>
    ensures { IfOk result (λ p. asked p ≡ prints (command_help_text command)) }
{
    let text = command_help(alloc, command)?;
    Ok(Parsed::Print(text.into_bytes()))
}

fn print_version<'a>(alloc: Global) -> Result<Parsed<'a>, AllocError>
    ensures { IfOk result (λ p. asked p ≡ prints VERSION.now) }
{
    let text = VERSION.as_bytes().to_vec(alloc)?;
    Ok(Parsed::Print(text))
}

// ---- The words.

// The words of a command, those after its name.
fn parse_command<'a>(
    alloc: Global,
    command: Command,
    words: &'a [String],
) -> Result<Parsed<'a>, AllocError>
    ensures { IfOk result (λ p. asked p ≡ asked_at command (given_in command (map (λ w. string_bytes w) words.now))) }
{
    match read_words(alloc, command, words) {
        Ok(givens) => parse_givens(alloc, command, givens.as_slice()),
        Err(Stop::Help) => print_command_help(alloc, command),
        Err(Stop::Version) => print_version(alloc),
        Err(Stop::Wrong(wrong)) => complain(alloc, command, wrong),
        Err(Stop::NoMemory) => Err(AllocError),
    }
}

// The first word names no command.
fn no_such_command<'a>(alloc: Global, word: &str) -> Result<Parsed<'a>, AllocError>
    ensures { IfOk result (λ p. asked p ≡ fails (misused None (codes "no command " ++ shown word.now))) }
{
    let text = joined(alloc, "no command ".as_bytes(), shown(word.as_bytes()), &[])?;
    Ok(Parsed::Misuse(None, text))
}

// There is no word.
fn no_command<'a>(alloc: Global) -> Result<Parsed<'a>, AllocError>
    ensures { IfOk result (λ p. asked p ≡ fails (misused None (codes "no command"))) }
{
    let text = "no command".as_bytes().to_vec(alloc)?;
    Ok(Parsed::Misuse(None, text))
}

// The first word, and those after it.
fn parse_first<'a>(alloc: Global, word: &str, words: &'a [String]) -> Result<Parsed<'a>, AllocError>
    ensures { IfOk result (λ p. asked p ≡ asked_of (word.now ∷ map (λ w. string_bytes w) words.now)) }
{
    if word == "--help" {
        return print_help(alloc);
    }
    if word == "--version" {
        return print_version(alloc);
    }
    match command_named(word) {
        Some(command) => parse_command(alloc, command, words),
        None => no_such_command(alloc, word),
    }
}

/// What the words after the program's name ask for.
#[tactic(auto, using(crate::proofs::Gathered::no_words, crate::proofs::Gathered::some_words))]
pub fn parse<'a>(alloc: Global, words: &'a [String]) -> Result<Parsed<'a>, AllocError>
    ensures { IfOk result (λ p. asked p ≡ asked_of (map (λ w. string_bytes w) words.now)) }
{
    match words.split_first() {
        Some((first, rest)) => parse_first(alloc, first.as_str(), rest),
        None => no_command(alloc),
    }
}
