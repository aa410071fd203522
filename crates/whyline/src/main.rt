#![tactic(auto)]

//! Says why a line of a script has no word. It reads the script on standard input, takes the line, a decimal number from 1, and, if it
//! is not 0, the base of the script, a hexadecimal number of 32 bits with or without `$` or `0x`, and prints on standard output
//!   `word emitted`, or the first reason that holds: `not an instruction`, `unknown mnemonic`, `wrong operand count`, `operand
//!   kinds`, `number: ` and what failed in it, `label not recorded`, `displacement out of range`;
//!   `refused N P`, the refusal and its place, if the script is refused, or by 13 if there is no such line or it is never read.
//! Without a line it prints this for every line that is read, at base 0, each with its number and a space in front. If the first
//! arguments are `-b FILE`, it reads a branch table from FILE, which stands in place of the built-in branch names.
//! A script over the limit of 32,768 bytes is read to its end for its length, the place of refusal 1.
//! If the table or the script cannot be read to its end it prints nothing. It says that on standard error, and there too if standard
//! output does not take all that it prints, or if its arguments are no such numbers or more than two: it reads nothing then.
use branchtext::tabled_why_text;
use console::{ARGUMENT, CHUNK, argument, argument_count};
use station::arguments::given_table;
use station::failure::{SAID, tabled_failure_text};
use station::input::read_behind;
use station::{SCRIPT, TABLE, TEXT};
use tablefile::read_table;
use whytext::asked_by;

fn main(rt: HostRuntime) {
    let mut option = [0u8; ARGUMENT];
    let mut file = [0u8; ARGUMENT];
    let option_size = argument(&rt, 1, &mut option);
    let file_size = argument(&rt, 2, &mut file);
    let given = given_table(
        argument_count(&rt),
        &option[..option_size],
        &file[..file_size],
    );
    let mut line = [0u8; ARGUMENT];
    let mut base = [0u8; ARGUMENT];
    let line_size = argument(&rt, given.first, &mut line);
    let base_size = argument(&rt, given.second, &mut base);
    let Ok(asked) = asked_by(given.count, &line[..line_size], &base[..base_size]) else {
        let _ = rt.stderr().write_all(
            b"usage: whyline [-b FILE] [LINE [BASE]] < SCRIPT, LINE decimal, BASE hexadecimal\n",
        );
        return;
    };
    let path = given.lent.then_some(&file[..file_size]);
    let mut table = [0u8; TABLE];
    let branches = read_table(&rt, path, &mut table);
    let mut script = [0u8; SCRIPT];
    let input = read_behind::<_, CHUNK>(branches, &mut rt.stdin(), &mut script);
    let mut out = [0u8; TEXT];
    let size = tabled_why_text(
        path.is_some(),
        &table,
        branches,
        &script,
        input,
        asked,
        &mut out,
    );
    let written = rt.stdout().write_all(&out[..size]).is_ok();
    let mut said = [0u8; SAID];
    let length = tabled_failure_text(b"whyline", branches, input, written, &mut said);
    let _ = rt.stderr().write_all(&said[..length]);
}
