#![tactic(auto)]

//! Assembles a script at base 0 and prints its list. It reads the script on standard input, and a branch table, which stands in place
//! of the built-in branch names, from FILE if its arguments are `-b FILE`; it prints on standard output
//!   a line for each word, if the script is accepted: address in 8 hexadecimal digits, word in 4, mark; nothing for an empty list;
//!   `refused N P`, the refusal and its place, if not.
//! A script over the limit of 32,768 bytes is read to its end for its length, the place of refusal 1.
//! If the table or the script cannot be read to its end it prints nothing. It says that on standard error, and there too if standard
//! output does not take all that it prints, or if it is given other arguments.
use branchtext::tabled_script_text;
use console::{ARGUMENT, CHUNK, argument, argument_count};
use station::arguments::{are_none, given_table};
use station::failure::{SAID, tabled_failure_text};
use station::input::read_behind;
use station::{SCRIPT, TABLE, TEXT};
use tablefile::read_table;

fn main(rt: HostRuntime) {
    let mut option = [0u8; ARGUMENT];
    let mut file = [0u8; ARGUMENT];
    let option_size = argument(&rt, 1, &mut option);
    let file_size = argument(&rt, 2, &mut file);
    let given = given_table(
        argument_count(&rt),
        &option[..option_size],
        &file[..file_size],
    );
    if !are_none(given.count) {
        let _ = rt
            .stderr()
            .write_all(b"usage: asmlist [-b FILE] < SCRIPT\n");
        return;
    }
    let mut table = [0u8; TABLE];
    let path = given.lent.then_some(&file[..file_size]);
    let branches = read_table(&rt, path, &mut table);
    let mut script = [0u8; SCRIPT];
    let input = read_behind::<_, CHUNK>(branches, &mut rt.stdin(), &mut script);
    let mut out = [0u8; TEXT];
    let size = tabled_script_text(path.is_some(), &table, branches, &script, input, &mut out);
    let written = rt.stdout().write_all(&out[..size]).is_ok();
    let mut said = [0u8; SAID];
    let length = tabled_failure_text(b"asmlist", branches, input, written, &mut said);
    let _ = rt.stderr().write_all(&said[..length]);
}
