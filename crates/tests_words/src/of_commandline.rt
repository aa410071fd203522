use commandline::help::{VERSION, command_help, help};
use commandline::message::{command_of, message};
use commandline::parse::{Request, Start, request_of, start_of};
use commandline::table::COMMANDS;
use commandline::words::{is_whole, word_text, words_of};
use commandline::{Asked, Command, Wrong};
use console::Arguments;
use std::alloc::{AllocError, Global};
use std::env::FillError;
use std::test::Fail;

// Words, and what the command in C made of them: the values that are not 0 or missing, or what it said first.
const SAME: &str = "
 => no command; see lagvettu --help
--help => help
lists => no command lists; see lagvettu --help
-o|x => no command -o; see lagvettu --help
assemble|-oFILE|x => assemble o:FILE file:x
assemble|-o|FILE|x => assemble o:FILE file:x
assemble|-o|- => assemble
assemble|-o => assemble: -o takes FILE
assemble|-o|--|x => assemble o:-- file:x
assemble|--base=2000|x => assemble base:2000 file:x
assemble|--base|2000|x => assemble base:2000 file:x
assemble|x|--base|2000 => assemble base:2000 file:x
assemble|--base|1|--base|2000|x => assemble base:2000 file:x
assemble|--base => assemble: --base takes N
assemble|--base= => assemble: --base takes N
assemble|--base|-1|x => assemble: --base takes N
assemble|--|--base => assemble file:--base
assemble|- => assemble
assemble|a|b => assemble: one FILE too many: b
assemble|-x => assemble: no option -x
assemble|--x => assemble: no option --x
assemble|--help=x => assemble: --help takes nothing
assemble|--help|--x => help of assemble
assemble|--x|--help => assemble: no option --x
assemble|--he => assemble: no option --he
assemble|-ox|-oy|z => assemble o:y file:z
move|-5|x => move distance:-5 file:x
move|-$2000|x => move distance:-8192 file:x
move|-0x2000|x => move distance:-8192 file:x
move|+5|x => move distance:5 file:x
move|--|-8192|x => move distance:-8192 file:x
move|-o|-|-8192|x => move distance:-8192 file:x
move => move: DISTANCE is missing
move|x => move: no such number: x
move|- => move: no such number: -
nearest => nearest: ADDRESS is missing
nearest|5|x => nearest address:5 file:x
nearest|--base|1 => nearest: ADDRESS is missing
run|0|9 => run limit:9
run|0 => run: START LIMIT is missing
run|0x1004|$10|-w|1002|10|11|x => run address:1004 limit:16 w:1002,10,11 file:x
run|-w|1002|10|11|0|9|x => run limit:9 w:1002,10,11 file:x
run|-w|1002|10|--|0|9 => run: -w takes ADDRESS FROM TO
run|-w|1002|--a3|11|0|9 => run: -w takes ADDRESS FROM TO
run|-w|1002|10 => run: -w takes ADDRESS FROM TO
run|0|9|--a3|5|--a8|5 => run: no option --a8
run|--a3=5|0|9 => run limit:9 a3:5
run|--a3 => run: --a3 takes N
sheet|-t|a|-t|b|-tc|x => sheet t:a t:b t:c file:x
sheet|-t => sheet: -t takes SHEET
sheet|-t|-t|x => sheet t:-t file:x
why|--line=3|- => why line:3
tidy|--base|5 => tidy: no option --base
manual|--branches|x => manual: no option --branches
assemble| => assemble file:
assemble|--branches|| => assemble branches: file:
assemble|--branches|-o|x => assemble branches:-o file:x
assemble|--help => help of assemble
assemble|--version|--x => version
assemble|-o|--help => assemble o:--help
assemble|-o|-|x => assemble file:x
assemble|--base=-1|x => assemble: --base takes N
assemble|--base=|x => assemble: --base takes N
assemble|-h => assemble: no option -h
assemble|--base=a=b => assemble: --base takes N
assemble|--bas|1 => assemble: no option --bas
assemble|--|-o|x => assemble: one FILE too many: x
assemble|x|--|-o => assemble: one FILE too many: -o
assemble|--|-- => assemble file:--
move|-o|out|-8192|x => move distance:-8192 o:out file:x
move|x|-o|y => move: no such number: x
move|-8192|-o|y|x => move distance:-8192 o:y file:x
move|-- => move: DISTANCE is missing
move|--help => help of move
move|-o => move: -o takes FILE
move|-5|-6 => move: no option -6
move|-5|x|-6 => move: no option -6
move|-5|--x => move: no option --x
nearest|-5|x => nearest: no option -5
nearest|--base|5|6|x => nearest address:6 base:5 file:x
run|0|9|x|-w|1|2|3 => run limit:9 w:1,2,3 file:x
run|-w|1|2|3|-w|4|5|6|0|9 => run limit:9 w:4,5,6
run|-w|1|--a3|3|0|9 => run: -w takes ADDRESS FROM TO
run|-w|1|--|3|0|9 => run: -w takes ADDRESS FROM TO
run|-w|1|-|3|0|9 => run: -w takes ADDRESS FROM TO
run|0|9|-w|1|2 => run: -w takes ADDRESS FROM TO
run|--a3|-1|0|9 => run: --a3 takes N
run|--a3|1|--a3|2|0|9 => run limit:9 a3:2
assemble|--base|G|x => assemble: --base takes N
assemble|--base|100000000|x => assemble: --base takes N
assemble|--base|FFFFFFFF|x => assemble base:FFFFFFFF file:x
assemble|--base=+5|x => assemble base:5 file:x
assemble|--base|$+5|x => assemble base:5 file:x
assemble|--base|0x|x => assemble: --base takes N
assemble|--base|++5|x => assemble: --base takes N
why|--line|4294967295|x => why line:4294967295 file:x
why|--line|4294967296|x => why: --line takes N
why|--line|$10|x => why line:16 file:x
why|--line|+5|x => why: --line takes N
run|0|18446744073709551615|x => run limit:18446744073709551615 file:x
run|0|18446744073709551616|x => run: no such number: 18446744073709551616
run|0|0xFFFFFFFFFFFFFFFF|x => run limit:18446744073709551615 file:x
run|0|0x10000000000000000|x => run: no such number: 0x10000000000000000
run|0|+5|x => run: no such number: +5
run|0|9|-w|1002|65535|65535|x => run limit:9 w:1002,65535,65535 file:x
run|0|9|-w|1002|65536|65536|x => run: -w takes ADDRESS FROM TO
run|0|9|-w|1002|5|4|x => run: -w takes ADDRESS FROM TO
run|0|9|-w|G|5|6|x => run: -w takes ADDRESS FROM TO
run|0|9|--a0|1|--a1|2|--a2|3|--a3|4|--a4|5|--a5|6|--a6|7|--a7|FfFf|x => run limit:9 a0:1 a1:2 a2:3 a3:4 a4:5 a5:6 a6:7 a7:FFFF file:x
move|2147483647|x => move distance:2147483647 file:x
move|2147483648|x => move: no such number: 2147483648
move|-2147483648|x => move distance:-2147483648 file:x
move|-2147483649|x => move: no such number: -2147483649
move|0x7FFFFFFF|x => move distance:2147483647 file:x
move|+$10|x => move distance:16 file:x
move|-|x => move: no such number: -
nearest|100C|x => nearest address:100C file:x
nearest|$100C => nearest address:100C
nearest|0x+100c|- => nearest address:100C
nearest|1000000000 => nearest: no such number: 1000000000
nearest|x => nearest: no such number: x
tidy|x|--version => version
manual|--json|x => manual: no option --json
nearest|--line|5|6 => nearest: no option --line
symbols|--base|5|-o|-|- => symbols base:5
--version => version
--help|x => help
list|--help|a => help of list
assemble|-o|a|-o|-|x => assemble file:x
";

// Words of which more, or something else, is made now.
const CHANGED: &str = "
assemble|-o=FILE|x => assemble o:FILE file:x
assemble|-hx => assemble: no option -h
move|--5 => move: no such number: --5
move|-x => move: no such number: -x
run|1004|-w1002|10|11|16|x => run: -w takes ADDRESS FROM TO
assemble|-ofx|-o=y|z => assemble o:y file:z
move|-x|y => move: no such number: -x
move|--x|y => move: no such number: --x
run|-w1|2|3|0|9 => run: -w takes ADDRESS FROM TO
sheet|-t|a|-tb|-t=c|-t||y => sheet t:a t:b t:c t: file:y
list|a|b|c => list file:a file:b file:c
list|a|-o|x|b|c => list o:x file:a file:b file:c
list|--|a|-b => list file:a file:-b
move|-+5|x => move: no such number: -+5
sheet|--json => sheet json
assemble|--json|--json|x => assemble file:x json
assemble|--json=x => assemble: --json takes nothing
assemble|--base|G|--help => help of assemble
nearest|G|--help => help of nearest
assemble|-xyz => assemble: no option -x
why|a|b|-o|x|c|--line|3 => why o:x line:3 file:a file:b file:c
why|a|-|--json => why file:a file:- json
check => check
check|a|b|--base|10|--branches|t|-|-o|f => check o:f base:10 branches:t file:a file:b file:-
check|--json|a => check: no option --json
check|--line|3|a => check: no option --line
list|--json|a => list: no option --json
run|0|9|--json|x|-w|0|1|2 => run limit:9 w:0,1,2 file:x json
nearest|--json|5|x => nearest address:5 file:x json
symbols|x|--json => symbols file:x json
check|--help => help of check
";

// The values that are not 0 or missing.
fn values(alloc: Global, asked: &Asked<'_>) -> Result<String, AllocError> {
    let mut text = String::from_str(alloc, asked.command.name())?;
    if asked.address != 0 {
        write!(text, " address:{:X}", asked.address)?;
    }
    if asked.limit != 0 {
        write!(text, " limit:{}", asked.limit)?;
    }
    if asked.distance != 0 {
        write!(text, " distance:{}", asked.distance)?;
    }
    if let Some(output) = asked.output {
        write!(text, " o:{output}")?;
    }
    if asked.base != 0 {
        write!(text, " base:{:X}", asked.base)?;
    }
    if let Some(branches) = asked.branches {
        write!(text, " branches:{branches}")?;
    }
    if let Some(line) = asked.line {
        write!(text, " line:{line}")?;
    }
    for (k, a) in asked.a.iter().enumerate() {
        if *a != 0 {
            write!(text, " a{k}:{:X}", *a)?;
        }
    }
    if let Some(tries) = &asked.tries {
        write!(text, " w:{:X},{},{}", tries.address, tries.from, tries.to)?;
    }
    for sheet in &asked.sheets {
        write!(text, " t:{sheet}")?;
    }
    for file in &asked.files {
        if *file != "-" || asked.files.len() > 1 {
            write!(text, " file:{file}")?;
        }
    }
    if asked.json {
        write!(text, " json")?;
    }
    Ok(text)
}

fn split(alloc: Global, line: &str) -> Result<Vec<String>, AllocError> {
    let mut words = Vec::new(alloc);
    if !line.is_empty() {
        for word in line.split('|') {
            words.push(String::from_str(alloc, word)?)?;
        }
    }
    Ok(words)
}

fn told_of(alloc: Global, command: Command, words: &[String]) -> Result<String, AllocError> {
    match request_of(alloc, command, words) {
        Ok(Request::Help) => format!(in alloc; "help of {}", command.name()),
        Ok(Request::Version) => String::from_str(alloc, "version"),
        Ok(Request::Work(asked)) => values(alloc, &asked),
        Err(wrong) => said(alloc, &wrong),
    }
}

fn said(alloc: Global, wrong: &Wrong) -> Result<String, AllocError> {
    let text = message(alloc, wrong)?;
    match command_of(wrong) {
        Some(command) => format!(in alloc; "{}: {text}", command.name()),
        None => format!(in alloc; "{text}; see lagvettu --help"),
    }
}

fn told(alloc: Global, line: &str) -> Result<String, AllocError> {
    let words = split(alloc, line)?;
    match start_of(alloc, words.as_slice()) {
        Ok(Start::Help) => String::from_str(alloc, "help"),
        Ok(Start::Version) => String::from_str(alloc, "version"),
        Ok(Start::Of(command)) => told_of(alloc, command, words.get(1..).unwrap_or(&[])),
        Err(wrong) => said(alloc, &wrong),
    }
}

#[test]
fn words_as_before(rt: HostRuntime) -> Result<(), Fail> {
    for row in SAME.lines() {
        let Some((line, want)) = row.split_once(" => ") else {
            continue;
        };
        let got = told(rt.alloc(), line)?;
        assert_eq!(rt; got.as_str(), want, "of {line}");
    }
    Ok(())
}

#[test]
fn words_that_change(rt: HostRuntime) -> Result<(), Fail> {
    for row in CHANGED.lines() {
        let Some((line, want)) = row.split_once(" => ") else {
            continue;
        };
        let got = told(rt.alloc(), line)?;
        assert_eq!(rt; got.as_str(), want, "of {line}");
    }
    Ok(())
}

// The list of the refusals, as the command in C has it.
const REFUSALS: &str = "   1  a source over 32,768 bytes
   2  a byte over 127
   3  over 4,096 lines
   4  base 2^30 or more
   5  address 2^30 or more after this line
   6  a new label when 256 are recorded
   7  more places than there is room for
   8  a distance outside +-(2^30 - 1)
   9  more places than the list has
  10  a mark over 3, or a 2 and a 3 that are not together
  11  a moved address below 0 or above 2^30 + 1
  12  no label at or below the address
  13  no such line, or one that is never read
  14  an instruction with no encoding in the manual's words
  15  a displacement out of range
  16  a cut, missing or unknown command, a 17th row or a condition over 15
  17  a branch name that starts with a blank, has a lower-case letter, comes twice or is another mnemonic
  18  a copy longer than there is room for
  19  a list address that is odd or above 16,382
  20  more than 1,000,000 sources
  21  a total above 2^33
";

// The help of all, as the command in C prints it, with `check`.
const HELP: &str = "usage: lagvettu COMMAND [options] [FILE]

Commands, each with what it prints:
  assemble  the list of a script, a line for each word: address, word, mark
  manual    the same list by the manual's own words, for a real 68000
  move      a list, moved by DISTANCE bytes
  symbols   the labels of a script, a line for each: name, address, line
  nearest   the nearest label at or below ADDRESS, and how far past it that is
  why       of each line of a script, whether it has a word, and if not why
  tidy      the tidy copy of a script: the lines that are read, without needless blanks
  run       how a run of at most LIMIT steps ends: why, steps, PC, D0 to D7, flags
  sheet     the totals of scripts: lines by class, words, labels, scripts
  list      a script for people: each line with its address and words, then the labels
  check     of each script whether it is accepted, and if not why

lagvettu COMMAND --help says which options it takes; they stand before or behind FILE, and -- ends them.
FILE is standard input where it is not named or is -. Addresses, bases and registers are hexadecimal, with or
without $ or 0x; other numbers are decimal, or hexadecimal behind $ or 0x.

Exit status: 0 accepted, 1 refused, 2 wrong use, 3 input or output failed.

Refusals; they are said on standard error. Lines count from 1, offsets and indexes from 0:
   1  a source over 32,768 bytes
   2  a byte over 127
   3  over 4,096 lines
   4  base 2^30 or more
   5  address 2^30 or more after this line
   6  a new label when 256 are recorded
   7  more places than there is room for
   8  a distance outside +-(2^30 - 1)
   9  more places than the list has
  10  a mark over 3, or a 2 and a 3 that are not together
  11  a moved address below 0 or above 2^30 + 1
  12  no label at or below the address
  13  no such line, or one that is never read
  14  an instruction with no encoding in the manual's words
  15  a displacement out of range
  16  a cut, missing or unknown command, a 17th row or a condition over 15
  17  a branch name that starts with a blank, has a lower-case letter, comes twice or is another mnemonic
  18  a copy longer than there is room for
  19  a list address that is odd or above 16,382
  20  more than 1,000,000 sources
  21  a total above 2^33
";

// The help of each: as the command in C prints it, with --json, several files and `check`; a line of = stands between.
const HELPS: &str = "usage: lagvettu assemble [-o FILE] [--base N] [--branches FILE] [--json] [FILE]

Prints the list of a script, a line for each word: address, word, mark.
FILE has a script.

  -o FILE             write FILE, whole or not at all, in place of standard output
  --base N            assemble at this base, hexadecimal, in place of 0
  --branches FILE     take the branches' names from this table, in place of the built-in eleven
  --json              print one line of JSON in place of the text
  --help              print this
  --version           print the version

lagvettu --help says how numbers are written, the exit status and the refusals.
====
usage: lagvettu manual [-o FILE] [--base N] [FILE]

Prints the same list by the manual's own words, for a real 68000.
FILE has a script.

  -o FILE             write FILE, whole or not at all, in place of standard output
  --base N            assemble at this base, hexadecimal, in place of 0
  --help              print this
  --version           print the version

lagvettu --help says how numbers are written, the exit status and the refusals.
====
usage: lagvettu move DISTANCE [-o FILE] [FILE]

Prints a list, moved by DISTANCE bytes.
FILE has a list, of assemble or manual.

  -o FILE             write FILE, whole or not at all, in place of standard output
  --help              print this
  --version           print the version

lagvettu --help says how numbers are written, the exit status and the refusals.
====
usage: lagvettu symbols [-o FILE] [--base N] [--json] [FILE]

Prints the labels of a script, a line for each: name, address, line.
FILE has a script.

  -o FILE             write FILE, whole or not at all, in place of standard output
  --base N            assemble at this base, hexadecimal, in place of 0
  --json              print one line of JSON in place of the text
  --help              print this
  --version           print the version

lagvettu --help says how numbers are written, the exit status and the refusals.
====
usage: lagvettu nearest ADDRESS [-o FILE] [--base N] [--json] [FILE]

Prints the nearest label at or below ADDRESS, and how far past it that is.
FILE has a script.

  -o FILE             write FILE, whole or not at all, in place of standard output
  --base N            assemble at this base, hexadecimal, in place of 0
  --json              print one line of JSON in place of the text
  --help              print this
  --version           print the version

lagvettu --help says how numbers are written, the exit status and the refusals.
====
usage: lagvettu why [-o FILE] [--base N] [--branches FILE] [--line N] [--json] [FILE ..]

Prints of each line of a script, whether it has a word, and if not why.
FILE has a script; of several each is printed behind a line with its name.

  -o FILE             write FILE, whole or not at all, in place of standard output
  --base N            assemble at this base, hexadecimal, in place of 0
  --branches FILE     take the branches' names from this table, in place of the built-in eleven
  --line N            say it of line N alone
  --json              print one line of JSON in place of the text
  --help              print this
  --version           print the version

lagvettu --help says how numbers are written, the exit status and the refusals.
====
usage: lagvettu tidy [-o FILE] [FILE]

Prints the tidy copy of a script: the lines that are read, without needless blanks.
FILE has a script.

  -o FILE             write FILE, whole or not at all, in place of standard output
  --help              print this
  --version           print the version

lagvettu --help says how numbers are written, the exit status and the refusals.
====
usage: lagvettu run START LIMIT [-o FILE] [--a0 N] [-w ADDRESS FROM TO] [--json] [FILE]

Prints how a run of at most LIMIT steps ends: why, steps, PC, D0 to D7, flags.
FILE has a list, of assemble or manual.

  -o FILE             write FILE, whole or not at all, in place of standard output
  --a0 N              start with this in A0, hexadecimal, in place of 0; so --a1 to --a7
  -w ADDRESS FROM TO  run with each value from FROM to TO as the words at ADDRESS, a row each
  --json              print one line of JSON in place of the text
  --help              print this
  --version           print the version

lagvettu --help says how numbers are written, the exit status and the refusals.
====
usage: lagvettu sheet [-o FILE] [-t SHEET] [--json] [FILE]

Prints the totals of scripts: lines by class, words, labels, scripts.
FILE has the names of scripts, one a line.

  -o FILE             write FILE, whole or not at all, in place of standard output
  -t SHEET            add a sheet, as sheet prints it; any number of times
  --json              print one line of JSON in place of the text
  --help              print this
  --version           print the version

lagvettu --help says how numbers are written, the exit status and the refusals.
====
usage: lagvettu list [-o FILE] [--base N] [--branches FILE] [FILE ..]

Prints a script for people: each line with its address and words, then the labels.
FILE has a script; of several each is printed behind a line with its name.

  -o FILE             write FILE, whole or not at all, in place of standard output
  --base N            assemble at this base, hexadecimal, in place of 0
  --branches FILE     take the branches' names from this table, in place of the built-in eleven
  --help              print this
  --version           print the version

lagvettu --help says how numbers are written, the exit status and the refusals.
====
usage: lagvettu check [-o FILE] [--base N] [--branches FILE] [FILE ..]

Prints of each script whether it is accepted, and if not why.
FILE has a script; of several each has a line.

  -o FILE             write FILE, whole or not at all, in place of standard output
  --base N            assemble at this base, hexadecimal, in place of 0
  --branches FILE     take the branches' names from this table, in place of the built-in eleven
  --help              print this
  --version           print the version

lagvettu --help says how numbers are written, the exit status and the refusals.
";

#[test]
fn help_texts(rt: HostRuntime) -> Result<(), Fail> {
    let all = help(rt.alloc(), REFUSALS)?;
    assert_eq!(rt; all.as_str(), HELP);
    for (want, command) in HELPS.split("====\n").zip(COMMANDS) {
        let text = command_help(rt.alloc(), command)?;
        assert_eq!(rt; text.as_str(), want);
    }
    assert_eq!(rt; VERSION, "lagvettu 1.0\n");
    Ok(())
}

// Arguments that are known: the second is no UTF-8, the third is longer than what is first made for it.
struct Known;

impl Arguments for Known {
    fn put(&self, k: usize, text: &mut [u8]) -> Result<usize, FillError> {
        let length = match k {
            0 => 1,
            1 => 4,
            2 => 3,
            3 => 700,
            4 => 0,
            _ => return Err(FillError::NotPresent),
        };
        if text.len() < length {
            return Err(FillError::TooLong);
        }
        for i in 0..length {
            text[i] = if k == 2 && i == 1 { 0xFF } else { b'n' };
        }
        Ok(length)
    }
}

#[test]
fn words_of_bytes(rt: HostRuntime) -> Result<(), Fail> {
    let words = words_of(rt.alloc(), &Known)?;
    assert_eq!(rt; words.len(), 4);
    let lengths = [4, 6, 700, 0];
    for (word, length) in words.iter().zip(lengths) {
        assert_eq!(rt; word.len(), length);
    }
    for (word, whole) in words.iter().zip([true, false, true, true]) {
        assert!(rt; is_whole(word.as_str()) == whole);
    }
    let second = words.get(1).ok_or("a second word")?;
    assert_eq!(rt; second.as_str(), "n\u{FFFD}n\0");
    let asked = split(rt.alloc(), "-o")?;
    assert_eq!(rt; asked.len(), 1);
    Ok(())
}

// A word that is no UTF-8 comes out with its byte 0.
#[test]
fn wrong_bytes_pass(rt: HostRuntime) -> Result<(), Fail> {
    let word = word_text(rt.alloc(), &[0x6E, 0xFF])?;
    let mut words = split(rt.alloc(), "-o")?;
    words.push(word.clone()?)?;
    words.push(word)?;
    let got = told_of(rt.alloc(), Command::Assemble, words.as_slice())?;
    assert_eq!(rt; got.as_str(), "assemble o:n\u{FFFD}\0 file:n\u{FFFD}\0");
    Ok(())
}
