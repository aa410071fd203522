//! Sheets and scripts in memory: what is put, and what is said where nothing is.
use make_sheet::serve_sheet;
use outcome::opening::Opening;
use outcome::output::Stream;
use outcome::{Outcome, What, Which, status};
use std::io;
use std::io::{Error, ErrorKind, Read};

// Files by their names, and the names on standard input.
#[derive(Drop)]
struct Shelf<'a> {
    files: &'a [(&'a str, &'a [u8])],
    names: &'a [u8],
}

// Gives a text a few bytes at a time, and fails at an exclamation mark.
#[derive(Drop)]
struct Slow<'a> {
    text: &'a [u8],
}

impl<'a> Read for Slow<'a> {
    fn read(&mut self, buf: &mut [u8]) -> io::Result<usize> {
        let whole = self.text.iter().position(|b| *b == b'!');
        let n = whole.unwrap_or(self.text.len()).min(buf.len()).min(5);
        if n == 0 && whole.is_some() {
            return Err(Error::from(ErrorKind::IsADirectory));
        }
        buf[..n].copy_from_slice(&self.text[..n]);
        self.text = &self.text[n..];
        Ok(n)
    }
}

impl<'a> Opening for Shelf<'a> {
    type Reader = Slow<'a>;

    fn open(&self, name: Option<&str>) -> Result<Slow<'a>, Error> {
        let Some(name) = name else {
            return Ok(Slow { text: self.names });
        };
        match self.files.iter().find(|file| file.0 == name) {
            Some(file) => Ok(Slow { text: file.1 }),
            None => Err(Error::from_raw_os_error(2)),
        }
    }
}

const DAY: &[u8] =
    b"skipped 1\norg 0\nlabel 0\ndata 0\nword 1\nwordless 0\nend 0\nwords 1\nmarked 0\nlabels 3\naccepted 1\nrefused 1\nmean 1 1\n";

const FULL: &[u8] =
    b"skipped 0\norg 0\nlabel 0\ndata 0\nword 0\nwordless 0\nend 0\nwords 0\nmarked 0\nlabels 0\naccepted 999999\nrefused 1\nmean 0 999999\n";

const HIGH: &[u8] =
    b"skipped 0\norg 0\nlabel 0\ndata 0\nword 0\nwordless 0\nend 0\nwords 8589934593\nmarked 0\nlabels 0\naccepted 0\nrefused 0\nmean 8589934593 0\n";

const NONE: &[u8] =
    b"skipped 0\norg 0\nlabel 0\ndata 0\nword 0\nwordless 0\nend 0\nwords 0\nmarked 0\nlabels 0\naccepted 0\nrefused 0\nmean 0 0\n";

const FILES: [(&str, &[u8]); 9] = [
    ("day", DAY),
    ("full", FULL),
    ("high", HIGH),
    ("torn", b"skipped 1\norg x\n"),
    ("a.s", b"NOP\n"),
    ("b.s", b"GO: NOP\nBNE GO"),
    ("bad.s", b"NOP\xFF"),
    ("cut.s", b"NOP!"),
    ("cut", b"skipped 1!"),
];

// What a call comes to, what it puts, and what it says.
#[derive(Drop)]
struct Answer {
    outcome: Outcome,
    put: Vec<u8>,
    said: Vec<u8>,
}

fn serve(rt: &HostRuntime, sheets: &[&str], names: &[u8], json: bool) -> Answer {
    let files = Shelf {
        files: &FILES,
        names,
    };
    let mut out = Stream {
        clock: rt,
        to: Vec::new(rt.alloc()),
    };
    let mut said = Vec::new(rt.alloc());
    let outcome = serve_sheet(
        rt.alloc(),
        &files,
        sheets,
        None,
        json,
        "standard output",
        &mut out,
        &mut said,
    );
    Answer {
        outcome,
        put: out.to,
        said,
    }
}

#[test]
fn sheets_that_are_put(rt: HostRuntime) {
    // The last name may have no byte 10.
    let both =
        b"skipped 2\norg 0\nlabel 0\ndata 0\nword 4\nwordless 0\nend 0\nwords 4\nmarked 0\nlabels 3\naccepted 3\nrefused 1\nmean 4 3\n".as_slice();
    // A script that is refused is counted.
    let bad =
        b"skipped 0\norg 0\nlabel 0\ndata 0\nword 0\nwordless 0\nend 0\nwords 0\nmarked 0\nlabels 0\naccepted 0\nrefused 2\nmean 0 0\n".as_slice();
    let line =
        b"{\"accepted\":3,\"data\":0,\"end\":0,\"label\":0,\"labels\":3,\"marked\":0,\"org\":0,\"refused\":1,\"skipped\":2,\"word\":4,\"wordless\":0,\"words\":4}\n".as_slice();
    for (sheets, names, json, want) in [
        (["day"].as_slice(), b"a.s\nb.s\n".as_slice(), false, both),
        (["day"].as_slice(), b"a.s\nb.s".as_slice(), false, both),
        (["day"].as_slice(), b"a.s\nb.s".as_slice(), true, line),
        ([].as_slice(), b"bad.s\nbad.s\n".as_slice(), false, bad),
        ([].as_slice(), b"".as_slice(), false, NONE),
        (["day"].as_slice(), b"".as_slice(), false, DAY),
    ] {
        let answer = serve(&rt, sheets, names, json);
        assert!(rt; matches!(answer.outcome, Outcome::Accepted));
        assert_eq!(rt; answer.put.as_slice(), want);
        assert!(rt; answer.said.is_empty());
    }
}

// Nothing is put; the file that cannot be read or added is said.
#[test]
fn calls_that_put_nothing(rt: HostRuntime) {
    for (sheets, names, code, want) in [
        // Not there, a script, an empty name, and a sheet; and one whose name is no text.
        (
            ["day"].as_slice(),
            b"a.s\nnone.s\nb.s\n".as_slice(),
            3,
            b"cannot open none.s: No such file or directory\n".as_slice(),
        ),
        (
            [].as_slice(),
            b"\na.s\n".as_slice(),
            3,
            b"cannot open : No such file or directory\n".as_slice(),
        ),
        (
            ["day", "night"].as_slice(),
            b"none.s\n".as_slice(),
            3,
            b"cannot open night: No such file or directory\n".as_slice(),
        ),
        (
            [].as_slice(),
            b"a.s\n\xC3.s\n".as_slice(),
            3,
            b"cannot open \xC3.s: the name is not UTF-8\n".as_slice(),
        ),
        // Not read to the end, the second script, a sheet, and the names.
        (
            [].as_slice(),
            b"a.s\ncut.s\n".as_slice(),
            3,
            b"cannot read cut.s: is a directory\n".as_slice(),
        ),
        (
            ["cut"].as_slice(),
            b"".as_slice(),
            3,
            b"cannot read cut: is a directory\n".as_slice(),
        ),
        (
            [].as_slice(),
            b"a.s\nb.s\n!".as_slice(),
            3,
            b"cannot read standard input: is a directory\n".as_slice(),
        ),
        // No sheet; too many scripts; a total that is too high.
        (
            ["day", "torn"].as_slice(),
            b"".as_slice(),
            1,
            b"torn: not a sheet: line 2\n".as_slice(),
        ),
        (
            ["full"].as_slice(),
            b"a.s\n".as_slice(),
            1,
            b"a.s: refused 20 at count 1000000: more than 1,000,000 sources\n".as_slice(),
        ),
        (
            ["full", "day"].as_slice(),
            b"".as_slice(),
            1,
            b"day: refused 20 at count 1000000: more than 1,000,000 sources\n".as_slice(),
        ),
        (
            ["day", "high"].as_slice(),
            b"a.s\n".as_slice(),
            1,
            b"high: refused 21: a total above 2^33\n".as_slice(),
        ),
    ] {
        let answer = serve(&rt, sheets, names, false);
        assert_eq!(rt; status(&answer.outcome), code);
        assert!(rt; answer.put.is_empty());
        assert_eq!(rt; answer.said.strip_prefix(b"lagvettu: "), Some(want));
    }
}
