//! A file put over the small disk in memory, each step failing once, and over the system's.
use outcome::output::Output;
use std::alloc::{AllocError, Global};
use std::fs::Permissions;
use std::io::{Error, ErrorKind};
use std::os::unix::fs::{MetadataExt, PermissionsExt, symlink};
use std::{fs, io};
use wholefile::beside::{beside, folder};
use wholefile::limit::limit_in;
use wholefile::memory::{Memory, Stored};
use wholefile::output::WholeFile;
use wholefile::placing::put;
use wholefile::system::System;
use wholefile::{Kept, Placed};

// No step fails.
const NEVER: usize = usize::MAX;

const OLD: Kept = Kept {
    owner: 1000,
    group: 50,
    rights: 0o640,
};

// An empty disk of owner 7 and group 8, whose mask takes all writing from others and the group.
fn empty(alloc: Global, fails_at: usize) -> Memory {
    Memory {
        alloc,
        out: None,
        fresh: None,
        given: Vec::new(alloc),
        owner: 7,
        group: 8,
        mask: 0o755,
        limit: 100,
        is_writable: true,
        takes_owner: true,
        takes_group: true,
        removes: true,
        is_settled: false,
        is_stuck: false,
        fails_at,
    }
}

// With an old file.
fn with_old(alloc: Global, fails_at: usize) -> Result<Memory, AllocError> {
    let text = Vec::from_slice(alloc, b"old")?;
    let mut disk = empty(alloc, fails_at);
    disk.out = Some(Stored {
        text,
        synced: true,
        kept: OLD,
    });
    Ok(disk)
}

// Whether the file is as said, and sure to be kept.
fn holds(file: &Option<Stored>, text: &[u8], kept: Kept) -> bool {
    match file {
        Some(file) => file.synced && file.kept == kept && file.text.as_slice() == text,
        None => false,
    }
}

#[test]
fn a_new_file(rt: HostRuntime) {
    let mut disk = empty(rt.alloc(), NEVER);
    let placed = put(&mut disk, rt.alloc(), "out", b"new text");
    let mine = Kept {
        owner: 7,
        group: 8,
        rights: 0o644,
    };
    assert!(rt; matches!(placed, Ok(Placed::Settled)));
    assert!(rt; holds(&disk.out, b"new text", mine));
    assert!(rt; disk.fresh.is_none());
    assert!(rt; disk.is_settled);
}

#[test]
fn over_the_old_one(rt: HostRuntime) {
    for path in ["out", "link"] {
        let mut disk = with_old(rt.alloc(), NEVER).expect(&rt, "memory");
        let placed = put(&mut disk, rt.alloc(), path, b"new text");
        assert!(rt; matches!(placed, Ok(Placed::Settled)));
        assert!(rt; holds(&disk.out, b"new text", OLD));
        assert!(rt; disk.fresh.is_none());
    }
}

#[test]
fn into_a_device(rt: HostRuntime) {
    let mut disk = empty(rt.alloc(), NEVER);
    let placed = put(&mut disk, rt.alloc(), "dev", b"new text");
    assert!(rt; matches!(placed, Ok(Placed::Poured)));
    assert_eq!(rt; disk.given.as_slice(), b"new text".as_slice());
    assert!(rt; disk.out.is_none());
    let mut disk = empty(rt.alloc(), 1);
    assert!(rt; put(&mut disk, rt.alloc(), "dev", b"new text").is_err());
    assert_eq!(rt; disk.given.as_slice(), b"new ".as_slice());
}

// The old file stands, or the new one, whole, and nothing else.
fn stands(disk: &Memory, placed: &Result<Placed, Error>, new: Kept) -> bool {
    if disk.fresh.is_some() {
        return false;
    }
    match placed {
        Ok(_) => holds(&disk.out, b"new text", new),
        Err(_) => holds(&disk.out, b"old", OLD),
    }
}

#[test]
fn each_step_fails_once(rt: HostRuntime) {
    for fails_at in 0..16 {
        let mut disk = with_old(rt.alloc(), fails_at).expect(&rt, "memory");
        let placed = put(&mut disk, rt.alloc(), "link", b"new text");
        // The step of number 8 gives the file its owner: without it the group is kept, and the file is of the one who puts it.
        let owner = if fails_at == 8 { 7 } else { OLD.owner };
        assert!(rt; stands(&disk, &placed, Kept { owner, ..OLD }));
        match fails_at {
            8 => assert!(rt; matches!(placed, Ok(Placed::Settled))),
            12 => assert!(rt; matches!(placed, Ok(Placed::Unsettled(_)))),
            0..=11 => assert!(rt; placed.is_err()),
            _ => assert!(rt; matches!(placed, Ok(Placed::Settled))),
        }
    }
}

#[test]
fn each_step_fails_once_for_a_new_file(rt: HostRuntime) {
    let mine = Kept {
        owner: 7,
        group: 8,
        rights: 0o644,
    };
    for fails_at in 0..12 {
        let mut disk = empty(rt.alloc(), fails_at);
        let placed = put(&mut disk, rt.alloc(), "out", b"new text");
        assert!(rt; disk.fresh.is_none());
        if fails_at < 8 {
            assert!(rt; placed.is_err());
            assert!(rt; disk.out.is_none());
        } else {
            assert!(rt; placed.is_ok());
            assert!(rt; holds(&disk.out, b"new text", mine));
        }
    }
}

#[test]
fn a_group_that_cannot_be_kept(rt: HostRuntime) {
    let mut disk = with_old(rt.alloc(), NEVER).expect(&rt, "memory");
    disk.takes_group = false;
    match put(&mut disk, rt.alloc(), "out", b"new text") {
        Ok(_) => assert!(rt; false),
        Err(e) => {
            let said = format!(in rt.alloc(); "{e}").expect(&rt, "memory");
            assert_eq!(rt; said.as_str(), "its group cannot be kept");
        }
    }
    assert!(rt; holds(&disk.out, b"old", OLD));
    assert!(rt; disk.fresh.is_none());
}

#[test]
fn a_file_that_may_not_be_written(rt: HostRuntime) {
    let mut disk = with_old(rt.alloc(), NEVER).expect(&rt, "memory");
    disk.is_writable = false;
    assert!(rt; put(&mut disk, rt.alloc(), "out", b"new text").is_err());
    assert!(rt; holds(&disk.out, b"old", OLD));
    let mut disk = with_old(rt.alloc(), NEVER).expect(&rt, "memory");
    disk.limit = 7;
    assert!(rt; put(&mut disk, rt.alloc(), "out", b"new text").is_err());
    assert!(rt; holds(&disk.out, b"old", OLD));
    assert!(rt; disk.fresh.is_none());
}

#[test]
fn what_cannot_be_removed_stays_beside(rt: HostRuntime) {
    let mut disk = with_old(rt.alloc(), 7).expect(&rt, "memory");
    disk.removes = false;
    assert!(rt; put(&mut disk, rt.alloc(), "out", b"new text").is_err());
    assert!(rt; holds(&disk.out, b"old", OLD));
    assert!(rt; disk.fresh.is_some());
    assert!(rt; disk.is_stuck);
}

#[test]
fn a_folder_that_is_not_sure_is_an_error_of_the_output(rt: HostRuntime) {
    let mut file = WholeFile {
        disk: with_old(rt.alloc(), 12).expect(&rt, "memory"),
        alloc: rt.alloc(),
        path: "out",
    };
    assert!(rt; file.put(b"new text").is_err());
    assert!(rt; holds(&file.disk.out, b"new text", OLD));
    let mut file = WholeFile {
        disk: empty(rt.alloc(), NEVER),
        alloc: rt.alloc(),
        path: "out",
    };
    assert!(rt; file.put(b"new text").is_ok());
}

#[test]
fn the_names(rt: HostRuntime) {
    let drawn = [0, 25, 26, 31, 32, 255];
    let beside = beside(rt.alloc(), "some/folder/out", &drawn).expect(&rt, "memory");
    assert_eq!(rt; beside.as_str(), "some/folder/.lagvettu-az27a7");
    assert_eq!(rt; folder("some/folder/out"), "some/folder");
    assert_eq!(rt; folder("/out"), "/");
    assert_eq!(rt; folder("out"), ".");
}

#[test]
fn the_limit(rt: HostRuntime) {
    let table =
        b"Limit                     Soft Limit           Hard Limit           Units     \nMax cpu time              unlimited            unlimited            seconds   \nMax file size             512                  unlimited            bytes     \n";
    assert_eq!(rt; limit_in(table), Some(512));
    assert_eq!(rt;
        limit_in(
            b"Max file size             unlimited            unlimited            bytes     \n"
        ),
        None
    );
    assert_eq!(rt; limit_in(b""), None);
}

// How many names a folder has.
fn names_in(rt: &HostRuntime, folder: &str) -> io::Result<usize> {
    let mut names = 0;
    for entry in fs::read_dir(rt, folder)? {
        let _ = entry?;
        names = usize::min(names, 99) + 1;
    }
    Ok(names)
}

// The rights of a file that has the text.
fn rights_of(rt: &HostRuntime, path: &str, text: &str) -> io::Result<Option<u32>> {
    if fs::read_to_string(rt, path)?.as_str() != text {
        return Ok(None);
    }
    Ok(Some(fs::metadata(rt, path)?.mode() & 0o777))
}

// A new file, and another in its place, with its rights.
fn puts_files(rt: &HostRuntime, out: &str) -> io::Result<bool> {
    let mut disk = System { rt };
    let placed = put(&mut disk, rt.alloc(), out, b"one")?;
    let first = rights_of(rt, out, "one")?;
    fs::set_permissions(rt, out, Permissions::from_mode(0o604))?;
    put(&mut disk, rt.alloc(), out, b"two")?;
    let second = rights_of(rt, out, "two")?;
    Ok(matches!(placed, Placed::Settled) && first.is_some() && second == Some(0o604))
}

// Through a link, which stays; but a link to nothing is replaced.
fn follows_links(rt: &HostRuntime, out: &str, link: &str) -> io::Result<bool> {
    let mut disk = System { rt };
    symlink(rt, "out", link)?;
    put(&mut disk, rt.alloc(), link, b"three")?;
    let third = rights_of(rt, out, "three")?;
    let stays = fs::symlink_metadata(rt, link)?.is_symlink();
    fs::remove_file(rt, out)?;
    put(&mut disk, rt.alloc(), link, b"four")?;
    let is_replaced = !fs::symlink_metadata(rt, link)?.is_symlink();
    Ok(third == Some(0o604) && stays && is_replaced)
}

// Why a text was not put.
fn why(placed: Result<Placed, Error>) -> Option<ErrorKind> {
    match placed {
        Ok(_) => None,
        Err(e) => Some(e.kind()),
    }
}

// Where there is no folder, into a folder, and into devices.
fn says_why(rt: &HostRuntime, folder: &str, nowhere: &str) -> io::Result<bool> {
    let mut disk = System { rt };
    let missing = why(put(&mut disk, rt.alloc(), nowhere, b"five"));
    let into_folder = why(put(&mut disk, rt.alloc(), folder, b"six"));
    let full = why(put(&mut disk, rt.alloc(), "/dev/full", b"seven"));
    let placed = put(&mut disk, rt.alloc(), "/dev/null", b"eight")?;
    Ok(
        missing == Some(ErrorKind::NotFound)
            && into_folder == Some(ErrorKind::IsADirectory)
            && full == Some(ErrorKind::StorageFull)
            && matches!(placed, Placed::Poured),
    )
}

// In a folder of its own, where one file is left.
fn works_in(rt: &HostRuntime, folder: &str) -> io::Result<bool> {
    let out = format!(in rt.alloc(); "{folder}/out")?;
    let link = format!(in rt.alloc(); "{folder}/link")?;
    let nowhere = format!(in rt.alloc(); "{folder}/missing/out")?;
    let puts = puts_files(rt, out.as_str())?;
    let follows = follows_links(rt, out.as_str(), link.as_str())?;
    let says = says_why(rt, folder, nowhere.as_str())?;
    let names = names_in(rt, folder)?;
    Ok(puts && follows && says && names == 1)
}

#[test]
fn on_the_system(rt: HostRuntime) {
    let id = std::process::id(rt.process());
    let folder = format!(in rt.alloc(); "/tmp/wholefile-{id}").expect(&rt, "memory");
    fs::create_dir(&rt, folder.as_str()).expect(&rt, "a folder");
    let works = works_in(&rt, folder.as_str());
    fs::remove_dir_all(&rt, folder.as_str()).expect(&rt, "the folder is removed");
    assert!(rt; works.expect(&rt, "the disk"));
}
