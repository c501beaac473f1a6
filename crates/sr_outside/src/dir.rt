ghost use Rattle.std.specs.Prelude.{◌≡◌, None};

use crate::{Bytes, Loaded, Loader};
use std::alloc::{AllocError, Global};
use std::io::{ErrorKind, Read};
use std::rt::Files;
use std::{fs, io, str};

/// The most bytes that a file may have: 2^40.
const LARGEST: u64 = 1 << 40;

/// How many bytes are read at a time.
const PIECE: usize = 16_384;

/// The files of a folder of the system. It tells nothing of what they hold.
#[derive(Drop)]
pub struct DirLoader<R: Files + Drop> {
    rt: R,
    alloc: Global,
    folder: String,
    faults: u64,
    calls: u64,
    last: Option<(Bytes, Loaded)>,
}

impl<R: Files + Drop> DirLoader<R> {
    /// The files of a folder; the empty folder is the one that the process runs in.
    pub fn at(alloc: Global, rt: R, folder: String) -> DirLoader<R>
        ensures { ⟦<DirLoader<R> as Loader>⟧.last result ≡ None }
    {
        DirLoader {
            rt,
            alloc,
            folder,
            faults: 0,
            calls: 0,
            last: None,
        }
    }
}

impl<R: Files + Drop> Loader for DirLoader<R> {
    ghost held = { λ _. None };

    ghost faults = { λ loader. loader.faults };

    ghost calls = { λ loader. loader.calls };

    ghost last = { λ loader. loader.last };

    fn load(&mut self, name: &[u8]) -> Result<Loaded, AllocError> {
        self.calls = self.calls.saturating_add(1);
        self.last = None;
        let asked = Bytes::from_slice(self.alloc, name)?;
        let answer = read_named(self.alloc, &self.rt, self.folder.as_str(), name)?;
        let copy = answer.copy(self.alloc)?;
        if matches!(answer, Loaded::Failed) {
            self.faults = self.faults.saturating_add(1);
        }
        self.last = Some((asked, copy));
        Ok(answer)
    }
}

/// The file under a name in a folder. A name that is not UTF-8, one with a zero byte and one that the system does not
/// have are absent; every other failure of the system is a fault.
fn read_named<R: Files>(
    alloc: Global,
    rt: &R,
    folder: &str,
    name: &[u8],
) -> Result<Loaded, AllocError> {
    let Ok(name) = str::from_utf8(name) else {
        return Ok(Loaded::Absent);
    };
    if name.as_bytes().contains(&0) {
        return Ok(Loaded::Absent);
    }
    let mut path = String::from_str(alloc, folder)?;
    if !folder.is_empty() {
        path.push_str("/")?;
    }
    path.push_str(name)?;
    match read_path(alloc, rt, path.as_str()) {
        Ok(bytes) => Ok(Loaded::Text(Bytes::from_vec(bytes))),
        Err(error) => match error.kind() {
            ErrorKind::NotFound | ErrorKind::NotADirectory => Ok(Loaded::Absent),
            ErrorKind::OutOfMemory => Err(AllocError),
            _ => Ok(Loaded::Failed),
        },
    }
}

fn read_path<R: Files>(alloc: Global, rt: &R, path: &str) -> io::Result<Vec<u8>> {
    let mut file = fs::open(rt, path)?;
    read_whole(alloc, &mut file)
}

/// Reads to the end of a file of at most `LARGEST` bytes. Each turn takes at least one byte, or ends.
fn read_whole<F: Read>(alloc: Global, file: &mut F) -> io::Result<Vec<u8>> {
    let mut bytes = Vec::new(alloc);
    let mut piece = [0u8; PIECE];
    for _turn in 0..=LARGEST {
        let taken = file.read(&mut piece)?;
        if taken == 0 {
            return Ok(bytes);
        }
        if bytes.len() as u64 > LARGEST - taken as u64 {
            return Err(io::Error::from(ErrorKind::FileTooLarge));
        }
        bytes.extend_from_slice(&piece[..taken])?;
    }
    Err(io::Error::from(ErrorKind::FileTooLarge))
}
