use crate::memory::files_of;
use sr_outside::{
    Bytes, DirLoader, ErrSink, Loaded, Loader, MapLoader, OutSink, Sink, SureLoader, SureSink,
    VecSink, WriteRefusal,
};
use std::alloc::Global;
use std::io::{ErrorKind, Write};
use std::process::Abort;
use std::test::Fail;
use std::{env, fs, io, process};

/// The files in memory; of two with one name the first counts.
const FILES: [(&str, &str); 3] = [("a.js", "first"), ("b.js", "other"), ("a.js", "second")];

/// Names in the order in which they are loaded; the answer of the loader that never fails, with `-` for a name that is absent
/// and `!` for a fault; and that of the loader which fails at the second and the fourth call.
const LOADS: [(&str, &str, &str); 6] = [
    ("a.js", "first", "first"),
    ("a.js", "first", "!"),
    ("z.js", "-", "-"),
    ("z.js", "-", "!"),
    ("b.js", "other", "other"),
    ("c.js", "-", "-"),
];

/// An answer as text, as the tables write it.
fn shown(answer: &Loaded) -> &[u8] {
    match answer {
        Loaded::Text(text) => text.as_slice(),
        Loaded::Absent => b"-",
        Loaded::Failed => b"!",
    }
}

#[test]
fn loaders_in_memory(rt: HostRuntime) -> Result<(), Fail> {
    let alloc = rt.alloc();
    let mut sure = SureLoader::of(alloc, files_of(alloc, &FILES)?);
    let files = files_of(alloc, &FILES)?;
    let mut failing = MapLoader::of(alloc, files, vec![in alloc; 2, 4]?);
    for (name, wanted, wanted_or_failed) in LOADS {
        let loaded = sure.load(name.as_bytes())?;
        assert_eq!(rt; shown(&loaded), wanted.as_bytes());
        assert_eq!(rt; shown(&loaded.copy(alloc)?), wanted.as_bytes());
        let loaded = failing.load(name.as_bytes())?;
        assert_eq!(rt; shown(&loaded), wanted_or_failed.as_bytes());
        assert_eq!(rt; shown(&loaded.copy(alloc)?), wanted_or_failed.as_bytes());
    }
    Ok(())
}

/// Texts in the order in which they are written, and what the sink answers that fails at the second write.
const MEMORY_WRITES: [(&[u8], Result<(), WriteRefusal>); 3] = [
    (b"ab", Ok(())),
    (b"cd", Err(WriteRefusal::Failed)),
    (b"ef", Ok(())),
];

#[test]
fn sinks_in_memory(rt: HostRuntime) -> Result<(), Fail> {
    let alloc = rt.alloc();
    let mut sure = SureSink::new(alloc);
    let mut failing = VecSink::of(alloc, vec![in alloc; 2]?);
    for (text, answer) in MEMORY_WRITES {
        assert_eq!(rt; sure.write_all(text), Ok(()));
        assert_eq!(rt; failing.write_all(text), answer);
    }
    assert_eq!(rt; sure.bytes(), b"abcdef".as_slice());
    assert_eq!(rt; failing.bytes(), b"abef".as_slice());
    let copy = Bytes::from_slice(alloc, sure.bytes())?;
    let back = Bytes::from_vec(copy.into_vec());
    assert_eq!(rt; back.as_slice(), b"abcdef".as_slice());
    Ok(())
}

/// A writer that takes two bytes at a time, fails at the fourth call and takes nothing at the sixth.
#[derive(Drop)]
struct Narrow {
    taken: Vec<u8>,
    calls: u64,
}

impl Write for Narrow {
    fn write(&mut self, buf: &[u8]) -> io::Result<usize> {
        self.calls = self.calls.saturating_add(1);
        let count = buf.len().min(2);
        match self.calls {
            4 => Err(io::Error::from(ErrorKind::BrokenPipe)),
            6 => Ok(0),
            _ => {
                self.taken.extend_from_slice(&buf[..count])?;
                Ok(count)
            }
        }
    }

    fn flush(&mut self) -> io::Result<()> {
        Ok(())
    }
}

fn make_narrow(alloc: Global) -> Narrow {
    Narrow {
        taken: Vec::new(alloc),
        calls: 0,
    }
}

/// A text that is written, and whether it is taken whole.
type Written = (&'static [u8], Result<(), WriteRefusal>);

const OUT_WRITES: [Written; 5] = [
    (b"abcde", Ok(())),
    (b"fg", Err(WriteRefusal::Failed)),
    (b"hijk", Err(WriteRefusal::Failed)),
    (b"", Ok(())),
    (b"l", Ok(())),
];

const ERR_WRITES: [Written; 3] = [
    (b"abcdefgh", Err(WriteRefusal::Failed)),
    (b"ijkl", Err(WriteRefusal::Failed)),
    (b"mn", Ok(())),
];

fn write_each<S: Sink>(rt: &impl Abort, sink: &mut S, writes: &[Written]) {
    for (text, answer) in writes {
        assert_eq!(rt; sink.write_all(text), *answer);
    }
}

#[test]
fn sinks_over_a_narrow_writer(rt: HostRuntime) {
    let mut out = OutSink::over(make_narrow(rt.alloc()));
    write_each(&rt, &mut out, OUT_WRITES.as_slice());
    let mut err = ErrSink::over(make_narrow(rt.alloc()));
    write_each(&rt, &mut err, ERR_WRITES.as_slice());
}

#[test]
fn files_of_a_folder(rt: HostRuntime) -> Result<(), Fail> {
    let alloc = rt.alloc();
    let folder = env::temp_dir(&rt)?;
    let id = process::id(rt.process());
    let name = format!(in alloc; "shadowrealm-outside-{id}.js")?;
    let file = folder.join(alloc, name.as_str())?;
    fs::write(&rt, &file, "print")?;
    let text = folder
        .to_str()
        .ok_or("the folder of temporary files is UTF-8")?;
    let mut loader = DirLoader::at(alloc, rt.clone()?, String::from_str(alloc, text)?);
    let found = loader.load(name.as_bytes())?;
    fs::remove_file(&rt, &file)?;
    assert_eq!(rt; shown(&found), b"print".as_slice());
    assert_eq!(rt; shown(&loader.load(name.as_bytes())?), b"-".as_slice());
    assert_eq!(rt; shown(&loader.load(b"\xff")?), b"-".as_slice());
    assert_eq!(rt; shown(&loader.load(b"a\0b")?), b"-".as_slice());
    assert_eq!(rt; shown(&loader.load(b".")?), b"!".as_slice());
    Ok(())
}
