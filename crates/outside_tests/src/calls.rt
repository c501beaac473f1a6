use crate::memory::files_of;
use sr_ast::{Reading, Refused, SourceCode};
use sr_command::shadow_run;
use sr_machine::{Advance, Live};
use sr_outside::{MapLoader, SureSink, VecSink};
use sr_state::Source;
use sr_text::Str;
use std::alloc::{AllocError, Global};
use std::test::Fail;

/// The numbers of the loads that fail, of the writes on the output, and of those on the errors.
type Faults = (&'static [u64], &'static [u64], &'static [u64]);

/// What is written on the output and on the errors, and the status.
type Ending = (&'static str, &'static str, u8);

/// The words of calls of the command, the faults, and the ending.
const CALLS: [(&[&str], Faults, Ending); 10] = [
    (&["a.js"], (&[], &[2], &[]), ("1\n", "write failed\n", 7)),
    (&["a.js"], (&[], &[1], &[1]), ("", "", 7)),
    (&["a.js"], (&[], &[3], &[]), ("1\n2\n", "", 0)),
    (&["a.js"], (&[1], &[], &[]), ("", "read failed: a.js\n", 6)),
    (&["a.js"], (&[2], &[], &[]), ("1\n2\n", "", 0)),
    (&["a.js"], (&[1], &[], &[1]), ("", "write failed\n", 7)),
    (&["z.js"], (&[], &[], &[1]), ("", "write failed\n", 7)),
    (&["broken.js"], (&[], &[], &[1]), ("", "write failed\n", 7)),
    (&[], (&[], &[], &[1, 2]), ("", "", 7)),
    (
        &["b/a.js"],
        (&[1], &[], &[]),
        ("", "not built: b/a.js\n", 9),
    ),
];

/// The files that every call finds.
const FILES: [(&str, &str); 2] = [
    ("a.js", "print(\"1\"); print(\"2\");"),
    ("broken.js", "print(\"a\" \"b\");"),
];

fn words_of(alloc: Global, words: &[&str]) -> Result<Vec<String>, AllocError> {
    let mut all = Vec::new(alloc);
    for word in words {
        all.push(String::from_str(alloc, word)?)?;
    }
    Ok(all)
}

#[test]
fn calls_with_failing_loads_and_writes(rt: HostRuntime) -> Result<(), Fail> {
    let alloc = rt.alloc();
    for (words, (loads, writes, error_writes), (printed, errors, wanted)) in CALLS {
        let words = words_of(alloc, words)?;
        let files = files_of(alloc, &FILES)?;
        let mut loader = MapLoader::of(alloc, files, Vec::from_slice(alloc, loads)?);
        let mut out = VecSink::of(alloc, Vec::from_slice(alloc, writes)?);
        let mut err = VecSink::of(alloc, Vec::from_slice(alloc, error_writes)?);
        let status = shadow_run(alloc, &words, &mut loader, &mut out, &mut err);
        assert_eq!(rt; out.bytes(), printed.as_bytes());
        assert_eq!(rt; err.bytes(), errors.as_bytes());
        assert_eq!(rt; status, wanted);
    }
    Ok(())
}

/// The bound of steps, and more calls than the run of a text that is no script takes.
const MANY: u64 = 100;

/// What a run comes to after the steps after which more is to do.
fn end_of(live: &mut Live, out: &mut SureSink) -> Advance {
    for _ in 0..MANY {
        match live.advance(out) {
            Advance::Going => {}
            end => return end,
        }
    }
    Advance::Going
}

/// The run of a text that breaks a rule of the language at a place.
fn run_of_broken(alloc: Global, at: usize) -> Result<Live, Fail> {
    let mut live = Live::open(alloc, MANY)?;
    live.give_source(Source {
        text: Str::of_units(alloc, &[]).map_err(|_| AllocError)?,
        code: SourceCode {
            reading: Reading::Refused(Refused::Syntax(at)),
            units: at,
        },
    });
    Ok(live)
}

#[test]
fn tells_a_throw_once(rt: HostRuntime) -> Result<(), Fail> {
    let alloc = rt.alloc();
    let mut out = SureSink::new(alloc);
    let mut live = run_of_broken(alloc, 6)?;
    match end_of(&mut live, &mut out) {
        Advance::Thrown(text) => assert_eq!(rt;
            text.to_utf8(alloc)?.as_slice(),
            b"SyntaxError: syntax error at 6".as_slice()
        ),
        other => panic!(rt; "{other:?}"),
    }
    assert!(rt; matches!(live.advance(&mut out), Advance::Done));
    assert!(rt; matches!(live.advance(&mut out), Advance::Done));
    assert_eq!(rt; out.bytes(), b"".as_slice());
    Ok(())
}
