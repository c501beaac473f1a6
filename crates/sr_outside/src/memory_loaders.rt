ghost use Rattle.std.specs.Prelude.{◌≡◌, ◌==◌, ◌≤◌, ◌↔◌, Contains, IfOk, OnOk, Ok, Some, None};
ghost use Rattle.std.specs.Map.{lookup};
ghost use Rattle.std.specs.Cmp.Lexicographic.{pointwise};
ghost use Rattle.sr_outside.specs.Counts.{Rose, Raised};
ghost use Rattle.sr_outside.specs.Loading.{answer_in, files_of, last_of, IsHeld};
ghost use Rattle.sr_outside.specs.Fakes.{failing_loads};

use crate::{Bytes, Loaded, Loader};
use std::alloc::{AllocError, Global};

/// The answer of files by name: of two files with one name the first counts.
fn find(alloc: Global, files: &[(Vec<u8>, Vec<u8>)], name: &[u8]) -> Result<Loaded, AllocError>
    ensures { IfOk result (λ answer. answer ≡ answer_in (files_of files.now) name.now) }
{
    for file in files {
        if name == file.0.as_slice() {
            return Ok(Loaded::Text(Bytes::from_slice(alloc, &file.1)?));
        }
    }
    Ok(Loaded::Absent)
}

/// Files in memory, with the numbers of the calls at which the loader fails, for tests of hosts.
#[derive(Drop)]
pub struct MapLoader {
    alloc: Global,
    files: Vec<(Vec<u8>, Vec<u8>)>,
    failing: Vec<u64>,
    faults: u64,
    calls: u64,
    last: Option<(Bytes, Loaded)>,
}

impl MapLoader {
    /// A loader of these names and bytes, which fails at the calls with these numbers, counted from 1.
    pub fn of(alloc: Global, files: Vec<(Vec<u8>, Vec<u8>)>, failing: Vec<u64>) -> MapLoader
        ensures held { ⟦<MapLoader as Loader>⟧.held result ≡ Some (files_of files.items) }
        ensures uncalled { ⟦<MapLoader as Loader>⟧.calls result ≡ 0 }
        ensures unasked { ⟦<MapLoader as Loader>⟧.last result ≡ None }
        ensures failing { failing_loads result ≡ failing.items }
    {
        MapLoader {
            alloc,
            files,
            failing,
            faults: 0,
            calls: 0,
            last: None,
        }
    }
}

impl Loader for MapLoader {
    ghost use Rattle.std.specs.Prelude.{Some};
    ghost use Rattle.sr_outside.specs.Loading.{files_of};

    ghost held = { λ loader. Some (files_of loader.files.items) };

    ghost faults = { λ loader. loader.faults };

    ghost calls = { λ loader. loader.calls };

    ghost last = { λ loader. loader.last };

    fn load(&mut self, name: &[u8]) -> Result<Loaded, AllocError>
        ensures held { ⟦<MapLoader as Loader>⟧.held self.new ≡ ⟦<MapLoader as Loader>⟧.held self.old }
        ensures faults { ⟦<MapLoader as Loader>⟧.faults self.old ≤ ⟦<MapLoader as Loader>⟧.faults self.new }
        ensures failed { result ≡ Ok Loaded.Failed → Rose (⟦<MapLoader as Loader>⟧.faults self.old) (⟦<MapLoader as Loader>⟧.faults self.new) }
        ensures honest { ⟦<MapLoader as Loader>⟧.faults self.new ≡ ⟦<MapLoader as Loader>⟧.faults self.old → IsHeld (⟦<MapLoader as Loader>⟧.held self.old) name.now result }
        ensures calls { Raised (⟦<MapLoader as Loader>⟧.calls self.old) (⟦<MapLoader as Loader>⟧.calls self.new) }
        ensures last { ⟦<MapLoader as Loader>⟧.last self.new ≡ last_of name.now result }
        ensures fails_as_listed { OnOk result ((result ≡ Ok Loaded.Failed) ↔ Contains (failing_loads self.old) (⟦<MapLoader as Loader>⟧.calls self.new)) }
    {
        self.calls = self.calls.saturating_add(1);
        self.last = None;
        let asked = Bytes::from_slice(self.alloc, name)?;
        if self.failing.contains(&self.calls) {
            self.faults = self.faults.saturating_add(1);
            self.last = Some((asked, Loaded::Failed));
            return Ok(Loaded::Failed);
        }
        let answer = find(self.alloc, &self.files, name)?;
        let copy = answer.copy(self.alloc)?;
        self.last = Some((asked, copy));
        Ok(answer)
    }
}

/// Files in memory, which never fail.
#[derive(Drop)]
pub struct SureLoader {
    alloc: Global,
    files: Vec<(Vec<u8>, Vec<u8>)>,
    calls: u64,
    last: Option<(Bytes, Loaded)>,
}

impl SureLoader {
    /// A loader of these names and bytes.
    pub fn of(alloc: Global, files: Vec<(Vec<u8>, Vec<u8>)>) -> SureLoader
        ensures held { ⟦<SureLoader as Loader>⟧.held result ≡ Some (files_of files.items) }
        ensures unasked { ⟦<SureLoader as Loader>⟧.last result ≡ None }
    {
        SureLoader {
            alloc,
            files,
            calls: 0,
            last: None,
        }
    }
}

impl Loader for SureLoader {
    ghost use Rattle.std.specs.Prelude.{Some};
    ghost use Rattle.sr_outside.specs.Loading.{files_of};

    ghost held = { λ loader. Some (files_of loader.files.items) };

    ghost faults = { λ _. 0 };

    ghost calls = { λ loader. loader.calls };

    ghost last = { λ loader. loader.last };

    fn load(&mut self, name: &[u8]) -> Result<Loaded, AllocError> {
        self.calls = self.calls.saturating_add(1);
        self.last = None;
        let asked = Bytes::from_slice(self.alloc, name)?;
        let answer = find(self.alloc, &self.files, name)?;
        let copy = answer.copy(self.alloc)?;
        self.last = Some((asked, copy));
        Ok(answer)
    }
}
