ghost use Rattle.std.specs.Prelude.{◌≡◌, IfOk};

use crate::refused::Refused;
use crate::script::ScriptCode;
use std::alloc::AllocError;

/// What a text is as it is read (ECMA-262 16.1.6).
#[derive(Drop)]
pub enum Reading {
    /// A script.
    Script(ScriptCode),
    /// No script.
    Refused(Refused),
}

impl Reading {
    /// One more owner of what was read, of which nothing is copied.
    pub fn share(&self) -> Result<Reading, AllocError>
        ensures { IfOk result (λ reading. reading ≡ self.now) }
    {
        match self {
            Reading::Script(script) => Ok(Reading::Script(script.share()?)),
            Reading::Refused(why) => Ok(Reading::Refused(*why)),
        }
    }
}

/// A source text: what it is as it is read, and how many code units it has.
#[derive(Drop)]
pub struct SourceCode {
    /// What it is.
    pub reading: Reading,
    /// Its code units.
    pub units: usize,
}

impl SourceCode {
    /// One more owner of the source, of which nothing is copied.
    pub fn share(&self) -> Result<SourceCode, AllocError>
        ensures { IfOk result (λ source. source ≡ self.now) }
    {
        Ok(SourceCode {
            reading: self.reading.share()?,
            units: self.units,
        })
    }
}
