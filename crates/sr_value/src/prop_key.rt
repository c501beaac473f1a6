ghost use Rattle.std.specs.Prelude.{◌≡◌, IfOk};
ghost use Rattle.sr_value.specs.Plain.{key_of};
ghost use Rattle.sr_model.specs.Keys as spec;
ghost use Rattle.sr_value.specs.Exact.{exact_key};

use crate::Key;
use sr_props::{PropKey, Rank};
use std::alloc::AllocError;

impl PropKey for Key {
    ghost rank_of = { λ key. spec.rank_of (key_of key) };

    ghost exact = { exact_key };

    fn rank(&self) -> Rank {
        match self {
            Key::Text(text) => match text.index_key() {
                Some(index) => Rank::Index(index),
                None => Rank::Text,
            },
            Key::Sym(_) => Rank::Symbol,
        }
    }

    fn copy(&self) -> Result<Key, AllocError> {
        self.clone()
    }
}
