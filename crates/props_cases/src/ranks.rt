ghost use Rattle.std.specs.Prelude.{◌≡◌};
ghost use Rattle.props_cases.specs.Exact.{exact_key};
ghost use Rattle.props_cases.specs.Ranks.{rank_of_key, rank_of_text};

use crate::key::CaseKey;
use sr_props::{PropKey, Rank};
use sr_text::Str;
use std::alloc::AllocError;

impl PropKey for CaseKey {
    ghost rank_of = { rank_of_key };

    ghost exact = { exact_key };

    fn rank(&self) -> Rank {
        match self {
            CaseKey::Text(text) => text_rank(text),
            CaseKey::Symbol(_) => Rank::Symbol,
        }
    }

    fn copy(&self) -> Result<CaseKey, AllocError> {
        match self {
            CaseKey::Text(text) => Ok(CaseKey::Text(text.clone()?)),
            CaseKey::Symbol(number) => Ok(CaseKey::Symbol(*number)),
        }
    }
}

fn text_rank(text: &Str) -> Rank
    ensures { result ≡ rank_of_text text.now }
{
    match text.index_key() {
        Some(number) => Rank::Index(number),
        None => Rank::Text,
    }
}
