//! Names of realms and of the records that they keep.
#![tactic(auto)]

/// The path itself.
mod path;
/// The text of a path, both ways.
mod reading;
/// Tags and references.
mod reference;
/// Why a path is refused.
mod refusal;

pub use path::Path;
pub use reading::text_determines_path;
pub use reference::{EnvK, ModK, ObjK, Ref, Tag};
pub use refusal::{ChildRefusal, PathRefusal};
