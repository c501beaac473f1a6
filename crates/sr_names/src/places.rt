ghost use Rattle.std.specs.Prelude.{◌≡◌, ◌++◌, OnOk};
ghost use Rattle.sr_names.specs.Strictness as spec;

use sqlite_items::Items;
use std::alloc::AllocError;

/// Notes a place where something is wrong with it.
pub fn put_if(places: &mut Items<usize>, is_wrong: bool, at: usize) -> Result<(), AllocError>
    ensures { OnOk result (places.new ≡ places.old ++ spec.place_if is_wrong at) }
{
    if is_wrong {
        places.push(at)?;
    }
    Ok(())
}
