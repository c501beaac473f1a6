use std::alloc::{AllocError, Global};

/// Files in memory, by names and texts.
pub(crate) fn files_of(
    alloc: Global,
    files: &[(&str, &str)],
) -> Result<Vec<(Vec<u8>, Vec<u8>)>, AllocError> {
    let mut all = Vec::new(alloc);
    for (name, text) in files {
        let name = Vec::from_slice(alloc, name.as_bytes())?;
        all.push((name, Vec::from_slice(alloc, text.as_bytes())?))?;
    }
    Ok(all)
}
