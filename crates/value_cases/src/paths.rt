use anyhow::{Context, Result, bail, ensure};
use case_tables::{bytes_of, integer_of, quoted_bytes, split_cell};
use sr_tag::{ChildRefusal, ObjK, Path, PathRefusal, Ref, Tag};
use std::alloc::Global;

/// The path of a cell.
fn path(alloc: Global, cell: &str) -> Result<Path> {
    Ok(Path::read(alloc, &bytes_of(alloc, cell)?)?)
}

/// The numbers after the 0 of the path that a text is, or why it is none. Want of memory is no answer.
pub fn numbers(alloc: Global, case: &str) -> Result<String> {
    match Path::read(alloc, &bytes_of(alloc, case)?) {
        Ok(path) => {
            let numbers = path.numbers();
            Ok(format!(in alloc; "{numbers:?}")?)
        }
        Err(PathRefusal::Memory) => bail!("out of memory"),
        Err(refusal) => Ok(format!(in alloc; "{refusal}")?),
    }
}

/// The text of the path that a text is.
pub fn shown(alloc: Global, case: &str) -> Result<String> {
    let text = path(alloc, case)?.show(alloc)?;
    Ok(quoted_bytes(alloc, &text)?)
}

/// The path of the initial realm, and from there of the child of each of these numbers.
fn descend(alloc: Global, numbers: &str) -> Result<Result<Path, ChildRefusal>> {
    let mut path = Path::root(alloc)?;
    for number in numbers.split_whitespace() {
        let number = number.parse::<u32>()?;
        ensure!(1 <= number, "no child has the number 0");
        match path.child(alloc, number) {
            Ok(child) => path = child,
            Err(refusal) => return Ok(Err(refusal)),
        }
    }
    Ok(Ok(path))
}

/// The text of the path of the child of each of these numbers in turn, or why there is none.
pub fn descended(alloc: Global, case: &str) -> Result<String> {
    let Some(numbers) = case.strip_prefix("root") else {
        bail!("root comes first");
    };
    match descend(alloc, numbers)? {
        Ok(path) => Ok(quoted_bytes(alloc, &path.show(alloc)?)?),
        Err(ChildRefusal::Memory) => bail!("out of memory"),
        Err(refusal) => Ok(format!(in alloc; "{refusal}")?),
    }
}

/// Whether two paths are one, of which the first is compared as a clone.
pub fn compared(alloc: Global, case: &str) -> Result<String> {
    let (left, right) = split_cell(case)?;
    let left = path(alloc, left)?.clone()?;
    let right = path(alloc, right)?;
    let answer = if left == right { "one" } else { "two" };
    Ok(String::from_str(alloc, answer)?)
}

/// The reference to an object, by the number of its realm and its place.
fn reference(cell: &str) -> Result<Ref<ObjK>> {
    let (number, place) = cell.split_once(':').context("a realm and a place")?;
    let number = u32::try_from(integer_of(number)?)?;
    let place = usize::try_from(integer_of(place)?)?;
    Ok(Ref::at(Tag { number }, place))
}

/// What a reference says, whether another is the same, and whether it is of the same realm.
pub fn references(alloc: Global, case: &str) -> Result<String> {
    let (left, right) = split_cell(case)?;
    let left = reference(left)?;
    let right = reference(right)?;
    let realm = left.tag().number;
    let place = left.place();
    let same = if left.same(&right) { "one" } else { "two" };
    let realms = if left.same_realm(&right) {
        "one"
    } else {
        "two"
    };
    Ok(format!(in alloc; "{realm}:{place}, {same} of {realms}")?)
}
