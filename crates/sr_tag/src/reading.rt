ghost use Rattle.std.specs.Prelude.{◌≡◌, ℕ, ◌+◌, ◌<◌, ◌↔◌, min, slice_set, List, ◌++◌, length, slice_index, IfOk, IfSome, IfNone, IsErrOf};
ghost use Rattle.std.specs.List.{position};
ghost use Rattle.std.specs.Int.{is_in_range};
ghost use Rattle.std.specs.Fmt.{decimal};
ghost use Rattle.sr_tag.specs.Path.{IsChildNumber, AreChildNumbers, IsPath, path_text, IsPathText, IsLongPathText, TextDeterminesPath};
ghost use Rattle.sr_tag.specs.Steps.{is_point, HasNoPoint, IsBoundary, IsStep, HasNumbers};

use crate::path::{MAX_STEPS, Path};
use crate::refusal::PathRefusal;
use std::alloc::{AllocError, Global};
use std::str;

/// Whether the first byte is a digit other than `0`.
fn begins_with_digit(digits: &[u8]) -> bool
    ensures { result ≡ is_in_range 49 57 (slice_index digits.now 0) }
{
    matches!(digits, [b'1'..=b'9', ..])
}

/// The number of a child that the digits write, with no 0 before the first.
fn child_number(digits: &[u8]) -> Option<u32>
    ensures some { IfSome result (λ n. IsChildNumber n × (digits.now ≡ decimal n)) }
    ensures none { IfNone result ((n : ℕ) → IsChildNumber n → ¬ (digits.now ≡ decimal n)) }
{
    if !begins_with_digit(digits) {
        return None;
    }
    let Ok(text) = str::from_utf8(digits) else {
        return None;
    };
    match text.parse::<u32>() {
        Ok(number) => Some(number),
        Err(_) => None,
    }
}

fn point_at(text: &[u8]) -> Option<usize>
    ensures value { result ≡ position is_point text.now }
    ensures within { IfSome result (λ at. at < length text.now) }
{
    text.iter().position(|byte| *byte == b'.')
}

/// What stands before the first point, and the rest from that point on.
fn split_at_point(text: &[u8]) -> (&[u8], &[u8])
    ensures whole { text.now ≡ result.0.now ++ result.1.now }
    ensures no_point { HasNoPoint result.0.now }
    ensures boundary { IsBoundary result.1.now }
{
    match point_at(text) {
        Some(at) => (&text[..at], &text[at..]),
        None => (text, &[]),
    }
}

/// The number of the step at the front, and what follows the step.
fn next_step(text: &[u8]) -> Option<(u32, &[u8])>
    ensures some { IfSome result (λ found. IsStep text.now found.0 found.1.now) }
    ensures none { IfNone result ((n : ℕ) (more : List ℕ) → ¬ (IsStep text.now n more)) }
{
    let [b'.', rest @ ..] = text else {
        return None;
    };
    let (digits, more) = split_at_point(rest);
    match child_number(digits) {
        Some(number) => Some((number, more)),
        None => None,
    }
}

/// Puts the number at the place `count`, where the array has one, and counts it, up to one more than the array holds.
fn put(numbers: &mut [u32; MAX_STEPS], count: usize, number: u32) -> usize
    ensures held { count < 63 → numbers.new ≡ slice_set numbers.old count number }
    ensures counted { result ≡ min (count + 1) 64 }
{
    if count < MAX_STEPS {
        numbers[count] = number;
        count + 1
    } else {
        MAX_STEPS + 1
    }
}

/// Puts the numbers of a path's text into the array, as far as it goes, and counts them, up to one more than it holds.
/// `None` comes exactly where the text is not of the form of a path.
fn read_numbers(text: &[u8], numbers: &mut [u32; MAX_STEPS]) -> Option<usize>
    ensures some { IfSome result (λ count. HasNumbers text.now numbers.new count) }
    ensures none { IfNone result (¬ (IsPathText text.now)) }
{
    let [b'0', steps @ ..] = text else {
        return None;
    };
    let mut rest = steps;
    let mut count = 0;
    while !rest.is_empty() {
        let Some((number, more)) = next_step(rest) else {
            return None;
        };
        count = put(numbers, count, number);
        rest = more;
    }
    Some(count)
}

impl Path {
    /// The path that the text writes, as `show` does: `0`, and then any count of `.` and a number in decimal, from 1 to
    /// 2^32 - 1, with no 0 before it. `Bad` comes exactly where the text is not of this form, `TooLong` exactly where
    /// it is with more than 64 numbers.
    pub fn read(alloc: Global, text: &[u8]) -> Result<Path, PathRefusal>
        ensures ok { IfOk result (λ p. IsPath p × (text.now ≡ path_text p)) }
        ensures only { (p : List ℕ) → IsPath p → text.now ≡ path_text p → IfOk result (λ read. read ≡ p) }
        ensures bad { IsErrOf result PathRefusal.Bad ↔ ¬ (IsPathText text.now) }
        ensures too_long { IsErrOf result PathRefusal.TooLong ↔ IsLongPathText text.now }
    {
        let mut numbers = [0; MAX_STEPS];
        let Some(count) = read_numbers(text, &mut numbers) else {
            return Err(PathRefusal::Bad);
        };
        if count > MAX_STEPS {
            return Err(PathRefusal::TooLong);
        }
        Ok(Path::of_numbers(alloc, &numbers[..count])?)
    }

    /// The text of the path, as `0.3.1`.
    pub fn show(&self, alloc: Global) -> Result<Vec<u8>, AllocError>
        ensures { IfOk result (λ text. text.items ≡ path_text self.now) }
    {
        let mut text = String::from_str(alloc, "0")?;
        for number in self.numbers() {
            write!(text, ".{number}")?;
        }
        Ok(text.into_bytes())
    }
}

/// No two paths have one text.
pub fn text_determines_path()
    ensures { TextDeterminesPath }
{}
