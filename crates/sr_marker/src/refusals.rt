ghost use Rattle.std.specs.Prelude.{◌≡◌};
ghost use Rattle.sr_marker.specs.Refusals as spec;

use sr_ast::Refused;
use sr_text::Marker;

/// Of two markers with their places, in code units, the one at the lesser place, and the first one at the same.
pub fn least_of(a: Option<(Marker, usize)>, b: Option<(Marker, usize)>) -> Option<(Marker, usize)>
    ensures { result ≡ spec.least a b }
{
    match (a, b) {
        (None, b) => b,
        (Some(a), None) => Some(a),
        (Some(a), Some(b)) => { if b.1 < a.1 { Some(b) } else { Some(a) } }
    }
}

/// The refusal of a text that is no script and no module at a place, in code units, where it has this marker: `Unsupported` with the
/// marker and its place, and without a marker `Syntax` with that of the text.
pub fn refusal_at(place: usize, marker: Option<(Marker, usize)>) -> Refused
    ensures { result ≡ spec.refusal_at place marker }
{
    match marker {
        None => Refused::Syntax(place),
        Some((marker, place)) => Refused::Unsupported(marker, place),
    }
}
