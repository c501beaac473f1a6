ghost use Rattle.std.specs.Prelude.{◌≡◌};
ghost use Rattle.sr_early.specs.Early as early;

/// The least of some places.
pub fn least(places: &[usize]) -> Option<usize>
    ensures { result ≡ early.least places.now }
{
    match places {
        [] => None,
        [first, rest @ ..] => Some(least_from(*first, rest)),
    }
}

/// The least of a place and others.
fn least_from(first: usize, rest: &[usize]) -> usize
    ensures { result ≡ early.least_from first rest.now }
{
    let mut least = first;
    for place in rest {
        least = least.min(*place);
    }
    least
}
