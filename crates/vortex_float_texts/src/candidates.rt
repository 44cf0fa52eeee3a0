//! The decimals next to a float, so many of its digits left out.
ghost use Rattle.std.specs.Prelude.{◌≡◌, ◌^◌, ◌≤◌, ◌<◌};
ghost use Rattle.std.specs.Int.{IsInRange};
ghost use Rattle.vortex_float_texts.specs.Candidates as specs;

#[tactic(auto, using(crate::proofs::Powers::ten_bound, crate::proofs::Powers::ten_positive))]
fn unit_at(place: u32) -> u64
    requires { place ≤ 18 }
    ensures value { result ≡ specs.unit_at place }
    ensures range { IsInRange 1 1000000000000000000 result }
{
    10u64.pow(place)
}

fn front_of(halves: u128, place: u32) -> u128
    requires { place ≤ 18 }
    ensures value { result ≡ specs.front_of halves place }
    ensures small { result < 170141183460469231731687303715884105728 }
{
    halves / (2 * unit_at(place) as u128)
}

/// Whether the next one is nearer, or as near and even.
fn rises(halves: u128, place: u32) -> bool
    requires { place ≤ 18 }
    ensures { result ≡ specs.rises halves place }
{
    let unit = unit_at(place) as u128;
    let rest = halves % (2 * unit);
    unit < rest || (rest == unit && front_of(halves, place) % 2 == 1)
}

/// The decimal nearest to it.
pub(crate) fn nearest(halves: u128, place: u32) -> u128
    requires { place ≤ 18 }
    ensures { result ≡ specs.nearest halves place }
{
    let front = front_of(halves, place);
    if rises(halves, place) {
        front + 1
    } else {
        front
    }
}

/// The one on its other side.
pub(crate) fn other(halves: u128, place: u32) -> u128
    requires { place ≤ 18 }
    ensures { result ≡ specs.other halves place }
{
    let front = front_of(halves, place);
    if rises(halves, place) {
        front
    } else {
        front + 1
    }
}
