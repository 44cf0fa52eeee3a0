//! Numbers as the digits that begin a text.
ghost use Rattle.std.specs.Prelude.{◌≡◌, ◌+◌, ◌*◌, ◌^◌, ◌≤◌, IfSome};
ghost use Rattle.std.specs.Option.{option_map};
ghost use Rattle.vortex_sql_date_formats.specs.ReadDigits as specs;

/// The number of the digits that a text begins with, at most `width`; how many more could stand
/// there; and the text after them.
fn digits_from(width: u8, text: &[u8]) -> (u32, u8, &[u8])
    requires { width ≤ 6 }
    ensures value { (result.0, result.1, result.2.now) ≡ specs.digits_from width 0 text.now }
    ensures left { result.1 ≤ width }
    ensures few { result.0 ≤ 1000000 }
    ensures small { result.0 * 10 ^ result.1 + 10 ^ result.1 ≤ 1000000 }
{
    let mut number = 0u32;
    let mut left = width;
    for i in 0..text.len() {
        let byte = text[i];
        if left == 0 || !byte.is_ascii_digit() {
            return (number, left, &text[i..]);
        }
        left -= 1;
        number = number * 10 + (byte - b'0') as u32;
    }
    (number, left, &text[text.len()..])
}

/// The number of at least `least` and at most `width` digits that a text begins with, and the text
/// after them.
pub(crate) fn number_of(least: u8, width: u8, text: &[u8]) -> Option<(u32, &[u8])>
    requires { (least ≤ 6) × (width ≤ 6) }
    ensures value { option_map (λ p. (p.0, p.1.now)) result
        ≡ specs.number_of least width text.now }
    ensures few { IfSome result (λ p. p.0 ≤ 1000000) }
{
    let (number, left, rest) = digits_from(width, text);
    if least + left <= width {
        Some((number, rest))
    } else {
        None
    }
}

/// Ten to the power `places`.
#[tactic(auto, using(crate::proofs::DigitLemmas::ten_bound))]
fn power_of(places: u8) -> u32
    requires { places ≤ 6 }
    ensures { result ≡ 10 ^ places }
{
    10u32.pow(places as u32)
}

/// The number with zeros in place of the digits that could still stand there, and so many units.
#[tactic(auto, using(crate::proofs::DigitLemmas::number_small))]
fn scaled(number: u32, left: u8, unit: u32) -> u32
    requires places { left ≤ 6 }
    requires small { number * 10 ^ left ≤ 1000000 }
    requires units { unit ≤ 1000 }
    ensures { result ≡ number * 10 ^ left * unit }
{
    number * power_of(left) * unit
}

/// The fraction whose digits a text begins with, at least `least` and at most `width`, in so many
/// units at the last of its places; and the text after them.
pub(crate) fn fraction_of(least: u8, width: u8, unit: u32, text: &[u8]) -> Option<(u32, &[u8])>
    requires places { (least ≤ 6) × (width ≤ 6) }
    requires units { unit ≤ 1000 }
    ensures { option_map (λ p. (p.0, p.1.now)) result
        ≡ specs.fraction_of least width unit text.now }
{
    let (number, left, rest) = digits_from(width, text);
    if least + left <= width {
        Some((scaled(number, left, unit), rest))
    } else {
        None
    }
}
