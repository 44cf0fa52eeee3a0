//! Truth values as other programs spell them.
ghost use Rattle.std.specs.Prelude.{◌≡◌};
ghost use Rattle.rowfn_csv.specs.Truths.{is_true_word, is_false_word, truth_spelled, respelled};

use crate::raw::is_text;

/// Where a column stands in a record, and whether its truth values are read in any spelling.
#[derive(Clone, Copy)]
pub struct Spelled {
    pub place: usize,
    pub is_truth: bool,
}

/// A column of a batch, as it is told where it stands in a record.
pub trait Chosen: Copy + Drop {
    ghost use Rattle.rowfn_csv.specs.declared.truths.Spelled.{Spelled};

    ghost spelled: { Self → Spelled };

    /// Its place, and whether its truth values are read in any spelling.
    fn spelled(&self) -> Spelled
        ensures { result ≡ spelled self.now };
}

/// By its place alone its fields are read as they stand.
impl Chosen for usize {
    ghost use Rattle.std.specs.Prelude.{false};

    ghost spelled = { λ place. record { place = place; is_truth = false } };

    fn spelled(&self) -> Spelled {
        Spelled {
            place: *self,
            is_truth: false,
        }
    }
}

impl Chosen for Spelled {
    ghost spelled = { λ s. s };

    fn spelled(&self) -> Spelled {
        *self
    }
}

fn is_true_word(field: &[u8]) -> bool
    ensures { result ≡ is_true_word field.now }
{
    is_text(field, b"t")
        || is_text(field, b"True")
        || is_text(field, b"TRUE")
        || is_text(field, b"1")
}

fn is_false_word(field: &[u8]) -> bool
    ensures { result ≡ is_false_word field.now }
{
    is_text(field, b"f")
        || is_text(field, b"False")
        || is_text(field, b"FALSE")
        || is_text(field, b"0")
}

/// A field that says a truth value in another spelling, as `true` or `false`; any other as it
/// stands.
pub fn truth_spelled(field: &[u8]) -> &[u8]
    ensures { result.now ≡ truth_spelled field.now }
{
    if is_true_word(field) {
        b"true"
    } else if is_false_word(field) {
        b"false"
    } else {
        field
    }
}

/// The field of a column whose truth values are read in any spelling, or as it stands.
pub fn respelled(field: &[u8], is_truth: bool) -> &[u8]
    ensures { result.now ≡ respelled is_truth field.now }
{
    if is_truth {
        truth_spelled(field)
    } else {
        field
    }
}
