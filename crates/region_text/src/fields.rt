// The readers of single fields.
ghost use Rattle.std.specs.Prelude.{◌≡◌, ℕ, ◌<◌, length, IfSome, None as Nothing, Option};
ghost use Rattle.region_text.specs.Fields.{decimal, ranged, hex_digit, hex, mask_field};
ghost use Rattle.region_text.specs.Scanning.{capped};

use super::fault::{Fault, FieldFault, Spot};

/// The first number that no field may hold: a decimal that passes it is read as this number.
const BEYOND: u32 = 65536;

/// What some of the numbers up to 65535 stand for.
/// A trait of its own and not `TryFrom<u16>`: by its law a decimal past 65535 is out of range whatever it was to stand for.
pub(crate) trait Ranged: Sized {
    /// What a number stands for, if anything.
    ghost make: { ℕ → Option Self };

    /// What the number stands for.
    fn from_number(n: u16) -> Option<Self>
        ensures { result ≡ make n };

    /// No number above 65535 stands for anything.
    ghost bounded: { (n : ℕ) → 65535 < n → make n ≡ Nothing };
}

/// A decimal number without leading zeros, or 65536 where it is larger.
#[tactic(auto, using(crate::proofs::Digits::more))]
fn read_decimal(field: &[u8]) -> Option<u32>
    ensures { result ≡ capped (decimal field.now) }
{
    if matches!(field, [] | [b'0', _, ..]) {
        return None;
    }
    let mut n: u32 = 0;
    for b in field {
        let digit = char::from(*b).to_digit(10)?;
        n = (n * 10 + digit).min(BEYOND);
    }
    Some(n)
}

/// What a field's number stands for.
pub(crate) fn read_ranged<R: Ranged>(field: &[u8], spot: Spot) -> Result<R, FieldFault>
    ensures { result ≡ ranged R.make field.now spot }
{
    let n = read_decimal(field).ok_or(Fault::Malformed.at(spot))?;
    let n = u16::try_from(n).map_err(|_| Fault::OutOfRange.at(spot))?;
    R::from_number(n).ok_or(Fault::OutOfRange.at(spot))
}

/// The value of a lower-case hexadecimal digit.
fn read_hex_digit(b: u8) -> Option<u8>
    ensures value { result ≡ hex_digit b }
    ensures bound { IfSome result (λ d. d < 16) }
{
    match b {
        b'0'..=b'9' => Some(b - b'0'),
        b'a'..=b'f' => Some(b - b'a' + 10),
        _ => None,
    }
}

/// The number that four lower-case hexadecimal digits say.
fn read_hex(digits: &[u8]) -> Option<u16>
    requires { length digits.now ≡ 4 }
    ensures { result ≡ hex 0 digits.now }
{
    let mut n: u16 = 0;
    for b in digits {
        let d = read_hex_digit(*b)?;
        n = n * 16 + u16::from(d);
    }
    Some(n)
}

/// A mask: four lower-case hexadecimal digits.
pub(crate) fn read_mask(field: &[u8], spot: Spot) -> Result<u16, FieldFault>
    ensures { result ≡ mask_field field.now spot }
{
    let mask = if field.len() == 4 {
        read_hex(field)
    } else {
        None
    };
    mask.ok_or(Fault::Malformed.at(spot))
}
