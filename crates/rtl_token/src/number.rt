//! Numbers in decimal.

ghost use Rattle.std.specs.Prelude.{◌≡◌, ◌<◌, ◌≤◌, ◌^◌, min, IfSome};
ghost use Rattle.std.specs.List.{AllPass, list_all};
ghost use Rattle.std.specs.Char.{is_ascii_digit};
ghost use Rattle.std.specs.Str.Parse.{digits_value};
ghost use Rattle.rtl_word.specs.Words.{IsWordSize};
ghost use Rattle.rtl_spelling.specs.Senses.{is_plain, number_below, word_spelled};

/// What every greater number counts as.
const LIMIT: u64 = 1 << 33;

/// The number that digits spell.
fn magnitude(digits: &[u8]) -> u64
    requires { AllPass is_ascii_digit digits.now }
    ensures { result ≡ min (digits_value 10 digits.now) (2 ^ 33) }
{
    let mut value = 0;
    for digit in digits {
        value = (value * 10 + u64::from(*digit - b'0')).min(LIMIT);
    }
    value
}

fn are_digits(bytes: &[u8]) -> bool
    ensures { result ≡ list_all is_ascii_digit bytes.now }
{
    bytes.iter().all(|byte| byte.is_ascii_digit())
}

// Whether these are the digits of a number, of which the first is 0 only where it stands alone.
fn is_plain(bytes: &[u8]) -> bool
    ensures { result ≡ is_plain bytes.now }
{
    match bytes {
        [] => false,
        [first, others @ ..] => are_digits(bytes) && (*first != b'0' || others.is_empty()),
    }
}

/// The number below a bound that the digits spell.
pub(crate) fn number_below(bound: u64, bytes: &[u8]) -> Option<u32>
    requires { bound ≤ 2 ^ 32 }
    ensures value { result ≡ number_below bound bytes.now }
    ensures below { IfSome result (λ n. n < bound) }
{
    if !is_plain(bytes) {
        return None;
    }
    let value = magnitude(bytes);
    if value < bound {
        Some(value as u32)
    } else {
        None
    }
}

/// The word whose signed reading the bytes spell.
pub(crate) fn word_spelled(bits: u32, bytes: &[u8]) -> Option<u32>
    requires { IsWordSize bits }
    ensures { result ≡ word_spelled bits bytes.now }
{
    let half: u64 = if bits == 16 { 1 << 15 } else { 1 << 31 };
    match bytes {
        [b'-', digits @ ..] => match number_below(half + 1, digits) {
            None | Some(0) => None,
            Some(magnitude) => Some((2 * half - u64::from(magnitude)) as u32),
        },
        _ => number_below(half, bytes),
    }
}
