// Numbers in decimal.
ghost use Rattle.std.specs.Prelude.{◌≡◌, ◌≢◌, ◌<◌, ◌≤◌, ℕ, length, decimal, IfSome, IfNone};
ghost use Rattle.std.specs.Str.Parse.{AllDigits, digits_value};
ghost use Rattle.gcd_text.specs.Numbers.{number_end};

// The most digits of a number below 10^10.
const MAX_DIGITS: usize = 10;

// The number that digits stand for; None exactly where one of the bytes is no digit.
fn value_of(digits: &[u8]) -> Option<u64>
    requires { length digits.now ≤ 10 }
    ensures digits { IfSome result (λ n. AllDigits 10 digits.now) }
    ensures value { IfSome result (λ n. n ≡ digits_value 10 digits.now) }
    ensures other { IfNone result (AllDigits 10 digits.now → ⊥) }
{
    let mut value = 0u64;
    for digit in digits {
        if !digit.is_ascii_digit() {
            return None;
        }
        value = value * 10 + u64::from(*digit - b'0');
    }
    Some(value)
}

/// The number that the word writes in decimal, with no sign and no leading zero; None exactly where no number below 10^10
/// is written so.
pub fn number(word: &[u8]) -> Option<u64>
    ensures written { IfSome result (λ n. word.now ≡ decimal n) }
    ensures low { IfSome result (λ n. n < number_end) }
    ensures unwritten { IfNone result ((n : ℕ) → n < number_end → word.now ≢ decimal n) }
{
    if word.is_empty() {
        return None;
    }
    if word.len() > MAX_DIGITS {
        return None;
    }
    if word[0] == b'0' {
        return if word.len() == 1 { Some(0) } else { None };
    }
    value_of(word)
}
