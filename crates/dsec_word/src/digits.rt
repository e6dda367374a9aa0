//! Numbers in decimal digits.

ghost use Rattle.std.specs.Prelude.{◌≡◌, ◌<◌, ◌≤◌, ◌^◌, IfSome};
ghost use Rattle.std.specs.Option.{SomeIff};
ghost use Rattle.std.specs.Str.Parse.{IsNumeral, digits_value};
ghost use Rattle.dsec_word.specs.Numbers.{number_of};

/// The number that a word writes in decimal digits, if it is at most `most`.
pub fn number(word: &[u8], most: u64) -> Option<u64>
    ensures value { result ≡ number_of most word.now }
    ensures bound { IfSome result (λ number. number ≤ most) }
{
    match decimal(word) {
        None => None,
        Some(number) => {
            if number > most {
                return None;
            }
            Some(number)
        }
    }
}

/// The number that decimal digits write, without a sign.
fn decimal(digits: &[u8]) -> Option<u64>
    ensures { SomeIff result (IsNumeral 10 digits.now × (digits_value 10 digits.now < 2 ^ 64)) (digits_value 10 digits.now) }
{
    if digits.starts_with(b"+") {
        return None;
    }
    let text = str::from_utf8(digits).ok()?;
    text.parse::<u64>().ok()
}
