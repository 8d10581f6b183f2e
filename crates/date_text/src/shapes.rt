//! Shapes of texts, and the numbers in them.
ghost use Rattle.std.specs.Prelude.{◌≡◌, ◌≤◌, IsTrue, length};
ghost use Rattle.std.specs.Char.{is_ascii_digit};
ghost use Rattle.std.specs.List.{list_all};
ghost use Rattle.std.specs.Str.Parse.{AllDigits, digits_value};
ghost use Rattle.date_spec.specs.Shapes.{has_shape, stands_for};

/// Whether a byte may stand where the shape has this one: `0` stands for any digit.
fn fits(place: u8, byte: u8) -> bool
    ensures { result ≡ stands_for place byte }
{
    if place == b'0' {
        byte.is_ascii_digit()
    } else {
        byte == place
    }
}

/// Whether a text has this shape, in which `0` stands for any digit.
pub(crate) fn has_shape(text: &[u8], shape: &[u8]) -> bool
    ensures shape { result ≡ has_shape shape.now text.now }
    ensures long { IsTrue result → length text.now ≡ length shape.now }
{
    if text.len() != shape.len() {
        return false;
    }
    for (index, place) in shape.iter().enumerate() {
        if !fits(*place, text[index]) {
            return false;
        }
    }
    true
}

/// Whether each byte is a digit.
pub(crate) fn are_digits(text: &[u8]) -> bool
    ensures { result ≡ list_all is_ascii_digit text.now }
{
    text.iter().all(|byte| byte.is_ascii_digit())
}

/// The number that up to four digits write.
pub(crate) fn number(digits: &[u8]) -> u16
    requires digits { AllDigits 10 digits.now }
    requires few { length digits.now ≤ 4 }
    ensures value { result ≡ digits_value 10 digits.now }
{
    let mut number = 0;
    for digit in digits {
        number = number * 10 + u16::from(*digit - b'0');
    }
    number
}
