//! Hexadecimal digits.
ghost use Rattle.std.specs.Prelude.{◌≡◌, ◌<◌};
ghost use Rattle.std.specs.Char.{digit_char};
ghost use Rattle.vq_model.specs.OutputText.{hex_digit};

/// A lower-case hexadecimal digit.
pub fn hex_digit(value: u8) -> u8
    requires { value < 16 }
    ensures digit { result ≡ hex_digit value }
    ensures as_printed { result ≡ digit_char value }
{
    if value < 10 {
        b'0' + value
    } else {
        b'a' + (value - 10)
    }
}
