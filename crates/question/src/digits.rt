// The eight digits of a pattern.
ghost use Rattle.std.specs.Prelude.{◌≡◌, length};
ghost use Rattle.question.specs.Inner.{digit_read, digits_read};

fn digit(byte: u8) -> Option<u8>
    ensures { result ≡ digit_read byte }
{
    match byte {
        b'0'..=b'9' => Some(byte - b'0'),
        b'A'..=b'F' => Some(byte - b'A' + 10),
        _ => None,
    }
}

pub fn value(bytes: &[u8]) -> Option<u32>
    requires { length bytes.now ≡ 8 }
    ensures { result ≡ digits_read bytes.now }
{
    let mut n: u32 = 0;
    for &byte in bytes {
        n = n * 16 + u32::from(digit(byte)?);
    }
    Some(n)
}
