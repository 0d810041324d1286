//! The check of a unit file.
ghost use Rattle.std.specs.Prelude.{◌≡◌, ◌≤◌, length};
ghost use Rattle.bytecode.specs.Layout.{check};

/// The sum of the bytes of a file's first part, modulo 65,521.
pub fn check_sum(part: &[u8]) -> u16
    ensures { result ≡ check part.now }
{
    if part.len() <= 16_777_216 {
        sum_of_few(part)
    } else {
        sum_of_many(part)
    }
}

/// With one modulus at the end: the sum of so few bytes fits.
fn sum_of_few(part: &[u8]) -> u16
    requires { length part.now ≤ 16777216 }
    ensures { result ≡ check part.now }
{
    let mut sum: u32 = 0;
    for byte in part {
        sum += u32::from(*byte);
    }
    (sum % 65_521) as u16
}

/// With a modulus at each byte.
fn sum_of_many(part: &[u8]) -> u16
    ensures { result ≡ check part.now }
{
    let mut sum: u32 = 0;
    for byte in part {
        sum = (sum + u32::from(*byte)) % 65_521;
    }
    sum as u16
}
