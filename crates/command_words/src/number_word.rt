//! Numbers on the command line.
ghost use Rattle.std.specs.Prelude.{◌≡◌, ◌≤◌, IfSome};
ghost use Rattle.command_words.specs.CommandLineWords.{number_in};

/// The value of decimal digits, where it is within two bounds. Leading zeros may stand.
pub fn number_within(word: &[u8], least: u64, most: u64) -> Option<u64>
    ensures value { result ≡ number_in least most word.now }
    ensures fits { IfSome result (λ n. n ≤ most) }
{
    if word.is_empty() {
        return None;
    }
    let mut n = 0u64;
    for c in word {
        if !c.is_ascii_digit() {
            return None;
        }
        let next = 10 * u128::from(n) + u128::from(*c - b'0');
        if next > u128::from(most) {
            return None;
        }
        n = next as u64;
    }
    if n < least { None } else { Some(n) }
}
