//! Octets that are copied.

ghost use Rattle.std.specs.Prelude.{◌≡◌, length, min, take, replicate};

/// Copies as many octets as `out` has room for, and says how many.
#[inline]
pub(super) fn copy_some(octets: &[u8], out: &mut [u8]) -> usize
    ensures count { result ≡ min (length octets.now) (length out.old) }
    ensures copied { take result out.new ≡ take result octets.now }
{
    let n = octets.len().min(out.len());
    out[..n].copy_from_slice(&octets[..n]);
    n
}

/// Writes as many zeros as `out` has room for, of at most a number, and says how many.
#[inline]
pub(super) fn zero_some(most: usize, out: &mut [u8]) -> usize
    ensures count { result ≡ min most (length out.old) }
    ensures zeros { take result out.new ≡ replicate result 0 }
{
    let n = most.min(out.len());
    out[..n].fill(0);
    n
}
