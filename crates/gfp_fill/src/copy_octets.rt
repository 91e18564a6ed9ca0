//! Octets that are copied.

ghost use Rattle.std.specs.Prelude.{◌≡◌, ◌+◌, ◌≤◌, ◌++◌, length, min, take, drop};

// Puts octets at a place of a slice.
#[inline]
pub(crate) fn put(out: &mut [u8], at: usize, octets: &[u8])
    requires { at + length octets.now ≤ length out.old }
    ensures front { take (at + length octets.now) out.new ≡ take at out.old ++ octets.now }
    ensures back { drop (at + length octets.now) out.new ≡ drop (at + length octets.now) out.old }
{
    out[at..at + octets.len()].copy_from_slice(octets);
}

/// Copies as many octets as `out` has room for, and says how many.
#[inline]
pub(crate) fn copy_some(octets: &[u8], out: &mut [u8]) -> usize
    ensures count { result ≡ min (length octets.now) (length out.old) }
    ensures copied { take result out.new ≡ take result octets.now }
    ensures behind { drop result out.new ≡ drop result out.old }
{
    let n = octets.len().min(out.len());
    out[..n].copy_from_slice(&octets[..n]);
    n
}
