// Address boundaries: which Q a login and the cut take, and how long a piece may be at an address.
#![tactic(auto)]

ghost use Rattle.std.specs.Prelude.{◌≡◌, false};
ghost use Rattle.srp.specs.Cutting.{longest_at_lem, bad_boundary};

use srp::limits::{GREATEST_EXPONENT, LEAST_EXPONENT};

// Whether Q is neither 0 nor a power of two from 512 to 2^32.
pub fn is_bad(q: u64) -> bool
    ensures { result ≡ bad_boundary q }
{
    if q == 0 {
        return false;
    }
    let exponent = q.trailing_zeros();
    if exponent < LEAST_EXPONENT {
        return true;
    }
    if GREATEST_EXPONENT < exponent {
        return true;
    }
    q != 1u64 << exponent
}

// The longest piece at an address: M bytes, or up to the next multiple of Q above it. A power of two less 1 masks what an address is above a multiple.
pub fn longest_at(most: u32, q: u64, address: u64) -> u32
    requires { bad_boundary q ≡ false }
    ensures { result ≡ longest_at_lem most q address }
{
    if q == 0 {
        return most;
    }
    (most as u64).min(q - (address & (q - 1))) as u32
}
