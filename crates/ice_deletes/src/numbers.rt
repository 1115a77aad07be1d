//! Numbers of delete files.

ghost use Rattle.std.specs.Prelude.{◌≡◌, ◌≤◌, ◌++◌, All, OnOk, filter, nat_le};

use std::alloc::AllocError;

/// The least of the numbers; the largest one of all, if there are none.
pub fn least_of(numbers: &[u32]) -> u32
    ensures { All (λ n. result ≤ n) numbers.now }
{
    let mut least = u32::MAX;
    'numbers: for number in numbers {
        if *number < least {
            least = *number;
        }
    }
    least
}

/// Puts those of the numbers last that are not below the least one.
pub fn push_from(held: &mut Vec<usize>, numbers: &[usize], least: usize) -> Result<(), AllocError>
    ensures { OnOk result (held.new.items ≡ held.old.items ++ filter (nat_le least) numbers.now) }
{
    'numbers: for number in numbers {
        if least <= *number {
            held.push(*number)?;
        }
    }
    Ok(())
}
