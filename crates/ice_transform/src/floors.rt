//! Whole numbers rounded down.

ghost use Rattle.std.specs.Prelude.{◌≡◌, ◌<◌, ◌^◌, pos, ◌<ℤ◌};
ghost use Rattle.ice_transform.specs.Floors.{floor_div, floor_to, int_if, long_if};

/// The unit in which the number lies.
pub fn unit_of(number: i64, size: i64) -> i64
    requires { pos 0 <ℤ size }
    ensures { result ≡ floor_div size number }
{
    number.div_euclid(size)
}

/// The greatest multiple of the width up to the number, where it fits 64 bits.
pub fn truncate(number: i64, width: u32) -> Option<i64>
    requires { 0 < width }
    ensures { result ≡ long_if (floor_to (pos width) number) }
{
    let width = width as i64;
    number.checked_sub(number.rem_euclid(width))
}

/// The number, where it fits 32 bits.
pub fn int_if(number: i64) -> Option<i64>
    ensures { result ≡ int_if number }
{
    if number >= -0x8000_0000 && number < 0x8000_0000 {
        Some(number)
    } else {
        None
    }
}
