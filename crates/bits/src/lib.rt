// One bit of a u64, the lowest set one, and the count.
#![tactic(auto)]

ghost use Rattle.std.specs.Prelude.{◌≡◌, ◌-◌, ◌^◌, ◌<◌};
ghost use Rattle.std.specs.Int.Bits.{bit_and};
ghost use Rattle.std.specs.Int.Count.{ones, count_trailing_zeros};

// Two to the power of a place.
pub fn power(place: u64) -> u64
    requires { place < 64 }
    ensures { result ≡ 2 ^ place }
{
    1u64 << place
}

// How many bits are set.
pub fn count(x: u64) -> u64
    ensures { result ≡ ones x }
{
    u64::count_ones(x) as u64
}

// The place of the lowest set bit.
pub fn lowest(x: u64) -> usize
    requires { 0 < x }
    ensures { (result ≡ count_trailing_zeros 64 x) × (result < 64) }
{
    u64::trailing_zeros(x) as usize
}

// The number without its lowest set bit: what is left of a loop over the set places.
pub fn after_lowest(x: u64) -> u64
    requires { 0 < x }
    ensures { (result ≡ bit_and x (x - 1)) × (result < x) }
{
    x & (x - 1)
}
