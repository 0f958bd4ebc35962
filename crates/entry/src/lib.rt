// The three address sorts, the widths of an access and the bits of an entry. What each function yields is what the specification's definition gives.
#![tactic(auto)]

ghost use Rattle.std.specs.Prelude.{◌≡◌, ◌+◌, ◌*◌, ◌%◌, ◌<◌, ◌≤◌, not, ◌&&◌, ◌||◌, T, ◌==◌, nat_lt};
ghost use Rattle.spec.specs.Config.{frame_bits};
ghost use Rattle.spec.specs.Bytes.{width_fits, aligned};
ghost use Rattle.spec.specs.Refusal.{address_fits};
ghost use Rattle.entry.specs.Levels.{of_levels};
ghost use Rattle.spec.specs.Entry.{present, writable, switch, accessed, dirty, with_bit, frame_of, large, frames_below, malformed, index, page_of};
ghost use Rattle.spec.specs.Bits.{has_bits, with_bits};

// How many frames an entry can name, and the values of the bits that an entry's rules read.
pub const FRAME_LIMIT: u64 = 1099511627776;

pub const ENTRY_LIMIT: u64 = 4503599627370496;

// A guest-virtual address.
#[derive(Clone, Copy)]
pub struct GuestVirtual(pub u64);

// A guest-physical page, by its frame number: offsets are never translated.
#[derive(Clone, Copy)]
pub struct GuestPhysical(pub u64);

// A host-physical page, by its frame number.
#[derive(Clone, Copy)]
pub struct HostPhysical(pub u64);

impl GuestVirtual {
    // Is the address legal for tables of that many levels? Half of all addresses lie below 0: moved up by their number, which wraps,
    // both halves together are the numbers that have no more bits than offset and indexes.
    pub fn fits(self, levels: u64) -> bool
        requires { levels < 6 }
        ensures { result ≡ address_fits (of_levels levels) self.0 }
    {
        let moved = std::num::wrapping_add_u64(self.0, 1u64 << (11 + 9 * levels));
        moved >> (12 + 9 * levels) == 0
    }

    // Is it the address of so many bytes that tables of that many levels translate?
    pub fn names_bytes(self, levels: u64, width: u64) -> bool
        requires { (levels < 6) × (T (width_fits width)) }
        ensures { result ≡ (address_fits (of_levels levels) self.0 && aligned self.0 width) }
    {
        if self.fits(levels) {
            aligned(self.0, width)
        } else {
            false
        }
    }

    // The page number: the address without its offset. Its bits above the indexes repeat the sign; no index takes them.
    pub fn page(self) -> u64
        ensures { result ≡ page_of self.0 }
    {
        self.0 / 4096
    }
}

// Is it the width of an access, in bytes? From 1 to 8, the powers of two have no bit in common with the number below them.
pub fn width_fits(width: u64) -> bool
    ensures { result ≡ width_fits width }
{
    if width == 0 {
        return false;
    }
    if 8 < width {
        return false;
    }
    width & (width - 1) == 0
}

// Is the address a multiple of the width? That is a power of two, so the bits below it say it without a division.
pub fn aligned(address: u64, width: u64) -> bool
    requires { T (width_fits width) }
    ensures { result ≡ aligned address width }
{
    address & (width - 1) == 0
}

// The index of a page or frame number that has `below` levels below it.
pub fn index_of(number: u64, below: u64) -> usize
    requires { below < 8 }
    ensures { result ≡ index below number }
{
    ((number >> (9 * below)) % 512) as usize
}

pub fn present(e: u64) -> bool
    ensures { result ≡ present e }
{
    e % 2 == 1
}

pub fn writable(e: u64) -> bool
    ensures { result ≡ writable e }
{
    e / 2 % 2 == 1
}

pub fn switch(e: u64) -> bool
    ensures { result ≡ switch e }
{
    e / 512 % 2 == 1
}

pub fn frame_of(e: u64) -> u64
    ensures { result ≡ frame_of e }
{
    e / 4096 % FRAME_LIMIT
}

// How many bits a guest frame number has: 9 for each level, and never more than the 40 that an entry holds.
pub fn frame_bits(levels: u64) -> u64
    ensures { result ≡ frame_bits (of_levels levels) }
{
    if levels < 5 { 9 * levels } else { 40 }
}

// Does a guest entry of that level map a large page?
pub fn large(level: u64, e: u64) -> bool
    ensures { result ≡ large level e }
{
    if level <= 1 {
        return false;
    }
    if level > 3 {
        return false;
    }
    e / 128 % 2 == 1
}

// How many frames there are below an entry of that level.
pub fn frames_below(level: u64) -> u64
    requires { level ≤ 7 }
    ensures { result ≡ frames_below level }
{
    if level == 0 {
        return 1;
    }
    1u64 << (9 * (level - 1))
}

// Is an entry of level 2 or more malformed by bit 7? It is above level 3 and, where it maps a large page, unless its frame is the first
// of such a page.
fn misplaced(level: u64, e: u64) -> bool
    ensures { result ≡ (nat_lt 3 level || not (frame_of e % frames_below level == 0)) }
{
    if level > 3 {
        return true;
    }
    !(frame_of(e) % frames_below(level) == 0)
}

// Is a present guest entry of that level malformed?
pub fn malformed(levels: u64, level: u64, e: u64) -> bool
    ensures { result ≡ malformed (of_levels levels) level e }
{
    // The bits of the frame number above those that a guest frame number has.
    if (e % ENTRY_LIMIT) >> (12 + frame_bits(levels)) == 0 {
        if level <= 1 {
            return false;
        }
        if e / 128 % 2 == 0 {
            return false;
        }
        return misplaced(level, e);
    }
    true
}

// ---- accessed and dirty bits of a guest entry

pub fn accessed(e: u64) -> bool
    ensures { result ≡ accessed e }
{
    e / 32 % 2 == 1
}

pub fn dirty(e: u64) -> bool
    ensures { result ≡ dirty e }
{
    e / 64 % 2 == 1
}

// Has it the bits that it needs: accessed, and dirty where a store's walk ends?
pub fn has_bits(ends: bool, e: u64) -> bool
    ensures { result ≡ has_bits ends e }
{
    if !accessed(e) {
        return false;
    }
    if ends { dirty(e) } else { true }
}

// The entry with that bit.
fn with_bit(e: u64, bit: u64) -> u64
    requires { bit < 64 }
    ensures { result ≡ with_bit bit e }
{
    if (e >> bit) % 2 == 1 {
        return e;
    }
    e + (1u64 << bit)
}

// The entry with the bits that it needs.
pub fn with_bits(ends: bool, e: u64) -> u64
    ensures { result ≡ with_bits ends e }
{
    let seen = with_bit(e, 5);
    if ends { with_bit(seen, 6) } else { seen }
}
