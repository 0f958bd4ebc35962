// The table of marks. A mark stands in one word, its key (specs/Key); the keys of the set places ascend in the order of the places.
// So one pass shows that no two are alike, and a mark of the highest level stands among the first places.
// What is called often takes the places by reference; a table is passed by value only where it changes.
#![tactic(auto)]

ghost use Rattle.std.specs.Prelude.{◌≡◌, not, ◌&&◌, [], eqb, ltb, ◌-◌, ◌<◌, min, max};
ghost use Rattle.std.specs.Int.Count.{ones};
ghost use Rattle.spec.specs.Prefix.{any};
ghost use Rattle.spec.specs.Refusal.{level_fits};
ghost use Rattle.entry.specs.Levels.{of_levels};
ghost use Rattle.marks.specs.Key.{low_page, key_at, keys_fit, ascending};
ghost use Rattle.marks.specs.ByLevel.{end_of, ends_of, fits_by};
ghost use Rattle.marks.specs.Table.{keys, place_of, inserted, table_of, with_key, without_key};

use entry::GuestVirtual;

// The places that are set, and the key at each place.
#[derive(Drop)]
pub struct Marks {
    pub set: u64,
    pub place: [u64; 64],
}

// The greater of two numbers.
pub fn greater(a: u64, b: u64) -> u64
    ensures { result ≡ max a b }
{
    if a < b { b } else { a }
}

// The smaller of two numbers.
fn smaller(a: u64, b: u64) -> u64
    ensures { result ≡ min a b }
{
    if a < b { a } else { b }
}

// The page number in the low bits of an address, those that its indexes take.
#[tactic(auto, unfolding(crate::specs::Key::low_page))]
fn low_page(levels: u64, address: GuestVirtual) -> u64
    ensures { result ≡ low_page levels address.0 }
{
    if levels < 6 {
        return address.page() % bits::power(9 * levels);
    }
    // Six indexes take every bit that an address has above its offset.
    address.page()
}

// The key of the mark of that level at an address.
pub fn key_of(levels: u64, level: u64, address: GuestVirtual) -> u64
    requires { level < 8 }
    ensures { result ≡ key_at levels level address.0 }
{
    (low_page(levels, address) >> (9 * level)) * 8 + level
}

// The first set place that holds the key; 64 where none does.
pub fn place_of(place: &[u64; 64], set: u64, key: u64) -> usize
    ensures { result ≡ place_of place.now set key }
{
    let mut rest = set;
    while rest != 0 {
        let i = bits::lowest(rest);
        if place[i] == key {
            return i;
        }
        rest = bits::after_lowest(rest);
    }
    64
}

// How many indexes a mark of that level keeps.
fn kept(levels: u64, level: u64) -> u64
    ensures { result ≡ levels - level }
{
    if level < levels { levels - level } else { 0 }
}

// The first number too large for a key of that level; 0 where no mark has it.
fn end_of(levels: u64, level: u64) -> u64
    requires { levels < 6 }
    ensures { result ≡ end_of levels level }
{
    if level_fits(levels, level) {
        return 8 * bits::power(9 * kept(levels, level));
    }
    0
}

// The end of each level's keys, made once for a pass.
fn ends_of(levels: u64) -> [u64; 8]
    requires { levels < 6 }
    ensures { result ≡ ends_of levels }
{
    [
        end_of(levels, 0),
        end_of(levels, 1),
        end_of(levels, 2),
        end_of(levels, 3),
        end_of(levels, 4),
        end_of(levels, 5),
        end_of(levels, 6),
        end_of(levels, 7),
    ]
}

// Is it the key of a mark, with only the indexes that the mark keeps?
fn key_fits(ends: &[u64; 8], key: u64) -> bool
    ensures { result ≡ fits_by ends.now key }
{
    let level = (key % 8) as usize;
    key < ends[level]
}

// The next key of an ascending table.
fn follows(ends: &[u64; 8], last: u64, key: u64) -> bool
    ensures { result ≡ (ltb last key && fits_by ends.now key) }
{
    if last < key {
        return key_fits(ends, key);
    }
    false
}

// Does each key fit, and is it greater than the one before it?
fn ascends(place: &[u64; 64], set: u64, levels: u64) -> bool
    requires { levels < 6 }
    ensures { result ≡ ascending levels 0 (keys place.now set) }
{
    if set == 0 {
        return true;
    }
    let ends = ends_of(levels);
    let mut last = 0;
    let mut rest = set;
    while rest != 0 {
        let i = bits::lowest(rest);
        let key = place[i];
        if !follows(&ends, last, key) {
            return false;
        }
        last = key;
        rest = bits::after_lowest(rest);
    }
    true
}

// Does a set place hold the key?
fn holds(place: &[u64; 64], set: u64, key: u64) -> bool
    ensures { result ≡ any (eqb key) (keys place.now set) }
{
    place_of(place, set, key) < 64
}

// Is the key one of a mark, and at no place of the rest?
fn differs(place: &[u64; 64], rest: u64, ends: &[u64; 8], key: u64) -> bool
    ensures { result ≡ (fits_by ends.now key && not (any (eqb key) (keys place.now rest))) }
{
    if key_fits(ends, key) {
        return !holds(place, rest, key);
    }
    false
}

// The rule for keys in any order.
fn all_differ(place: &[u64; 64], set: u64, levels: u64) -> bool
    requires { levels < 6 }
    ensures { result ≡ keys_fit levels (keys place.now set) }
{
    let ends = ends_of(levels);
    let mut rest = set;
    while rest != 0 {
        let i = bits::lowest(rest);
        rest = bits::after_lowest(rest);
        if !differs(place, rest, &ends, place[i]) {
            return false;
        }
    }
    true
}

// Does the table break no rule? One pass where the keys ascend, as they do in every table made here.
pub fn fits(place: &[u64; 64], set: u64, levels: u64) -> bool
    requires { levels < 6 }
    ensures { result ≡ keys_fit levels (keys place.now set) }
{
    if ascends(place, set, levels) {
        return true;
    }
    all_differ(place, set, levels)
}

// Is it the level of a mark?
pub fn level_fits(levels: u64, level: u64) -> bool
    requires { levels < 6 }
    ensures { result ≡ level_fits (of_levels levels) level }
{
    if level < 1 {
        return false;
    }
    level <= levels + 1
}

impl Marks {
    // No mark.
    pub fn empty() -> Marks
        ensures { result ≡ table_of [] }
    {
        Marks {
            set: 0,
            place: [0u64; 64],
        }
    }

    // The table with the key, in ascending order at the first places; unchanged where no place is free.
    pub fn with_key(self, key: u64) -> Marks
        ensures { result ≡ with_key self key }
    {
        if bits::count(self.set) < 64 {
            return self.inserted(key);
        }
        self
    }

    fn inserted(self, key: u64) -> Marks
        requires { ones self.set < 64 }
        ensures { result ≡ table_of (inserted key (keys self.place self.set)) }
    {
        let mut place = [0u64; 64];
        let mut count: usize = 0;
        let mut next = key;
        let mut rest = self.set;
        while rest != 0 {
            let i = bits::lowest(rest);
            rest = bits::after_lowest(rest);
            let old = self.place[i];
            place[count] = smaller(old, next);
            next = greater(old, next);
            count += 1;
        }
        place[count] = next;
        Marks {
            set: 18446744073709551615 >> (63 - count),
            place: place,
        }
    }
}

// The places set in the table without the key; the other marks keep theirs.
pub fn without(place: &[u64; 64], set: u64, key: u64) -> u64
    ensures { record { set = result; place = place.now } ≡ without_key (record { set = set; place = place.now }) key }
{
    let i = place_of(place, set, key);
    if i < 64 {
        return set - bits::power(i as u64);
    }
    set
}
