// The depth of an address: the greatest level among the marks that hold for it, found in one pass over the set places. A mark of
// the highest level ends the pass.
#![tactic(auto)]

ghost use Rattle.std.specs.Prelude.{◌≡◌, ◌+◌, ◌-◌, ◌≤◌};
ghost use Rattle.std.specs.Int.Count.{ones};
ghost use Rattle.marks.specs.Key.{low_page};
ghost use Rattle.marks.specs.ByLevel.{wants_of, wanted_from};
ghost use Rattle.marks.specs.Table.{keys, lookup_among};

use entry::GuestVirtual;
use spec::Lookup;

// The key of the mark of each level at an address, made once for a search.
fn wants_of(levels: u64, address: GuestVirtual) -> [u64; 8]
    ensures { result ≡ wants_of (low_page levels address.0) }
{
    [
        marks::key_of(levels, 0, address),
        marks::key_of(levels, 1, address),
        marks::key_of(levels, 2, address),
        marks::key_of(levels, 3, address),
        marks::key_of(levels, 4, address),
        marks::key_of(levels, 5, address),
        marks::key_of(levels, 6, address),
        marks::key_of(levels, 7, address),
    ]
}

// The set from the first place on whose key is wanted. A loop of its own, so that passing a key takes few instructions.
fn wanted_from(place: &[u64; 64], set: u64, wants: &[u64; 8]) -> u64
    ensures { (keys place.now result ≡ wanted_from wants.now (keys place.now set)) × (result ≤ set) }
{
    let mut rest = set;
    while rest != 0 {
        let i = bits::lowest(rest);
        let key = place[i];
        let level = (key % 8) as usize;
        if wants[level] == key {
            return rest;
        }
        rest = bits::after_lowest(rest);
    }
    0
}

// Where a search ended: the depth, and the set from the first place on that was not read.
#[derive(Clone, Copy)]
struct Searched {
    depth: u64,
    rest: u64,
}

// The search: the set places are visited in their order. No mark has a greater level than one above all tables', so such a one ends it.
fn search(place: &[u64; 64], set: u64, levels: u64, address: GuestVirtual) -> Searched
    ensures { (result.depth ≡ (lookup_among levels place.now set address.0).depth) × ((lookup_among levels place.now set address.0).read + ones result.rest ≡ ones set) }
{
    if set == 0 {
        return Searched { depth: 0, rest: 0 };
    }
    let wants = wants_of(levels, address);
    let mut found = 0;
    let mut rest = set;
    let depth = loop {
        rest = wanted_from(place, rest, &wants);
        if rest == 0 {
            break found;
        }
        let i = bits::lowest(rest);
        let level = place[i] % 8;
        rest = bits::after_lowest(rest);
        if levels < level {
            break level;
        }
        found = marks::greater(found, level);
    };
    Searched {
        depth: depth,
        rest: rest,
    }
}

// The depth of an address.
pub fn depth(place: &[u64; 64], set: u64, levels: u64, address: GuestVirtual) -> u64
    ensures { result ≡ (lookup_among levels place.now set address.0).depth }
{
    search(place, set, levels, address).depth
}

// The depth of an address, and how many marks were read for it: as many as are set, less those that are left.
pub fn lookup(place: &[u64; 64], set: u64, levels: u64, address: GuestVirtual) -> Lookup
    ensures { result ≡ lookup_among levels place.now set address.0 }
{
    let s = search(place, set, levels, address);
    Lookup {
        depth: s.depth,
        read: bits::count(set) - bits::count(s.rest),
    }
}
