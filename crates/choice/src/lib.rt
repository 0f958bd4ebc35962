// What the automatic choice keeps: the window of the last requests, and which marks are automatic (document 02, 7). A request that is
// charged to nobody shifts one word; the arrays change where a store is charged or a mark moves, and are written where they stand.
#![tactic(auto)]

ghost use Rattle.std.specs.Prelude.{◌≡◌, ◌<◌, ◌≤◌, ◌%◌, length, take, set, get_or};
ghost use Rattle.choice.specs.Window.{room, shifted, requested_of, emptied_of, tally_charged, prefix_in, charges_of};
ghost use Rattle.choice.specs.Order.{entry_fits, order_fits, choice_fits, automatic_at, prefix_at, charges_at, leaving_of, place_by, with_count, but, fronted, count_with, order_with, relocated};
ghost use Rattle.choice.specs.Refusal.{owned_in, room_in, set_refusal, clear_refusal};
ghost use Rattle.marks.specs.Table.{number};

use entry::GuestVirtual;

// The numbers of it. on: 1 or 0. charged: a bit for each request of the window, the newest lowest. at: where the ring is written next.
// count: how many marks are automatic.
#[derive(Clone, Copy)]
pub struct Tally {
    pub on: u64,
    pub charged: u64,
    pub at: u64,
    pub count: u64,
}

// With the prefixes charged, and the places of the automatic marks in the order in which they were set.
#[derive(Drop)]
pub struct Choice {
    pub tally: Tally,
    pub ring: [u64; 64],
    pub order: [u64; 64],
}

// An array behind a reference has all its words. Nothing is done: a loop over the words leans on the promise.
fn whole(words: &[u64; 64])
    ensures { length words.now ≡ 64 }
{
    let _all: &[u64] = words;
}

// ---- the window

// The word after a request.
fn shift(word: u64, hit: bool) -> u64
    ensures { result ≡ shifted hit word }
{
    let moved = word % 9223372036854775808 * 2;
    if hit {
        return moved + 1;
    }
    moved
}

// The prefix that a word of the ring says.
fn prefix_in(levels: u64, word: u64) -> u64
    requires { levels < 6 }
    ensures { result ≡ prefix_in levels word }
{
    if levels < 1 {
        return 0;
    }
    word % bits::power(9 * (levels - 1))
}

// How many requests of the window were charged to a prefix.
pub fn charges(ring: &[u64; 64], t: Tally, levels: u64, prefix: u64) -> u64
    requires { levels < 6 }
    ensures { result ≡ charges_of levels ring.now t prefix }
{
    whole(ring);
    let mut left = bits::count(t.charged);
    let mut at = t.at % 64;
    let mut found = 0;
    while left > 0 {
        at = (at + 63) % 64;
        if prefix_in(levels, ring[at as usize]) == prefix {
            found += 1;
        }
        left -= 1;
    }
    found
}

impl Tally {
    // After a request that is charged to nobody. With the choice off nothing is kept.
    pub fn requested(mut self) -> Tally
        ensures { result ≡ requested_of self }
    {
        if self.on != 0 {
            self.charged = shift(self.charged, false);
        }
        self
    }

    // After one that is charged to a prefix, which is written into the ring.
    pub fn charged(mut self) -> Tally
        ensures { result ≡ tally_charged self }
    {
        self.charged = shift(self.charged, true);
        self.at = (self.at % 64 + 1) % 64;
        self
    }

    // With so many automatic marks.
    pub fn with_count(mut self, count: u64) -> Tally
        ensures { result ≡ with_count self count }
    {
        self.count = count;
        self
    }

    // After a root load.
    pub fn emptied(mut self) -> Tally
        ensures { result ≡ emptied_of self }
    {
        self.charged = 0;
        self
    }
}

// ---- automatic marks

// One of the automatic marks: a place of a mark of level 1, set and not met before; rest: the set places not met yet.
fn entry_fits(place: &[u64; 64], rest: u64, at: u64) -> bool
    ensures { result ≡ entry_fits place.now rest at }
{
    if at >= 64 {
        return false;
    }
    if (rest >> at) % 2 != 1 {
        return false;
    }
    place[at as usize] % 8 == 1
}

// Are the first `count` words of the order such places, each once?
fn order_fits(place: &[u64; 64], set: u64, order: &[u64; 64], count: u64) -> bool
    requires { count ≤ 64 }
    ensures { result ≡ order_fits place.now set (take count order.now) }
{
    whole(order);
    let end = count as usize;
    let mut rest = set;
    let mut i: usize = 0;
    while i < end {
        let at = order[i];
        if !entry_fits(place, rest, at) {
            return false;
        }
        rest -= bits::power(at);
        i += 1;
    }
    true
}

// Does it break no rule? With the choice off that is a look at three numbers.
pub fn fits(t: Tally, order: &[u64; 64], place: &[u64; 64], set: u64) -> bool
    ensures { result ≡ choice_fits t order.now place.now set }
{
    if t.on == 0 {
        if t.count != 0 {
            return false;
        }
        return t.charged == 0;
    }
    if t.on != 1 {
        return false;
    }
    if 64 < t.count {
        return false;
    }
    order_fits(place, set, order, t.count)
}

// Is the mark at a place automatic?
pub fn automatic_at(order: &[u64; 64], count: u64, place: u64) -> bool
    requires { count ≤ 64 }
    ensures { result ≡ automatic_at count order.now place }
{
    whole(order);
    let end = count as usize;
    let mut i: usize = 0;
    while i < end {
        if order[i] == place {
            return true;
        }
        i += 1;
    }
    false
}

// The prefix of the mark of level 1 at a place.
pub fn prefix_at(place: &[u64; 64], at: u64) -> u64
    ensures { result ≡ prefix_at place.now at }
{
    place[(at % 64) as usize] / 8
}

// How many charges the mark of level 1 at a place has.
fn charges_at(ring: &[u64; 64], t: Tally, place: &[u64; 64], levels: u64, at: u64) -> u64
    requires { levels < 6 }
    ensures { result ≡ charges_at levels ring.now t place.now at }
{
    charges(ring, t, levels, prefix_at(place, at))
}

// The place of the automatic mark that leaves where room is needed, 64 where there is none. From the oldest on, each has to have fewer
// charges than those before it: so of those with the fewest the oldest leaves.
pub fn leaving<'a>(
    ring: &'a [u64; 64],
    t: Tally,
    order: &'a [u64; 64],
    place: &'a [u64; 64],
    levels: u64,
) -> u64
    requires { (levels < 6) × (t.count ≤ 64) }
    ensures { result ≡ place_by (leaving_of levels ring.now t order.now place.now) }
{
    if t.count == 0 {
        return 64;
    }
    whole(order);
    let end = t.count as usize;
    let mut best = order[0];
    let mut fewest = charges_at(ring, t, place, levels, best);
    let mut i: usize = 1;
    while i < end {
        let at = order[i];
        let many = charges_at(ring, t, place, levels, at);
        if many < fewest {
            best = at;
            fewest = many;
        }
        i += 1;
    }
    best
}

// ---- the operator's marks among them

// Is the mark with that key set, and the operator's?
fn owned(t: Tally, order: &[u64; 64], place: &[u64; 64], set: u64, key: u64) -> bool
    requires { t.count ≤ 64 }
    ensures { result ≡ owned_in t order.now (record { set = set; place = place.now }) key }
{
    let at = marks::place_of(place, set, key) as u64;
    if at < 64 {
        return !automatic_at(order, t.count, at);
    }
    false
}

// Is there room for one more? A place is free, or an automatic mark can leave.
#[tactic(auto, unfolding(crate::specs::Refusal::room_in))]
fn has_room(t: Tally, place: &[u64; 64], set: u64) -> bool
    ensures { result ≡ room_in t (record { set = set; place = place.now }) }
{
    if bits::count(set) < 64 {
        return true;
    }
    0 < t.count
}

// The number with which setting a mark is refused, or 0.
pub fn set_refusal(
    t: Tally,
    order: &[u64; 64],
    place: &[u64; 64],
    set: u64,
    levels: u64,
    address: GuestVirtual,
    level: u64,
) -> u64
    requires { (levels < 6) × (t.count ≤ 64) }
    ensures { result ≡ number (set_refusal levels t order.now (record { set = set; place = place.now }) address.0 level) }
{
    if !address.fits(levels) {
        return 4;
    }
    if !marks::level_fits(levels, level) {
        return 5;
    }
    if owned(t, order, place, set, marks::key_of(levels, level, address)) {
        return 6;
    }
    if has_room(t, place, set) {
        return 0;
    }
    7
}

// The number with which clearing a mark is refused, or 0.
pub fn clear_refusal(
    t: Tally,
    order: &[u64; 64],
    place: &[u64; 64],
    set: u64,
    levels: u64,
    address: GuestVirtual,
    level: u64,
) -> u64
    requires { (levels < 6) × (t.count ≤ 64) }
    ensures { result ≡ number (clear_refusal levels t order.now (record { set = set; place = place.now }) address.0 level) }
{
    if !address.fits(levels) {
        return 4;
    }
    if !marks::level_fits(levels, level) {
        return 5;
    }
    if owned(t, order, place, set, marks::key_of(levels, level, address)) {
        return 0;
    }
    6
}

// ---- the arrays after a charge and after a move, written where they stand

// The word of the ring that the next charge is written over.
pub fn next_word(ring: &[u64; 64], t: Tally) -> u64
    ensures { result ≡ get_or ring.now (t.at % room) 0 }
{
    ring[(t.at % 64) as usize]
}

// Writes that word.
pub fn put_word(ring: &mut [u64; 64], t: Tally, word: u64)
    ensures { ring.new ≡ set ring.old (t.at % room) word }
{
    ring[(t.at % 64) as usize] = word;
}

// The mark at a place is automatic no longer: how many are.
pub fn without(order: &mut [u64; 64], count: u64, place: u64) -> u64
    requires { count ≤ 64 }
    ensures { (result ≡ length (but place order.old count)) × (order.new ≡ fronted (but place order.old count) order.old) }
{
    whole(order);
    let end = count as usize;
    let mut kept: usize = 0;
    let mut i: usize = 0;
    while i < end {
        let at = order[i];
        if at != place {
            order[kept] = at;
            kept += 1;
        }
        i += 1;
    }
    kept as u64
}

// The mark at a place is automatic, the last one set: how many are.
pub fn with(order: &mut [u64; 64], count: u64, place: u64) -> u64
    ensures { (result ≡ count_with count) × (order.new ≡ order_with count order.old place) }
{
    if count >= 64 {
        return count;
    }
    order[count as usize] = place;
    count + 1
}

// The marks were put into another table: each automatic one is looked up by its key in the old places.
pub fn moved<'a>(
    order: &mut [u64; 64],
    count: u64,
    old: &'a [u64; 64],
    place: &'a [u64; 64],
    set: u64,
)
    requires { count ≤ 64 }
    ensures { order.new ≡ relocated count order.old old.now place.now set }
{
    whole(order);
    let end = count as usize;
    let mut i: usize = 0;
    while i < end {
        let key = old[(order[i] % 64) as usize];
        order[i] = marks::place_of(place, set, key) as u64;
        i += 1;
    }
}
