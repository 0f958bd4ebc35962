// Marks set and cleared, by the operator and by the automatic choice (document 02, 7): the head by value, the arrays of the record lent
// and written where they stand. Each move drops the paths that begin with the mark's indexes, and changes the marks only then. Not ok:
// damaged tables were met, and head and arrays are as they were.
#![tactic(auto)]

ghost use Rattle.std.specs.Prelude.{◌≡◌, ◌<◌, ◌≤◌, ◌%◌, ◌^◌, get_or};
ghost use Rattle.words.specs.After.{yields};
ghost use Rattle.marks.specs.Table.{with_key};
ghost use Rattle.choice.specs.Order.{relocated};
ghost use Rattle.record.specs.Record.{record_by};
ghost use Rattle.automatic.specs.Moves.{SoundHead, Ready, held_after, head_shadow, cut_of, moved_in, kept_by, withdrawn_of, room_made_of, appointed_of, appointed_in, judged_of, charged_of, added_of, taken_over_of, set_of, cleared_of};

use entry::{GuestVirtual, HostPhysical};
use marks::Marks;
use pool::Pool;
use record::{Head, Pools};

// What a move leaves, beside the arrays.
#[derive(Clone, Copy)]
pub struct Moved {
    pub head: Head,
    pub ok: bool,
}

// ---- the paths below a mark

// The frame held in the record after a mark that keeps so many indexes: it goes where the mark keeps none.
fn held_after(kept: u64, held: HostPhysical) -> HostPhysical
    ensures { result ≡ held_after kept held }
{
    if kept == 0 {
        return HostPhysical(0);
    }
    held
}

// With another pool of the shadow tables, and another frame held in the record.
pub fn with_shadow(head: Head, shadow: Pool, held: HostPhysical) -> Head
    ensures { result ≡ head_shadow head shadow held }
{
    let host = head.pools.host;
    head.with_tables(
        Pools {
            host: host,
            shadow: shadow,
        },
        held,
    )
}

// The paths that begin with the last `kept` indexes of a number are dropped.
fn cut(head: Head, mem: &mut [u64], kept: u64, path: u64) -> Moved
    requires { (SoundHead head) × (kept ≤ head.layout.levels) }
    ensures { yields result mem.new ≡ cut_of head mem.old kept path }
{
    let left = drops::drop_prefix(mem, head.layout, head.pools.shadow, path, kept);
    let pool = left.pool;
    if !left.ok {
        return Moved {
            head: head,
            ok: false,
        };
    }
    Moved {
        head: with_shadow(head, pool, held_after(kept, head.held)),
        ok: true,
    }
}

// ---- the automatic choice

// The key at a place.
fn key_at(place: &[u64; 64], at: u64) -> u64
    ensures { result ≡ get_or place.now (at % 64) 0 }
{
    place[(at % 64) as usize]
}

// The automatic mark at a place is cleared.
fn withdraw<'a>(
    head: Head,
    place: &'a [u64; 64],
    ring: &'a [u64; 64],
    order: &mut [u64; 64],
    mem: &mut [u64],
    at: u64,
) -> Moved
    requires { Ready (record_by head place.now ring.now order.old) }
    ensures { yields (moved_in place.now ring.now order.new result) mem.new ≡ withdrawn_of (record_by head place.now ring.now order.old) mem.old at }
{
    let kept = drops::links(head.layout.levels, 1);
    let m = cut(head, mem, kept, choice::prefix_at(place, at));
    if !m.ok {
        return m;
    }
    let set = marks::without(place, head.set, key_at(place, at));
    let count = choice::without(order, head.tally.count, at);
    let tally = head.tally;
    let next = m.head;
    Moved {
        head: next.with_marks(set, tally.with_count(count)),
        ok: true,
    }
}

// Where no place is free an automatic mark leaves, if there is one.
fn make_room<'a>(
    head: Head,
    place: &'a [u64; 64],
    ring: &'a [u64; 64],
    order: &mut [u64; 64],
    mem: &mut [u64],
) -> Moved
    requires { Ready (record_by head place.now ring.now order.old) }
    ensures { yields (moved_in place.now ring.now order.new result) mem.new ≡ room_made_of (record_by head place.now ring.now order.old) mem.old }
{
    if bits::count(head.set) < 64 {
        return Moved {
            head: head,
            ok: true,
        };
    }
    if head.tally.count == 0 {
        return Moved {
            head: head,
            ok: true,
        };
    }
    let at = choice::leaving(ring, head.tally, order, place, head.layout.levels);
    withdraw(head, place, ring, order, mem, at)
}

// The key goes into the table, and each automatic mark is found at its new place: the places set then.
fn insert(place: &mut [u64; 64], order: &mut [u64; 64], set: u64, count: u64, key: u64) -> u64
    requires { count ≤ 64 }
    ensures { (record { set = result; place = place.new } ≡ with_key (record { set = set; place = place.old }) key) × (order.new ≡ relocated count order.old place.old place.new result) }
{
    let old = *place;
    let marks = Marks {
        set: set,
        place: old,
    }
    .with_key(key);
    let places = marks.place;
    *place = places;
    choice::moved(order, count, &old, &places, marks.set);
    marks.set
}

// The prefix gets an automatic mark, for which a place is free.
fn appoint(
    head: Head,
    place: &mut [u64; 64],
    ring: &[u64; 64],
    order: &mut [u64; 64],
    mem: &mut [u64],
    prefix: u64,
) -> Moved
    requires { (Ready (record_by head place.old ring.now order.old)) × (prefix < 2 ^ 45) }
    ensures { yields (moved_in place.new ring.now order.new result) mem.new ≡ appointed_of (record_by head place.old ring.now order.old) mem.old prefix }
{
    let kept = drops::links(head.layout.levels, 1);
    let m = cut(head, mem, kept, prefix);
    if !m.ok {
        return m;
    }
    let key = prefix * 8 + 1;
    let tally = head.tally;
    let next = m.head;
    let set = insert(place, order, head.set, tally.count, key);
    let at = marks::place_of(place, set, key) as u64;
    let count = choice::with(order, tally.count, at);
    Moved {
        head: next.with_marks(set, tally.with_count(count)),
        ok: true,
    }
}

// The same where a place may not be free.
fn appoint_in(
    head: Head,
    place: &mut [u64; 64],
    ring: &[u64; 64],
    order: &mut [u64; 64],
    mem: &mut [u64],
    prefix: u64,
) -> Moved
    requires { (Ready (record_by head place.old ring.now order.old)) × (prefix < 2 ^ 45) }
    ensures { yields (moved_in place.new ring.now order.new result) mem.new ≡ appointed_in prefix (record_by head place.old ring.now order.old) mem.old }
{
    if bits::count(head.set) < 64 {
        return appoint(head, place, ring, order, mem, prefix);
    }
    Moved {
        head: head,
        ok: true,
    }
}

// A prefix that was just charged gets its mark, if it has charges enough. Where the second of two drops meets damage, the mark that was
// to leave is automatic again.
fn judge(
    head: Head,
    place: &mut [u64; 64],
    ring: &[u64; 64],
    order: &mut [u64; 64],
    mem: &mut [u64],
    prefix: u64,
) -> Moved
    requires { (Ready (record_by head place.old ring.now order.old)) × (prefix < 2 ^ 45) }
    ensures { yields (moved_in place.new ring.now order.new result) mem.new ≡ kept_by (record_by head place.old ring.now order.old) (judged_of (record_by head place.old ring.now order.old) mem.old prefix) }
{
    if choice::charges(ring, head.tally, head.layout.levels, prefix) < 3 {
        return Moved {
            head: head,
            ok: true,
        };
    }
    let before = *order;
    let made = make_room(head, place, ring, order, mem);
    if !made.ok {
        return made;
    }
    let m = appoint_in(made.head, place, ring, order, mem, prefix);
    if !m.ok {
        *order = before;
        return Moved {
            head: head,
            ok: false,
        };
    }
    m
}

// A store is charged to a prefix, after its own drops.
pub fn charge(
    head: Head,
    place: &mut [u64; 64],
    ring: &mut [u64; 64],
    order: &mut [u64; 64],
    mem: &mut [u64],
    prefix: u64,
) -> Moved
    requires { (Ready (record_by head place.old ring.old order.old)) × (prefix < 2 ^ 45) }
    ensures { yields (moved_in place.new ring.new order.new result) mem.new ≡ kept_by (record_by head place.old ring.old order.old) (charged_of (record_by head place.old ring.old order.old) mem.old prefix) }
{
    let tally = head.tally;
    let before = choice::next_word(ring, tally);
    choice::put_word(ring, tally, prefix);
    let m = judge(
        head.with_tally(tally.charged()),
        place,
        ring,
        order,
        mem,
        prefix,
    );
    if !m.ok {
        choice::put_word(ring, tally, before);
        return Moved {
            head: head,
            ok: false,
        };
    }
    m
}

// ---- the operator's marks

// The mark of that level at an address is set, which no place holds.
fn add(
    head: Head,
    place: &mut [u64; 64],
    ring: &[u64; 64],
    order: &mut [u64; 64],
    mem: &mut [u64],
    address: GuestVirtual,
    level: u64,
) -> Moved
    requires { (Ready (record_by head place.old ring.now order.old)) × (level < 8) }
    ensures { yields (moved_in place.new ring.now order.new result) mem.new ≡ added_of address.0 level (record_by head place.old ring.now order.old) mem.old }
{
    let levels = head.layout.levels;
    let m = cut(
        head,
        mem,
        drops::links(levels, level),
        address.page() >> (9 * level),
    );
    if !m.ok {
        return m;
    }
    let tally = head.tally;
    let next = m.head;
    let set = insert(
        place,
        order,
        head.set,
        tally.count,
        marks::key_of(levels, level, address),
    );
    Moved {
        head: next.with_marks(set, tally),
        ok: true,
    }
}

// An automatic mark, at that place, becomes the operator's.
fn take_over<'a>(
    head: Head,
    place: &'a [u64; 64],
    ring: &'a [u64; 64],
    order: &mut [u64; 64],
    mem: &mut [u64],
    address: GuestVirtual,
    level: u64,
    at: u64,
) -> Moved
    requires { (Ready (record_by head place.now ring.now order.old)) × (level < 8) }
    ensures { yields (moved_in place.now ring.now order.new result) mem.new ≡ taken_over_of (record_by head place.now ring.now order.old) mem.old address.0 level at }
{
    let m = cut(
        head,
        mem,
        drops::links(head.layout.levels, level),
        address.page() >> (9 * level),
    );
    if !m.ok {
        return m;
    }
    let count = choice::without(order, head.tally.count, at);
    let tally = head.tally;
    let next = m.head;
    Moved {
        head: next.with_tally(tally.with_count(count)),
        ok: true,
    }
}

// The operator sets a mark: an automatic one becomes theirs at its place; for any other an automatic one may leave, which is
// automatic again where the second drop meets damage.
pub fn set(
    head: Head,
    place: &mut [u64; 64],
    ring: &[u64; 64],
    order: &mut [u64; 64],
    mem: &mut [u64],
    address: GuestVirtual,
    level: u64,
) -> Moved
    requires { (Ready (record_by head place.old ring.now order.old)) × (level < 8) }
    ensures { yields (moved_in place.new ring.now order.new result) mem.new ≡ kept_by (record_by head place.old ring.now order.old) (set_of (record_by head place.old ring.now order.old) mem.old address.0 level) }
{
    let key = marks::key_of(head.layout.levels, level, address);
    let at = marks::place_of(place, head.set, key) as u64;
    if choice::automatic_at(order, head.tally.count, at) {
        return take_over(head, place, ring, order, mem, address, level, at);
    }
    let before = *order;
    let made = make_room(head, place, ring, order, mem);
    if !made.ok {
        return made;
    }
    let m = add(made.head, place, ring, order, mem, address, level);
    if !m.ok {
        *order = before;
        return Moved {
            head: head,
            ok: false,
        };
    }
    m
}

// The operator clears one of theirs; the other marks keep their places.
pub fn clear<'a>(
    head: Head,
    place: &'a [u64; 64],
    ring: &'a [u64; 64],
    order: &'a [u64; 64],
    mem: &mut [u64],
    address: GuestVirtual,
    level: u64,
) -> Moved
    requires { (Ready (record_by head place.now ring.now order.now)) × (level < 8) }
    ensures { yields (moved_in place.now ring.now order.now result) mem.new ≡ cleared_of (record_by head place.now ring.now order.now) mem.old address.0 level }
{
    let levels = head.layout.levels;
    let m = cut(
        head,
        mem,
        drops::links(levels, level),
        address.page() >> (9 * level),
    );
    if !m.ok {
        return m;
    }
    let tally = head.tally;
    let next = m.head;
    let set = marks::without(place, head.set, marks::key_of(levels, level, address));
    Moved {
        head: next.with_marks(set, tally),
        ok: true,
    }
}
