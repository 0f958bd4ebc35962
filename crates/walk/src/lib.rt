// The plain walk: from a guest-virtual address to the host frame of its page, by the guest's tables and then the host's.
// One loop serves the whole walk, its upper part and its lower part.
#![tactic(auto)]

ghost use Rattle.std.specs.Prelude.{◌≡◌, true, false, ◌&&◌, ◌||◌, not, ◌+◌, ◌<◌, ◌≤◌, eqb, ltb};
ghost use Rattle.spec.specs.Entry.{bit_set, indexes, frame_limit};
ghost use Rattle.spec.specs.Plain.{span_lead, next, turn};
ghost use Rattle.layout.specs.Layout.{LayoutFits, config};
ghost use Rattle.walk.specs.Memory.{span_room, place_room, into_of, found_of, led_by, led_by_entry, led_of, walked_of, trail_of, root_trail};

use entry::{GuestPhysical, HostPhysical};
use host::Space;
use layout::{HostWalk, Layout};
use spec::Fault;

// What a walk comes to, with the words read: whether stores pass and where it arrived, why it stopped, or damaged tables. Down to a table it may
// arrive within a large page: then the number is a span's, beyond the frames of the memory. The right comes first, since a fault begins with
// a byte too: where numbers of different sizes share a place, the compiler takes them apart (docs/SPEED.md).
#[derive(Clone, Copy)]
pub enum Walked {
    Arrived {
        writable: bool,
        page: HostPhysical,
        reads: u64,
    },
    Faulted {
        fault: Fault,
        reads: u64,
    },
    Damaged,
}

// Whether a request with this write right is granted: a load needs none.
pub fn granted(store: bool, right: bool) -> bool
    ensures { result ≡ (not store || right) }
{
    if store { right } else { true }
}

fn both(a: bool, b: bool) -> bool
    ensures { result ≡ (a && b) }
{
    if a { b } else { false }
}

// On to the guest table in a guest frame. Reading a table needs no write right.
fn to_table(mem: &[u64], space: Space, guest: GuestPhysical, right: bool, read: u64) -> Walked
    requires { (LayoutFits space.layout) × (read ≤ 65536) }
    ensures { result ≡ walked_of (config space.layout) space.top mem.now read (next false false guest.0 right) }
{
    match host::host_walk(mem, space, guest) {
        HostWalk::Found { page, writable } => Walked::Arrived {
            page: page,
            writable: right,
            reads: read + space.layout.levels,
        },
        HostWalk::Absent { reads } => Walked::Faulted {
            fault: Fault::HostAbsent(guest.0),
            reads: read + reads,
        },
        HostWalk::Damaged => Walked::Damaged,
    }
}

// The page is found: a store needs its write right.
fn to_found(
    store: bool,
    guest: GuestPhysical,
    page: HostPhysical,
    writable: bool,
    right: bool,
    reads: u64,
) -> Walked
    ensures { result ≡ found_of store guest.0 page writable right reads }
{
    if granted(store, writable) {
        Walked::Arrived {
            page: page,
            writable: both(right, writable),
            reads: reads,
        }
    } else {
        Walked::Faulted {
            fault: Fault::HostReadOnly(guest.0),
            reads: reads,
        }
    }
}

// On to the page in a guest frame.
pub fn to_page(
    mem: &[u64],
    space: Space,
    store: bool,
    guest: GuestPhysical,
    right: bool,
    read: u64,
) -> Walked
    requires { (LayoutFits space.layout) × (read ≤ 65536) }
    ensures { result ≡ walked_of (config space.layout) space.top mem.now read (next store true guest.0 right) }
{
    if granted(store, right) {
        match host::host_walk(mem, space, guest) {
            HostWalk::Found { page, writable } => to_found(
                store,
                guest,
                page,
                writable,
                right,
                read + space.layout.levels,
            ),
            HostWalk::Absent { reads } => Walked::Faulted {
                fault: Fault::HostAbsent(guest.0),
                reads: read + reads,
            },
            HostWalk::Damaged => Walked::Damaged,
        }
    } else {
        Walked::Faulted {
            fault: Fault::Protected(1),
            reads: read,
        }
    }
}

// On to the guest frame that an entry of a level names.
fn to_frame(
    mem: &[u64],
    space: Space,
    store: bool,
    level: u64,
    guest: GuestPhysical,
    right: bool,
    read: u64,
) -> Walked
    requires { (LayoutFits space.layout) × (read ≤ 65536) }
    ensures { result ≡ walked_of (config space.layout) space.top mem.now read (next store (eqb level 1) guest.0 right) }
{
    if level == 1 {
        to_page(mem, space, store, guest, right, read)
    } else {
        to_table(mem, space, guest, right, read)
    }
}

// On into a large page, to the part of it that begins with a guest frame. The guest's entries end here, so that a store needs its right.
fn into_span(
    layout: Layout,
    store: bool,
    level: u64,
    guest: GuestPhysical,
    right: bool,
    read: u64,
) -> Walked
    requires { (LayoutFits layout) × (guest.0 < span_room) }
    ensures { result ≡ into_of (config layout) store level guest.0 right read }
{
    if granted(store, right) {
        Walked::Arrived {
            page: HostPhysical(layout.frames + guest.0),
            writable: right,
            reads: read,
        }
    } else {
        Walked::Faulted {
            fault: Fault::Protected(level),
            reads: read,
        }
    }
}

// Where one level leads, with the right and the words read by then: to a guest frame, into a large page, or no further.
#[derive(Clone, Copy)]
enum Led {
    To {
        right: bool,
        guest: GuestPhysical,
        reads: u64,
    },
    Into {
        right: bool,
        guest: GuestPhysical,
        reads: u64,
    },
    Stopped {
        fault: Fault,
        reads: u64,
    },
}

// Has an entry bit 7, which means nothing at level 1? Above level 3 it is then malformed: for any other entry this says, with no second
// test of the level, whether it maps a large page.
fn has_large_bit(level: u64, e: u64) -> bool
    ensures { result ≡ (ltb 1 level && bit_set 7 e) }
{
    if level <= 1 {
        return false;
    }
    e / 128 % 2 == 1
}

// By an entry of the level.
fn by_entry(layout: Layout, level: u64, e: u64, right: bool, read: u64) -> Led
    ensures { result ≡ led_by_entry (config layout) level right read e }
{
    if entry::present(e) {
        if entry::malformed(layout.levels, level, e) {
            return Led::Stopped {
                fault: Fault::Malformed(level),
                reads: read,
            };
        }
        let g = GuestPhysical(entry::frame_of(e));
        let w = both(right, entry::writable(e));
        if has_large_bit(level, e) {
            Led::Into {
                guest: g,
                right: w,
                reads: read,
            }
        } else {
            Led::To {
                guest: g,
                right: w,
                reads: read,
            }
        }
    } else {
        Led::Stopped {
            fault: Fault::Absent(level),
            reads: read,
        }
    }
}

// By an index of a span.
fn by_span(
    layout: Layout,
    level: u64,
    span: HostPhysical,
    index: u64,
    right: bool,
    read: u64,
) -> Led
    requires { (level ≤ 5) × (layout.frames ≤ span.0) × (span.0 < place_room) × (index < 512) }
    ensures { result ≡ led_by right read (span_lead (config layout) level span.0 index) }
{
    let g = GuestPhysical(span.0 - layout.frames + index * entry::frames_below(level));
    if level == 1 {
        Led::To {
            guest: g,
            right: right,
            reads: read,
        }
    } else {
        Led::Into {
            guest: g,
            right: right,
            reads: read,
        }
    }
}

// By the entry at the index of a table, or by the index of a span, which reads nothing.
fn lead(
    mem: &[u64],
    layout: Layout,
    level: u64,
    place: HostPhysical,
    index: u64,
    right: bool,
    read: u64,
) -> Led
    requires { (LayoutFits layout) × (read ≤ 65535) × (level ≤ 5) × (place.0 < place_room) × (index < 512) }
    ensures { result ≡ led_of (config layout) mem.now level place.0 index right read }
{
    if place.0 < layout.frames {
        by_entry(
            layout,
            level,
            words::word_in(mem, place.0, index),
            right,
            read + 1,
        )
    } else {
        by_span(layout, level, place, index, right, read)
    }
}

// One level, and on to where it leads. `to_frame` is called at one place: each call more is a copy of its host walks in the loop below.
fn descend(
    mem: &[u64],
    space: Space,
    store: bool,
    level: u64,
    table: HostPhysical,
    index: u64,
    right: bool,
    read: u64,
) -> Walked
    requires { (LayoutFits space.layout) × (read ≤ 65535) × (level ≤ 5) × (table.0 < place_room) × (index < 512) }
    ensures { result ≡ walked_of (config space.layout) space.top mem.now read (turn (config space.layout) store level table.0 index right) }
{
    match lead(mem, space.layout, level, table, index, right, read) {
        Led::To {
            guest,
            right,
            reads,
        } => to_frame(mem, space, store, level, guest, right, reads),
        Led::Into {
            guest,
            right,
            reads,
        } => into_span(space.layout, store, level, guest, right, reads),
        Led::Stopped { fault, reads } => Walked::Faulted {
            fault: fault,
            reads: reads,
        },
    }
}

// A walk's end, and the places that it went through, the first one first: the host frames of guest tables, then spans; 0 beyond.
#[derive(Clone, Copy)]
pub struct Trail {
    pub walked: Walked,
    pub tables: [u64; 8],
}

// By the `steps` lowest indexes of a page number, from a table down to the table of level `below`, or to the page where it is 0.
pub fn walk_tables(
    mem: &[u64],
    space: Space,
    store: bool,
    path: u64,
    steps: u64,
    below: u64,
    table: HostPhysical,
    right: bool,
    read: u64,
) -> Trail
    requires { (LayoutFits space.layout) × (steps + below ≤ space.layout.levels) × (read ≤ 1024) × (table.0 < frame_limit) }
    ensures { result ≡ trail_of (config space.layout) space.top mem.now read store (below + steps) table.0 right (indexes steps path) }
{
    let mut left = steps;
    let mut at = table.0;
    let mut w = right;
    let mut n = read;
    let mut tables = [0u64; 8];
    let mut depth: usize = 0;
    while left > 0 {
        left -= 1;
        tables[depth] = at;
        depth += 1;
        let i = entry::index_of(path, left) as u64;
        match descend(
            mem,
            space,
            store,
            below + left + 1,
            HostPhysical(at),
            i,
            w,
            n,
        ) {
            Walked::Arrived {
                page,
                writable,
                reads,
            } => {
                at = page.0;
                w = writable;
                n = reads;
            }
            Walked::Faulted { fault, reads } => {
                return Trail {
                    walked: Walked::Faulted {
                        fault: fault,
                        reads: reads,
                    },
                    tables: tables,
                };
            }
            Walked::Damaged => {
                return Trail {
                    walked: Walked::Damaged,
                    tables: tables,
                };
            }
        }
    }
    Trail {
        walked: Walked::Arrived {
            page: HostPhysical(at),
            writable: w,
            reads: n,
        },
        tables: tables,
    }
}

// From the root, by the `steps` highest indexes of an address down to the table of level `below`: path is its page number
// without the indexes below.
pub fn walk_root(
    mem: &[u64],
    space: Space,
    store: bool,
    root: GuestPhysical,
    path: u64,
    steps: u64,
    below: u64,
) -> Trail
    requires { (LayoutFits space.layout) × (below + steps ≡ space.layout.levels) }
    ensures { result ≡ root_trail (config space.layout) space.top mem.now store root.0 (indexes steps path) }
{
    match to_table(mem, space, root, true, 0) {
        Walked::Arrived {
            page,
            writable,
            reads,
        } => walk_tables(mem, space, store, path, steps, below, page, true, reads),
        Walked::Faulted { fault, reads } => Trail {
            walked: Walked::Faulted {
                fault: fault,
                reads: reads,
            },
            tables: [0u64; 8],
        },
        Walked::Damaged => Trail {
            walked: Walked::Damaged,
            tables: [0u64; 8],
        },
    }
}
