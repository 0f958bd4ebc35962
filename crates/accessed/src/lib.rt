// Accessed and dirty bits of the guest entries that a walk read: whether one lacks a bit, whether it may be set, and setting them all.
// The entries are those at the `steps` lowest indexes of a page number, one in each of the tables.
#![tactic(auto)]

ghost use Rattle.std.specs.Prelude.{◌≡◌, ◌&&◌, ◌||◌, ◌+◌, ◌≤◌, eqb};
ghost use Rattle.spec.specs.Entry.{indexes};
ghost use Rattle.spec.specs.Bits.{has_bits, lacks, may_write, dirty_at};
ghost use Rattle.host.specs.Walk.{host_walk_of};
ghost use Rattle.walk.specs.Memory.{place_of};
ghost use Rattle.layout.specs.Layout.{LayoutFits, config};
ghost use Rattle.accessed.specs.Entries.{entries, tables_in, seen_of, Frames, words_of, owed_of, bits_in};

use entry::GuestPhysical;
use host::Space;
use layout::{HostWalk, Layout};

// The first entry that lacks a bit in a table mapped read-only, by its level and the table's guest frame; or none.
#[derive(Clone, Copy)]
pub enum Debt {
    Nothing,
    Table { level: u64, frame: u64 },
}

// The entries that a walk read: those at the `steps` lowest indexes of `path`, one in each of its tables, with so many levels below the last, which
// it did not walk.
#[derive(Clone, Copy)]
pub struct Seen {
    pub path: u64,
    pub steps: u64,
    pub below: u64,
}

// How many of the first `steps` places of a walk are tables.
fn tables_in(layout: Layout, places: &[u64; 8], steps: u64) -> u64
    requires { steps ≤ 8 }
    ensures { result ≡ tables_in (config layout) places.now 0 steps }
{
    let mut left = steps;
    let mut depth: usize = 0;
    while left > 0 {
        if places[depth] >= layout.frames {
            return depth as u64;
        }
        left -= 1;
        depth += 1;
    }
    steps
}

// What a walk by the `steps` lowest indexes of a page number read, on its way through these places.
pub fn read_by(layout: Layout, page: u64, steps: u64, places: &[u64; 8]) -> Seen
    requires { steps ≤ 7 }
    ensures { result ≡ seen_of (config layout) places.now steps page }
{
    let k = tables_in(layout, places, steps);
    Seen {
        path: page >> (9 * (steps - k)),
        steps: k,
        below: steps - k,
    }
}

// Is the entry with so many levels below it the one where a store's walk ends?
fn ends(store: bool, below: u64) -> bool
    ensures { result ≡ (store && eqb below 0) }
{
    if store { below == 0 } else { false }
}

// Does an entry lack a bit?
pub fn lacks(mem: &[u64], store: bool, page: u64, steps: u64, tables: &[u64; 8]) -> bool
    requires { (steps ≤ 8) × (Frames steps tables.now) }
    ensures { result ≡ lacks (words_of mem.now) store (entries tables.now 0 (indexes steps page)) }
{
    let mut left = steps;
    let mut depth: usize = 0;
    while left > 0 {
        left -= 1;
        let i = entry::index_of(page, left) as u64;
        let e = words::word_in(mem, tables[depth], i);
        if !entry::has_bits(ends(store, left), e) {
            return true;
        }
        depth += 1;
    }
    false
}

// Is the guest frame mapped writable?
fn may_write(mem: &[u64], space: Space, guest: GuestPhysical) -> bool
    requires { LayoutFits space.layout }
    ensures { result ≡ may_write (place_of (host_walk_of (config space.layout) space.top mem.now guest.0)) }
{
    match host::host_walk(mem, space, guest) {
        HostWalk::Found { page, writable } => writable,
        HostWalk::Absent { reads } => false,
        HostWalk::Damaged => false,
    }
}

// Has an entry in the table of a guest frame its bits, or may they be set?
fn has_or_may(mem: &[u64], space: Space, ends: bool, e: u64, guest: GuestPhysical) -> bool
    requires { LayoutFits space.layout }
    ensures { result ≡ (has_bits ends e || may_write (place_of (host_walk_of (config space.layout) space.top mem.now guest.0))) }
{
    if entry::has_bits(ends, e) {
        return true;
    }
    may_write(mem, space, guest)
}

// What the entries owe, with so many levels below the last; the first table is that of a guest frame.
pub fn owed(
    mem: &[u64],
    space: Space,
    store: bool,
    guest: GuestPhysical,
    page: u64,
    steps: u64,
    below: u64,
    tables: &[u64; 8],
) -> Debt
    requires { (LayoutFits space.layout) × (below ≤ 8) × (steps ≤ 8) × (Frames steps tables.now) }
    ensures { result ≡ owed_of (config space.layout) space.top mem.now store (below + steps) guest.0 (entries tables.now 0 (indexes steps page)) }
{
    let mut left = steps;
    let mut depth: usize = 0;
    let mut at = guest.0;
    while left > 0 {
        left -= 1;
        let i = entry::index_of(page, left) as u64;
        let e = words::word_in(mem, tables[depth], i);
        if !has_or_may(mem, space, ends(store, left), e, GuestPhysical(at)) {
            return Debt::Table {
                level: below + left + 1,
                frame: at,
            };
        }
        at = entry::frame_of(e);
        depth += 1;
    }
    Debt::Nothing
}

// Each entry gets its bits.
pub fn set_bits(mem: &mut [u64], store: bool, page: u64, steps: u64, tables: &[u64; 8])
    requires { (steps ≤ 8) × (Frames steps tables.now) }
    ensures { mem.new ≡ bits_in store mem.old (entries tables.now 0 (indexes steps page)) }
{
    let mut left = steps;
    let mut depth: usize = 0;
    while left > 0 {
        left -= 1;
        let i = entry::index_of(page, left) as u64;
        let e = words::word_in(mem, tables[depth], i);
        words::set_in(
            mem,
            tables[depth],
            i,
            entry::with_bits(ends(store, left), e),
        );
        depth += 1;
    }
}

// Is the last of the entries dirty? Where there is none nothing is asked.
pub fn last_dirty(mem: &[u64], page: u64, steps: u64, tables: &[u64; 8]) -> bool
    requires { (steps ≤ 8) × (Frames steps tables.now) }
    ensures { result ≡ dirty_at (words_of mem.now) (entries tables.now 0 (indexes steps page)) }
{
    if steps == 0 {
        return true;
    }
    let i = entry::index_of(page, 0) as u64;
    entry::dirty(words::word_in(mem, tables[steps as usize - 1], i))
}
