// A radix tree of tables in an area of frames: lookup and insert.
#![tactic(auto)]

ghost use Rattle.std.specs.Prelude.{◌≡◌, ◌+◌, ◌-◌, ◌<◌, ◌≤◌, leb};
ghost use Rattle.spec.specs.Entry.{index, indexes, frame_limit};
ghost use Rattle.area.specs.Tree.{new_top_of, lookup_of, room_of, new_table_of, enter_of, attach_of, descend_of, down_of, place_of, insert_of};
ghost use Rattle.words.specs.After.{yields};

use pool::{Area, Pool, Way, Went};

// What stands at the end of a path (0 if a table is missing on the way), and how many words were read.
#[derive(Clone, Copy)]
pub enum Look {
    Seen { entry: u64, reads: u64 },
    Damaged,
}

// ---- lookup

// The index at a level that has `below` levels below it.
pub fn index_at(number: u64, below: u64) -> u64
    requires { below ≤ 6 }
    ensures { result ≡ index below number }
{
    entry::index_of(number, below) as u64
}

// The entry at the end of the path of the last `steps` indexes of `path`, on from the entry given; 0 if a table is missing on the way.
pub fn lookup(base: u64, size: u64, entry: u64, mem: &[u64], path: u64, steps: u64) -> Look
    requires { steps ≤ 7 }
    ensures { result ≡ lookup_of base size mem.now entry (indexes steps path) 0 }
{
    let mut at = entry;
    let mut left = steps;
    let mut n: u64 = 0;
    while left > 0 {
        match pool::follow(base, size, at) {
            Way::To(f) => {
                left -= 1;
                at = pool::entry_at(mem, f, index_at(path, left));
                n += 1;
            }
            Way::Not => {
                return Look::Seen { entry: 0, reads: n };
            }
            Way::Damaged => {
                return Look::Damaged;
            }
        }
    }
    Look::Seen {
        entry: at,
        reads: n,
    }
}

// ---- insert

// Whether so many more tables find room.
fn fits(size: u64, used: u64, more: u64) -> bool
    ensures { result ≡ leb (used + more) size }
{
    used <= size && more <= size - used
}

// How many tables the path of the last `steps` indexes of `path` lacks; Not if the area has no room for them.
fn room(area: Area, pool: Pool, mem: &[u64], path: u64, steps: u64) -> Way
    requires { (area.base + area.size < frame_limit) × (steps ≤ 7) }
    ensures { result ≡ room_of area pool mem.now (indexes steps path) }
{
    match lookup(area.base, area.size, pool.top, mem, path, steps) {
        Look::Seen { entry: e, reads: n } => {
            if fits(area.size, pool.used, steps - n) {
                Way::To(steps - n)
            } else {
                Way::Not
            }
        }
        Look::Damaged => Way::Damaged,
    }
}

// A table is handed out, with its header.
fn new_table(
    area: Area,
    pool: Pool,
    mem: &mut [u64],
    guest: u64,
    level: u64,
    parent: u64,
    slot: u64,
) -> Went
    requires { area.base + area.size < frame_limit }
    ensures { yields result mem.new ≡ new_table_of area pool mem.old guest level parent slot }
{
    let went = pool::take_frame(area, pool, mem);
    let way = went.way;
    match way {
        Way::To(f) => {
            pool::write_header(mem, f, guest, level, parent, slot);
            went
        }
        Way::Not => went,
        Way::Damaged => went,
    }
}

// A table is handed out and becomes the top one.
fn new_top(area: Area, pool: Pool, mem: &mut [u64], guest: u64) -> Went
    requires { area.base + area.size < frame_limit }
    ensures { yields result mem.new ≡ new_top_of area pool mem.old guest }
{
    let went = new_table(area, pool, mem, guest, area.levels, 0, 0);
    let way = went.way;
    let q = went.pool;
    match way {
        Way::To(f) => Went {
            pool: pool::with_top(q, f * 4096 + 1),
            way: Way::To(f),
        },
        Way::Not => went,
        Way::Damaged => went,
    }
}

// The top table, handed out if there is none.
pub fn enter(area: Area, pool: Pool, mem: &mut [u64], guest: u64) -> Went
    requires { area.base + area.size < frame_limit }
    ensures { yields result mem.new ≡ enter_of area pool mem.old guest }
{
    match pool::follow(area.base, area.size, pool.top) {
        Way::To(f) => Went {
            pool: pool,
            way: Way::To(f),
        },
        Way::Not => new_top(area, pool, mem, guest),
        Way::Damaged => Went {
            pool: pool,
            way: Way::Damaged,
        },
    }
}

// A table is handed out and its entry put into the table above.
fn attach(
    area: Area,
    pool: Pool,
    mem: &mut [u64],
    guest: u64,
    level: u64,
    frame: u64,
    index: u64,
) -> Went
    requires { (area.base + area.size < frame_limit) × (frame < frame_limit) × (index < 512) }
    ensures { yields result mem.new ≡ attach_of area pool mem.old guest level frame index }
{
    let went = new_table(area, pool, mem, guest, level, frame, index);
    let way = went.way;
    match way {
        Way::To(h) => {
            pool::put_entry(mem, frame, index, h * 4096 + 1);
            went
        }
        Way::Not => went,
        Way::Damaged => went,
    }
}

// The table below, hung there if there is none.
fn descend(
    area: Area,
    pool: Pool,
    mem: &mut [u64],
    guest: u64,
    level: u64,
    frame: u64,
    index: u64,
) -> Went
    requires { (area.base + area.size < frame_limit) × (frame < frame_limit) × (index < 512) }
    ensures { yields result mem.new ≡ descend_of area pool mem.old guest level frame index }
{
    match pool::follow(area.base, area.size, pool::entry_at(mem, frame, index)) {
        Way::To(h) => Went {
            pool: pool,
            way: Way::To(h),
        },
        Way::Not => attach(area, pool, mem, guest, level, frame, index),
        Way::Damaged => Went {
            pool: pool,
            way: Way::Damaged,
        },
    }
}

// From the top table down, `steps` indexes: tables handed out where they are missing, then the entry put.
fn down(
    area: Area,
    guests: &[u64],
    pool: Pool,
    mem: &mut [u64],
    frame: u64,
    path: u64,
    steps: u64,
    entry: u64,
) -> Went
    requires { (area.base + area.size < frame_limit) × (frame < frame_limit) × (1 ≤ steps) × (steps ≤ 7) × (steps ≤ area.levels) }
    ensures { yields result mem.new ≡ down_of area guests.now pool mem.old 0 frame (index (steps - 1) path) (indexes (steps - 1) path) entry }
{
    let mut cur = pool;
    let mut t = frame;
    let mut left = steps - 1;
    let mut depth: u64 = 0;
    while left > 0 {
        depth += 1;
        let guest = words::word_at(guests, depth as usize);
        let went = descend(
            area,
            cur,
            mem,
            guest,
            area.levels - depth,
            t,
            index_at(path, left),
        );
        cur = went.pool;
        let way = went.way;
        match way {
            Way::To(h) => {
                t = h;
            }
            Way::Not => {
                return Went {
                    pool: cur,
                    way: Way::Damaged,
                };
            }
            Way::Damaged => {
                return Went {
                    pool: cur,
                    way: Way::Damaged,
                };
            }
        }
        left -= 1;
    }
    pool::put_entry(mem, t, index_at(path, 0), entry);
    Went {
        pool: cur,
        way: Way::To(t),
    }
}

// The top table is handed out if there is none, then the path is filled from it down.
fn place(
    area: Area,
    guests: &[u64],
    pool: Pool,
    mem: &mut [u64],
    path: u64,
    steps: u64,
    entry: u64,
) -> Went
    requires { (area.base + area.size < frame_limit) × (1 ≤ steps) × (steps ≤ 7) × (steps ≤ area.levels) }
    ensures { yields result mem.new ≡ place_of area guests.now pool mem.old (index (steps - 1) path) (indexes (steps - 1) path) entry }
{
    let guest = words::word_at(guests, 0);
    let went = enter(area, pool, mem, guest);
    let way = went.way;
    let q = went.pool;
    match way {
        Way::To(f) => down(area, guests, q, mem, f, path, steps, entry),
        Way::Not => Went {
            pool: q,
            way: Way::Damaged,
        },
        Way::Damaged => Went {
            pool: q,
            way: Way::Damaged,
        },
    }
}

// The entry of the path of the last `steps` indexes of `path` is set, with the tables that it needs, guests being their guest
// tables' host frames from the top table down. Not, and nothing changed, if they find no room.
pub fn insert(
    area: Area,
    guests: &[u64],
    pool: Pool,
    mem: &mut [u64],
    path: u64,
    steps: u64,
    entry: u64,
) -> Went
    requires { (area.base + area.size < frame_limit) × (1 ≤ steps) × (steps ≤ 7) × (steps ≤ area.levels) }
    ensures { yields result mem.new ≡ insert_of area guests.now pool mem.old (indexes steps path) entry }
{
    match room(area, pool, mem, path, steps) {
        Way::To(n) => place(area, guests, pool, mem, path, steps, entry),
        Way::Not => Went {
            pool: pool,
            way: Way::Not,
        },
        Way::Damaged => Went {
            pool: pool,
            way: Way::Damaged,
        },
    }
}
