// Frames of an area of the lent memory handed out and given back, and the words of the tables in them.
#![tactic(auto)]

ghost use Rattle.std.specs.Prelude.{◌≡◌, ◌+◌, ◌<◌, eqb};
ghost use Rattle.spec.specs.Entry.{frame_limit};
ghost use Rattle.pool.specs.Header.{frame_at, upper_of, entry_at_of, high_of, put_entry_of, guest_of, level_of, parent_of, slot_of, written, upper_bits, header_of, inside_of, bare_of};
ghost use Rattle.pool.specs.Pool.{follow_of, none_of, with_top, fresh_of, freed_of, take_of, with_freed, free_words};
ghost use Rattle.words.specs.After.{yields};

// The area: its first frame, the number of its frames, the levels of the tree.
#[derive(Clone, Copy)]
pub struct Area {
    pub base: u64,
    pub size: u64,
    pub levels: u64,
}

// What is handed out: frames so far, the first freed frame (as an entry, or 0), tables in use; and the entry of the tree's top
// table, 0 where there is none. The top table is where the pool says and in no frame of its own: several trees may share an area.
#[derive(Clone, Copy)]
pub struct Pool {
    pub fresh: u64,
    pub free: u64,
    pub used: u64,
    pub top: u64,
}

// Where an entry, or a call for a table, leads. Not: no entry, no table free, no such path. Damaged: a frame outside the area.
#[derive(Clone, Copy)]
pub enum Way {
    To(u64),
    Not,
    Damaged,
}

// A step's way, and the pool after it.
#[derive(Clone, Copy)]
pub struct Went {
    pub pool: Pool,
    pub way: Way,
}

// ---- the words of a table

// An entry of a table.
pub fn entry_at(mem: &[u64], frame: u64, index: u64) -> u64
    requires { (frame < frame_limit) × (index < 512) }
    ensures { result ≡ entry_at_of mem.now frame index }
{
    words::word_in(mem, frame, index) % entry::ENTRY_LIMIT
}

// The header bits of a word.
fn high(mem: &[u64], frame: u64, word: u64) -> u64
    requires { (frame < frame_limit) × (word < 512) }
    ensures { result ≡ high_of mem.now frame word }
{
    words::word_in(mem, frame, word) / entry::ENTRY_LIMIT
}

// An entry is set; the header bits stay.
pub fn put_entry(mem: &mut [u64], frame: u64, index: u64, entry: u64)
    requires { (frame < frame_limit) × (index < 512) }
    ensures { mem.new ≡ put_entry_of mem.old frame index entry }
{
    let w = words::word_in(mem, frame, index);
    words::set_in(
        mem,
        frame,
        index,
        w / entry::ENTRY_LIMIT * entry::ENTRY_LIMIT + entry % entry::ENTRY_LIMIT,
    );
}

// A frame number in the high bits of the word at an index and of the next.
fn frame_at(mem: &[u64], frame: u64, index: u64) -> u64
    requires { (frame < frame_limit) × (index < 511) }
    ensures { result ≡ frame_at mem.now frame index }
{
    let a = high(mem, frame, index);
    let b = high(mem, frame, index + 1);
    a % 4096 + b % 16 * 4096
}

// The upper 48 bits of the guest number.
fn upper(mem: &[u64], frame: u64) -> u64
    requires { frame < frame_limit }
    ensures { result ≡ upper_of mem.now frame }
{
    let a = high(mem, frame, 5);
    let b = high(mem, frame, 6);
    let c = high(mem, frame, 7);
    let d = high(mem, frame, 8);
    a % 4096 + 4096 * (b % 4096 + 4096 * (c % 4096 + 4096 * (d % 4096)))
}

// The guest number of a table: what it stands for.
pub fn guest(mem: &[u64], frame: u64) -> u64
    requires { frame < frame_limit }
    ensures { result ≡ guest_of mem.now frame }
{
    let low = frame_at(mem, frame, 0);
    low + 65536 * upper(mem, frame)
}

// Whether a table stands for that guest number; the upper bits are read only where the low ones agree.
pub fn stands_for(mem: &[u64], frame: u64, guest: u64) -> bool
    requires { frame < frame_limit }
    ensures { result ≡ eqb (guest_of mem.now frame) guest }
{
    if frame_at(mem, frame, 0) == guest % 65536 {
        upper(mem, frame) == guest / 65536
    } else {
        false
    }
}

// The level of a table; 0 for a frame that is no table.
pub fn level(mem: &[u64], frame: u64) -> u64
    requires { frame < frame_limit }
    ensures { result ≡ level_of mem.now frame }
{
    high(mem, frame, 1) / 16 % 8
}

// The frame of the table above.
pub fn parent(mem: &[u64], frame: u64) -> u64
    requires { frame < frame_limit }
    ensures { result ≡ parent_of mem.now frame }
{
    frame_at(mem, frame, 2)
}

// The index of a table's entry in the table above.
pub fn slot(mem: &[u64], frame: u64) -> u64
    requires { frame < frame_limit }
    ensures { result ≡ slot_of mem.now frame }
{
    high(mem, frame, 4) % 512
}

// The upper bits of a guest number are written.
fn write_upper(mem: &mut [u64], frame: u64, upper: u64)
    requires { frame < frame_limit }
    ensures { mem.new ≡ written mem.old frame 5 (upper_bits upper) }
{
    words::set_in(mem, frame, 5, upper % 4096 * entry::ENTRY_LIMIT);
    words::set_in(mem, frame, 6, upper / 4096 % 4096 * entry::ENTRY_LIMIT);
    words::set_in(
        mem,
        frame,
        7,
        upper / 4096 / 4096 % 4096 * entry::ENTRY_LIMIT,
    );
    words::set_in(
        mem,
        frame,
        8,
        upper / 4096 / 4096 / 4096 % 4096 * entry::ENTRY_LIMIT,
    );
}

// A header is written into a frame of zeros.
pub fn write_header(mem: &mut [u64], frame: u64, guest: u64, level: u64, parent: u64, slot: u64)
    requires { frame < frame_limit }
    ensures { mem.new ≡ header_of mem.old frame guest level parent slot }
{
    words::set_in(mem, frame, 0, guest % 4096 * entry::ENTRY_LIMIT);
    words::set_in(
        mem,
        frame,
        1,
        (guest / 4096 % 16 + level % 8 * 16) * entry::ENTRY_LIMIT,
    );
    words::set_in(mem, frame, 2, parent % 4096 * entry::ENTRY_LIMIT);
    words::set_in(mem, frame, 3, parent / 4096 % 16 * entry::ENTRY_LIMIT);
    words::set_in(mem, frame, 4, slot % 512 * entry::ENTRY_LIMIT);
    write_upper(mem, frame, guest / 65536);
}

// Whether a frame lies in an area of frames base to base + size.
pub fn inside(base: u64, size: u64, frame: u64) -> bool
    ensures { result ≡ inside_of base size frame }
{
    if frame < base {
        false
    } else {
        frame - base < size
    }
}

// Whether a table has no present entry.
pub fn bare(mem: &[u64], frame: u64) -> bool
    requires { frame < frame_limit }
    ensures { result ≡ bare_of mem.now frame 512 }
{
    let mut k: u64 = 512;
    while k > 0 {
        k -= 1;
        if entry::present(entry_at(mem, frame, k)) {
            return false;
        }
    }
    true
}

// ---- frames handed out and given back

// What an entry says in an area of frames base to base + size.
pub fn follow(base: u64, size: u64, entry: u64) -> Way
    ensures { result ≡ follow_of base size entry }
{
    if entry::present(entry) {
        let f = entry::frame_of(entry);
        if inside(base, size, f) {
            Way::To(f)
        } else {
            Way::Damaged
        }
    } else {
        Way::Not
    }
}

// A pool from which nothing is handed out.
pub fn no_tables() -> Pool
    ensures { result ≡ none_of }
{
    Pool {
        fresh: 0,
        free: 0,
        used: 0,
        top: 0,
    }
}

// The pool with another top table.
pub fn with_top(mut pool: Pool, top: u64) -> Pool
    ensures { result ≡ with_top pool top }
{
    pool.top = top;
    pool
}

// The next frame that was never handed out.
fn take_fresh(area: Area, pool: Pool, mem: &mut [u64]) -> Went
    requires { (area.base + area.size < frame_limit) × (pool.used < area.size) }
    ensures { yields result mem.new ≡ fresh_of area pool mem.old }
{
    if pool.fresh < area.size {
        let frame = area.base + pool.fresh;
        words::zero_frame(mem, frame);
        Went {
            pool: Pool {
                fresh: pool.fresh + 1,
                free: pool.free,
                used: pool.used + 1,
                top: pool.top,
            },
            way: Way::To(frame),
        }
    } else {
        Went {
            pool: pool,
            way: Way::Damaged,
        }
    }
}

// The first of the freed frames.
fn take_freed(pool: Pool, mem: &mut [u64], frame: u64) -> Went
    requires { (frame < frame_limit) × (pool.used < frame_limit) }
    ensures { yields result mem.new ≡ freed_of pool mem.old frame }
{
    let next = words::word_in(mem, frame, 0);
    words::zero_frame(mem, frame);
    Went {
        pool: Pool {
            fresh: pool.fresh,
            free: next,
            used: pool.used + 1,
            top: pool.top,
        },
        way: Way::To(frame),
    }
}

// A frame of zeros; Not if all are in use, Damaged if the list of freed frames leads out of the area.
pub fn take_frame(area: Area, pool: Pool, mem: &mut [u64]) -> Went
    requires { area.base + area.size < frame_limit }
    ensures { yields result mem.new ≡ take_of area pool mem.old }
{
    if pool.used < area.size {
        match follow(area.base, area.size, pool.free) {
            Way::To(f) => take_freed(pool, mem, f),
            Way::Not => take_fresh(area, pool, mem),
            Way::Damaged => Went {
                pool: pool,
                way: Way::Damaged,
            },
        }
    } else {
        Went {
            pool: pool,
            way: Way::Not,
        }
    }
}

// The pool after a frame is given back.
pub fn with_freed(pool: Pool, frame: u64) -> Pool
    requires { frame < frame_limit }
    ensures { result ≡ with_freed pool frame }
{
    if pool.used == 0 {
        Pool {
            fresh: pool.fresh,
            free: frame * 4096 + 1,
            used: 0,
            top: pool.top,
        }
    } else {
        Pool {
            fresh: pool.fresh,
            free: frame * 4096 + 1,
            used: pool.used - 1,
            top: pool.top,
        }
    }
}

// A frame given back links to the next freed one, and is no table any more.
pub fn free_words(mem: &mut [u64], frame: u64, next: u64)
    requires { frame < frame_limit }
    ensures { mem.new ≡ free_words mem.old frame next }
{
    words::set_in(mem, frame, 0, next);
    words::set_in(mem, frame, 1, 0);
}
