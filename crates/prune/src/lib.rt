// A path removed from the tree of tables of an area, and the tables that it leaves empty given back.
#![tactic(auto)]

ghost use Rattle.std.specs.Prelude.{◌≡◌, ◌+◌, ◌-◌, ◌<◌, ◌≤◌};
ghost use Rattle.spec.specs.Entry.{index, indexes, frame_limit};
ghost use Rattle.prune.specs.Remove.{detach_of, release_top, release_of, last_table_of, clear_of, remove_of};
ghost use Rattle.words.specs.After.{yields};

use pool::{Area, Pool, Way, Went};

// An empty table is taken off the table above and given back; Not if it is not empty.
fn detach(area: Area, pool: Pool, mem: &mut [u64], frame: u64) -> Went
    requires { frame < frame_limit }
    ensures { yields result mem.new ≡ detach_of area pool mem.old frame }
{
    if pool::bare(mem, frame) {
        let above = pool::parent(mem, frame);
        if pool::inside(area.base, area.size, above) {
            let i = pool::slot(mem, frame);
            pool::put_entry(mem, above, i, 0);
            pool::free_words(mem, frame, pool.free);
            Went {
                pool: pool::with_freed(pool, frame),
                way: Way::To(above),
            }
        } else {
            Went {
                pool: pool,
                way: Way::Damaged,
            }
        }
    } else {
        Went {
            pool: pool,
            way: Way::Not,
        }
    }
}

// The top table goes too if it is empty, unless it stays.
fn release_top(stays: bool, pool: Pool, mem: &mut [u64], frame: u64) -> Went
    requires { frame < frame_limit }
    ensures { yields result mem.new ≡ release_top stays pool mem.old frame }
{
    if stays {
        return Went {
            pool: pool,
            way: Way::To(frame),
        };
    }
    if pool::bare(mem, frame) {
        pool::free_words(mem, frame, pool.free);
        Went {
            pool: pool::with_freed(pool::with_top(pool, 0), frame),
            way: Way::To(frame),
        }
    } else {
        Went {
            pool: pool,
            way: Way::To(frame),
        }
    }
}

// The table in that frame, which has `above` tables above it, and these are given back as far as they are empty.
pub fn release(area: Area, stays: bool, pool: Pool, mem: &mut [u64], above: u64, frame: u64) -> Went
    requires { (frame < frame_limit) × (area.base + area.size < frame_limit) }
    ensures { yields result mem.new ≡ release_of area stays pool mem.old above frame }
{
    let mut cur = pool;
    let mut t = frame;
    let mut links = above;
    while links > 0 {
        let went = detach(area, cur, mem, t);
        cur = went.pool;
        let way = went.way;
        match way {
            Way::To(h) => {
                t = h;
            }
            Way::Not => {
                return Went {
                    pool: cur,
                    way: Way::To(t),
                };
            }
            Way::Damaged => {
                return Went {
                    pool: cur,
                    way: Way::Damaged,
                };
            }
        }
        links -= 1;
    }
    release_top(stays, cur, mem, t)
}

// The table that holds the last entry of the path of the last `steps` indexes of `path`, on from the entry given.
fn last_table(base: u64, size: u64, entry: u64, mem: &[u64], path: u64, steps: u64) -> Way
    requires { (1 ≤ steps) × (steps ≤ 7) }
    ensures { result ≡ last_table_of base size mem.now entry (index (steps - 1) path) (indexes (steps - 1) path) }
{
    let mut at = entry;
    let mut left = steps - 1;
    while left > 0 {
        match pool::follow(base, size, at) {
            Way::To(f) => {
                at = pool::entry_at(mem, f, area::index_at(path, left));
            }
            Way::Not => {
                return Way::Not;
            }
            Way::Damaged => {
                return Way::Damaged;
            }
        }
        left -= 1;
    }
    pool::follow(base, size, at)
}

// An entry of the table in that frame, which has `above` tables above it, is cleared; Not if there is none.
fn clear(
    area: Area,
    stays: bool,
    pool: Pool,
    mem: &mut [u64],
    above: u64,
    frame: u64,
    index: u64,
) -> Went
    requires { (frame < frame_limit) × (area.base + area.size < frame_limit) × (index < 512) }
    ensures { yields result mem.new ≡ clear_of area stays pool mem.old above frame index }
{
    if entry::present(pool::entry_at(mem, frame, index)) {
        pool::put_entry(mem, frame, index, 0);
        release(area, stays, pool, mem, above, frame)
    } else {
        Went {
            pool: pool,
            way: Way::Not,
        }
    }
}

// The path of the last `steps` indexes of `path` is removed; Not if there is none, Damaged if an entry or a link is damaged.
pub fn remove(area: Area, stays: bool, pool: Pool, mem: &mut [u64], path: u64, steps: u64) -> Went
    requires { (area.base + area.size < frame_limit) × (1 ≤ steps) × (steps ≤ 7) }
    ensures { yields result mem.new ≡ remove_of area stays pool mem.old (indexes steps path) }
{
    match last_table(area.base, area.size, pool.top, mem, path, steps) {
        Way::To(f) => clear(
            area,
            stays,
            pool,
            mem,
            steps - 1,
            f,
            area::index_at(path, 0),
        ),
        Way::Not => Went {
            pool: pool,
            way: Way::Not,
        },
        Way::Damaged => Went {
            pool: pool,
            way: Way::Damaged,
        },
    }
}
