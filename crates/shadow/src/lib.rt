// The shadow tables: held paths found and filled, and the guest tables that they watch.
#![tactic(auto)]

ghost use Rattle.std.specs.Prelude.{◌≡◌, cond, ◌+◌, ◌-◌, ◌<◌, ◌≤◌};
ghost use Rattle.spec.specs.Entry.{indexes, frame_limit};
ghost use Rattle.layout.specs.Layout.{LayoutFits, config};
ghost use Rattle.shadow.specs.Held.{shadow_area, held_of, entry_for};
ghost use Rattle.shadow.specs.Fill.{fill_of};
ghost use Rattle.shadow.specs.Watch.{watches_of, watched_of};
ghost use Rattle.words.specs.After.{yields};

use entry::HostPhysical;
use layout::{HostWalk, Layout};
use pool::{Area, Pool, Way, Went};

// ---- held paths

// The area of the shadow tables.
pub fn shadow_area(layout: Layout) -> Area
    ensures { result ≡ shadow_area (config layout) }
{
    Area {
        base: layout.hosts,
        size: layout.shadows,
        levels: layout.levels,
    }
}

// What stands at the end of the path of the last `steps` indexes of `path`.
pub fn held(mem: &[u64], layout: Layout, top: u64, path: u64, steps: u64) -> HostWalk
    requires { (LayoutFits layout) × (steps ≤ layout.levels) }
    ensures { result ≡ held_of (config layout) mem.now top (indexes steps path) }
{
    layout::leaf_at(mem, layout, layout.hosts, layout.shadows, top, path, steps)
}

// A bit of an entry, by its value.
fn bit_if(set: bool, value: u64) -> u64
    ensures { result ≡ cond set value 0 }
{
    if set { value } else { 0 }
}

// The entry of a held path.
pub fn entry_for(frame: HostPhysical, switch: bool, writable: bool) -> u64
    requires { frame.0 < frame_limit }
    ensures { result ≡ entry_for frame.0 switch writable }
{
    frame.0 * 4096 + bit_if(switch, 512) + bit_if(writable, 2) + 1
}

// ---- fill

// The path of the last `steps` indexes of `path` gets its entry, with the tables that it lacks; where they find no room, everything is
// dropped first. guests: the host frames of the guest tables that its tables stand for, the top one's first.
pub fn fill(
    mem: &mut [u64],
    layout: Layout,
    pool: Pool,
    guests: &[u64; 8],
    path: u64,
    steps: u64,
    entry: u64,
) -> Went
    requires { (LayoutFits layout) × (1 ≤ steps) × (steps ≤ layout.levels) }
    ensures { yields result mem.new ≡ fill_of (config layout) guests.now pool mem.old (indexes steps path) entry }
{
    let a = shadow_area(layout);
    let went = area::insert(a, guests, pool, mem, path, steps, entry);
    let way = went.way;
    match way {
        Way::To(f) => went,
        Way::Not => area::insert(a, guests, pool::no_tables(), mem, path, steps, entry),
        Way::Damaged => went,
    }
}

// ---- watched frames

// Whether the frame is a table that stands for a guest table in that host frame.
fn watches(mem: &[u64], frame: u64, table: u64) -> bool
    requires { frame < frame_limit }
    ensures { result ≡ watches_of mem.now frame table }
{
    if pool::level(mem, frame) == 0 {
        false
    } else {
        pool::stands_for(mem, frame, table)
    }
}

// Whether some table in use stands for a guest table in that host frame.
pub fn watched(mem: &[u64], layout: Layout, fresh: u64, frame: HostPhysical) -> bool
    requires { (LayoutFits layout) × (fresh ≤ layout.shadows) }
    ensures { result ≡ watched_of (config layout) mem.now fresh frame.0 }
{
    let mut k = fresh;
    while k > 0 {
        k -= 1;
        if watches(mem, layout.hosts + k, frame.0) {
            return true;
        }
    }
    false
}
