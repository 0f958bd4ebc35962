// The host tables: from a guest frame to the host frame that it is mapped to; mapping and unmapping.
#![tactic(auto)]

ghost use Rattle.std.specs.Prelude.{◌≡◌, ◌<◌, ◌≤◌};
ghost use Rattle.area_laws.specs.Host.{host_entry};
ghost use Rattle.layout.specs.Layout.{LayoutFits, config};
ghost use Rattle.host.specs.Walk.{host_walk_of};
ghost use Rattle.host.specs.Map.{host_area, change_by, map_of, unmap_of};
ghost use Rattle.words.specs.After.{yields};

use entry::{GuestPhysical, HostPhysical};
use layout::{HostWalk, Layout};
use pool::{Area, Pool, Way};

// A guest's space of frames: how the memory is laid out, and the entry of the guest's top host table.
#[derive(Clone, Copy)]
pub struct Space {
    pub layout: Layout,
    pub top: u64,
}

// The host walk of a guest frame.
pub fn host_walk(mem: &[u64], space: Space, guest: GuestPhysical) -> HostWalk
    requires { LayoutFits space.layout }
    ensures { result ≡ host_walk_of (config space.layout) space.top mem.now guest.0 }
{
    let l = space.layout;
    layout::leaf_at(mem, l, 0, l.hosts, space.top, guest.0, l.levels)
}

// ---- mapping

// What a change of the mapping leaves: the pool of the host tables, and the number of the refusal, or 0.
#[derive(Clone, Copy)]
pub struct Change {
    pub pool: Pool,
    pub refusal: u64,
}

// The host tables as an area.
pub fn tables(layout: Layout) -> Area
    ensures { result ≡ host_area (config layout) }
{
    Area {
        base: 0,
        size: layout.hosts,
        levels: layout.levels,
    }
}

// The entry of a mapped frame.
fn leaf_word(frame: HostPhysical, writable: bool) -> u64
    requires { frame.0 < 65536 }
    ensures { result ≡ host_entry frame.0 writable }
{
    if writable {
        frame.0 * 4096 + 3
    } else {
        frame.0 * 4096 + 1
    }
}

// What a step in the area came to; `none` is the refusal where it found nothing. A refusal leaves the pool.
fn settled(before: Pool, after: Pool, way: Way, none: u64) -> Change
    ensures { result ≡ change_by before after none way }
{
    match way {
        Way::To(f) => Change {
            pool: after,
            refusal: 0,
        },
        Way::Not => Change {
            pool: before,
            refusal: none,
        },
        Way::Damaged => Change {
            pool: before,
            refusal: 11,
        },
    }
}

// A guest frame is mapped, or mapped anew: 8, 9, 10, 11.
pub fn map(
    mem: &mut [u64],
    layout: Layout,
    pool: Pool,
    guest: GuestPhysical,
    frame: HostPhysical,
    writable: bool,
) -> Change
    requires { (LayoutFits layout) × (1 ≤ layout.levels) }
    ensures { yields result mem.new ≡ map_of (config layout) pool mem.old guest.0 frame.0 writable }
{
    if layout::frame_fits(layout, guest) {
        if layout::in_guest_area(layout, frame.0) {
            // Host tables stand for no guest tables.
            let none = [0u64; 1];
            let e = leaf_word(frame, writable);
            let went = area::insert(
                tables(layout),
                &none[..0],
                pool,
                mem,
                guest.0,
                layout.levels,
                e,
            );
            let way = went.way;
            let after = went.pool;
            settled(pool, after, way, 10)
        } else {
            Change {
                pool: pool,
                refusal: 9,
            }
        }
    } else {
        Change {
            pool: pool,
            refusal: 8,
        }
    }
}

// A guest frame is unmapped, and emptied host tables can be used again: 8, 12, 11.
pub fn unmap(mem: &mut [u64], layout: Layout, pool: Pool, guest: GuestPhysical) -> Change
    requires { (LayoutFits layout) × (1 ≤ layout.levels) }
    ensures { yields result mem.new ≡ unmap_of (config layout) pool mem.old guest.0 }
{
    if layout::frame_fits(layout, guest) {
        let went = prune::remove(tables(layout), true, pool, mem, guest.0, layout.levels);
        let way = went.way;
        let after = went.pool;
        settled(pool, after, way, 12)
    } else {
        Change {
            pool: pool,
            refusal: 8,
        }
    }
}
