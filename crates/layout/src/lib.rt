// How the lent memory is laid out: host tables, shadow tables, then the guest area. What the entry at the end of a path in either
// set of tables names.
#![tactic(auto)]

ghost use Rattle.std.specs.Prelude.{◌≡◌, ◌≤◌};
ghost use Rattle.spec.specs.Entry.{indexes};
ghost use Rattle.spec.specs.Refusal.{in_guest_area, frame_fits};
ghost use Rattle.area.specs.Tree.{lookup_of};
ghost use Rattle.layout.specs.Layout.{LayoutFits, config, leaf_of, named_by};

use area::Look;
use entry::{GuestPhysical, HostPhysical};

// How the lent memory is laid out: levels of tables, host frames, shadow frames, frames in all; and 1 if accessed and dirty bits are set
// in guest entries, else 0.
#[derive(Clone, Copy)]
pub struct Layout {
    pub levels: u64,
    pub hosts: u64,
    pub shadows: u64,
    pub frames: u64,
    pub bits: u64,
}

// What a host walk comes to. Found reads one word a level; Damaged: an entry names a frame outside the area it must lie in.
#[derive(Clone, Copy)]
pub enum HostWalk {
    Found { page: HostPhysical, writable: bool },
    Absent { reads: u64 },
    Damaged,
}

// Whether a host frame lies in the guest area.
pub fn in_guest_area(layout: Layout, frame: u64) -> bool
    requires { LayoutFits layout }
    ensures { result ≡ in_guest_area (config layout) frame }
{
    if layout.hosts + layout.shadows <= frame {
        frame < layout.frames
    } else {
        false
    }
}

// Whether a number is a guest frame number.
pub fn frame_fits(layout: Layout, guest: GuestPhysical) -> bool
    requires { LayoutFits layout }
    ensures { result ≡ frame_fits (config layout) guest.0 }
{
    guest.0 >> entry::frame_bits(layout.levels) == 0
}

// What the entry at the end of a path says.
fn leaf(layout: Layout, entry: u64, reads: u64) -> HostWalk
    requires { LayoutFits layout }
    ensures { result ≡ leaf_of (config layout) entry reads }
{
    if entry::present(entry) {
        let f = entry::frame_of(entry);
        if in_guest_area(layout, f) {
            HostWalk::Found {
                page: HostPhysical(f),
                writable: entry::writable(entry),
            }
        } else {
            HostWalk::Damaged
        }
    } else {
        HostWalk::Absent { reads: reads }
    }
}

// What stands at the end of the path of the last `steps` indexes of `path`, in the tables of the size frames from base on below the entry top.
pub fn leaf_at(
    mem: &[u64],
    layout: Layout,
    base: u64,
    size: u64,
    top: u64,
    path: u64,
    steps: u64,
) -> HostWalk
    requires { (LayoutFits layout) × (steps ≤ layout.levels) }
    ensures { result ≡ named_by (config layout) (lookup_of base size mem.now top (indexes steps path) 0) }
{
    match area::lookup(base, size, top, mem, path, steps) {
        Look::Seen { entry, reads } => leaf(layout, entry, reads),
        Look::Damaged => HostWalk::Damaged,
    }
}
