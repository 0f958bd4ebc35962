// What a guest store is charged to (document 02, 7): one pass over the shadow tables, which reads only. It looks for the tables of
// level 1 in which a path ends whose level 1 word is stored to, and takes the lowest of their prefixes.
#![tactic(auto)]

ghost use Rattle.std.specs.Prelude.{◌≡◌, ◌-◌, ◌<◌, ◌≤◌};
ghost use Rattle.spec.specs.Entry.{frame_limit};
ghost use Rattle.layout.specs.Layout.{LayoutFits, config};
ghost use Rattle.charge.specs.Charge.{prefix_of, ends_at, lower_by, visit_of, charged_of};

use entry::HostPhysical;
use layout::Layout;

// The prefix that a store is charged to, as a number: 9 bits for each of its N - 1 indexes, the last one lowest. Damaged: a link
// that was read leads out of the area.
#[derive(Clone, Copy)]
pub enum Charge {
    Nobody,
    To(u64),
    Damaged,
}

// The prefix of one table, as such a number.
#[derive(Clone, Copy)]
pub enum Prefix {
    Is(u64),
    Damaged,
}

// ---- prefixes

// How many tables stand above one of level 1.
fn above(levels: u64) -> u64
    ensures { result ≡ levels - 1 }
{
    if 0 < levels { levels - 1 } else { 0 }
}

// The prefix of the table in that frame, by so many links up: its own slot is the lowest index.
fn prefix_of(mem: &[u64], layout: Layout, above: u64, frame: u64) -> Prefix
    requires { (above ≤ 4) × (frame < frame_limit) }
    ensures { result ≡ prefix_of (config layout) mem.now above frame }
{
    let mut t = frame;
    let mut links = above;
    let mut number: u64 = 0;
    let mut place: u64 = 1;
    while links > 0 {
        let p = pool::parent(mem, t);
        if pool::inside(layout.hosts, layout.shadows, p) {
            number += pool::slot(mem, t) * place;
            place *= 512;
            t = p;
            links -= 1;
        } else {
            return Prefix::Damaged;
        }
    }
    Prefix::Is(number)
}

// ---- the pass over the tables

// Whether the frame is a table of level 1 for the guest table in that host frame, with an entry at the index.
#[tactic(auto, unfolding(crate::specs::Charge::ends_at))]
fn ends_at(mem: &[u64], table: u64, index: u64, frame: u64) -> bool
    requires { (index < 512) × (frame < frame_limit) }
    ensures { result ≡ ends_at mem.now table index frame }
{
    if pool::level(mem, frame) == 1 {
        if pool::stands_for(mem, frame, table) {
            return entry::present(pool::entry_at(mem, frame, index));
        }
    }
    false
}

// The lower of two prefixes.
fn lower(best: Charge, prefix: u64) -> Charge
    ensures { result ≡ lower_by best prefix }
{
    match best {
        Charge::Nobody => Charge::To(prefix),
        Charge::To(n) => {
            if prefix < n {
                Charge::To(prefix)
            } else {
                Charge::To(n)
            }
        }
        Charge::Damaged => Charge::Damaged,
    }
}

// One frame more.
fn visit(mem: &[u64], layout: Layout, table: u64, index: u64, best: Charge, frame: u64) -> Charge
    requires { (LayoutFits layout) × (index < 512) × (frame < frame_limit) }
    ensures { result ≡ visit_of (config layout) mem.now table index best frame }
{
    if ends_at(mem, table, index, frame) {
        match prefix_of(mem, layout, above(layout.levels), frame) {
            Prefix::Is(n) => lower(best, n),
            Prefix::Damaged => Charge::Damaged,
        }
    } else {
        best
    }
}

// What a store to a word of a host frame is charged to, by the tables handed out so far.
pub fn charged(mem: &[u64], layout: Layout, fresh: u64, frame: HostPhysical, index: u64) -> Charge
    requires { (LayoutFits layout) × (fresh ≤ layout.shadows) × (index < 512) }
    ensures { result ≡ charged_of (config layout) mem.now fresh frame.0 index }
{
    let mut best = Charge::Nobody;
    let mut k: u64 = 0;
    while k < fresh {
        best = visit(mem, layout, frame.0, index, best, layout.hosts + k);
        k += 1;
    }
    best
}
