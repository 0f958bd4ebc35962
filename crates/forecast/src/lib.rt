// A forecast: what a list of loads would cost, and how many shadow tables would be in use at most. No word is written. The paths that the
// list itself would fill are kept by their keys in a room of the call's own, one for each address at most.
#![tactic(auto)]

ghost use Rattle.std.specs.Prelude.{◌≡◌, not, ◌+◌, ◌-◌, ◌*◌, ◌<◌, ◌≤◌, eqb, length};
ghost use Rattle.spec.specs.Count.{one};
ghost use Rattle.spec.specs.Entry.{frame_limit};
ghost use Rattle.spec.specs.Prefix.{any};
ghost use Rattle.spec.specs.Refusal.{forecast_room};
ghost use Rattle.words.specs.After.{yields};
ghost use Rattle.layout.specs.Layout.{LayoutFits, config};
ghost use Rattle.marks.specs.Table.{keys};
ghost use Rattle.translate.specs.Translate.{HeldFits, ReadsMost, turned_depth};
ghost use Rattle.forecast.specs.Forecast.{newest, passes, met_from, filled_of, paid, added, held_after, missed_of, kept_of, load_of, address_of, start, forecast_of};
ghost use Rattle.forecast.specs.Fits.{SumFits, OutlookFits};

use entry::{GuestPhysical, GuestVirtual};
use host::Space;
use layout::{HostWalk, Layout};
use spec::Answer;
use translate::{Held, Request, Translated};
use walk::Walked;

// How many addresses a list has at most, and the keys of the paths that it fills at most.
pub const MOST: usize = 256;

type Room = [u64; MOST];

// What the list has cost so far, and the greatest number of tables in use so far.
#[derive(Clone, Copy)]
pub struct Sum {
    pub references: u64,
    pub exits: u64,
    pub tables: u64,
}

// Which paths would be held now: those of the shadow tables, while they are kept, and `count` in the room; used: their tables.
#[derive(Clone, Copy)]
pub struct Paths {
    pub used: u64,
    pub kept: bool,
    pub count: usize,
}

#[derive(Clone, Copy)]
pub struct Outlook {
    pub sum: Sum,
    pub paths: Paths,
}

// After an address: on with this, or damaged tables.
#[derive(Clone, Copy)]
pub enum Next {
    Go(Outlook),
    Damaged,
}

// ---- the paths in the room

// Whether a path with that key is among the first `count` of the room.
fn knows(room: &Room, count: usize, key: u64) -> bool
    requires { count ≤ forecast_room }
    ensures { result ≡ any (eqb key) (newest room.now count) }
{
    let mut left = count;
    while left > 0 {
        left -= 1;
        if key == room[left] {
            return true;
        }
    }
    false
}

// Whether the path with that key passes through the table of a level whose indexes, as one number, are given.
fn passes_by(level: u64, indexes: u64, key: u64) -> bool
    requires { level ≤ 7 }
    ensures { result ≡ passes level indexes key }
{
    let depth = key % 8;
    if depth < level {
        return (key / 8) >> (9 * (level - depth)) == indexes;
    }
    false
}

// Whether one of them passes through that table.
fn stands(room: &Room, count: usize, level: u64, indexes: u64) -> bool
    requires { (count ≤ forecast_room) × (level ≤ 7) }
    ensures { result ≡ any (passes level indexes) (newest room.now count) }
{
    let mut left = count;
    while left > 0 {
        left -= 1;
        if passes_by(level, indexes, room[left]) {
            return true;
        }
    }
    false
}

// How many tables stand for them on the way of an address, from the top table on; `steps` levels are above its depth. The first that does
// not stand ends the search: none stands below it.
fn met(room: &Room, count: usize, levels: u64, address: GuestVirtual, depth: u64, steps: u64) -> u64
    requires { (count ≤ forecast_room) × (depth + steps ≤ 7) }
    ensures { result ≡ met_from (newest room.now count) levels address.0 depth steps }
{
    let mut left = steps;
    let mut n: u64 = 0;
    while left > 0 {
        let level = depth + left;
        if !stands(
            room,
            count,
            level,
            marks::key_of(levels, level, address) / 8,
        ) {
            return n;
        }
        n += 1;
        left -= 1;
    }
    n
}

// What a number lacks to another.
fn lacks(steps: u64, stand: u64) -> u64
    ensures { result ≡ steps - stand }
{
    if stand < steps { steps - stand } else { 0 }
}

// A path of so many indexes is filled, which makes so many tables: its key joins the others, or they are forgotten.
fn filled(room: &mut Room, layout: Layout, paths: Paths, tables: u64, key: u64, steps: u64) -> Paths
    requires { paths.count < forecast_room }
    ensures { yields result room.new ≡ filled_of (config layout) room.old paths tables key steps }
{
    let count = paths.count;
    if tables <= layout.shadows {
        room[count] = key;
        return Paths {
            used: tables,
            kept: paths.kept,
            count: count + 1,
        };
    }
    room[0] = key;
    Paths {
        used: steps,
        kept: false,
        count: 1,
    }
}

// The paths held after a walk came to the end of a path: it is in the room already, or is filled. stand: its tables among the shadow tables.
fn held_after(
    room: &mut Room,
    layout: Layout,
    paths: Paths,
    known: bool,
    stand: u64,
    address: GuestVirtual,
    depth: u64,
) -> Paths
    requires { (LayoutFits layout) × (paths.count < forecast_room) × (paths.used ≤ 65536) × (depth ≤ layout.levels) }
    ensures { yields result room.new ≡ held_after (config layout) room.old paths known stand address.0 depth }
{
    if known {
        return paths;
    }
    let steps = layout.levels - depth;
    let own = met(room, paths.count, layout.levels, address, depth, steps);
    let tables = paths.used + lacks(steps, marks::greater(stand, own));
    let key = marks::key_of(layout.levels, depth, address);
    filled(room, layout, paths, tables, key, steps)
}

// ---- one address

// References and exits are added, and the tables in use then are compared.
fn added_to(sum: Sum, references: u64, exits: u64, tables: u64) -> Sum
    requires { (SumFits forecast_room sum) × (references ≤ 35) × (exits ≤ 2) }
    ensures { result ≡ added sum references exits tables }
{
    Sum {
        references: sum.references + references,
        exits: sum.exits + exits,
        tables: marks::greater(sum.tables, tables),
    }
}

// A load is paid for, after which these paths are held.
fn pay(sum: Sum, paths: Paths, t: Translated) -> Next
    requires { (SumFits forecast_room sum) × (t.exits ≤ 2) × (ReadsMost 35 t.walked) }
    ensures { result ≡ paid sum paths t }
{
    let walked = t.walked;
    match walked {
        Walked::Arrived {
            page,
            writable,
            reads,
        } => Next::Go(Outlook {
            sum: added_to(sum, reads, t.exits, paths.used),
            paths: paths,
        }),
        Walked::Faulted { fault, reads } => Next::Go(Outlook {
            sum: added_to(sum, reads, t.exits, paths.used),
            paths: paths,
        }),
        Walked::Damaged => Next::Damaged,
    }
}

// An exit, unless the path is known.
fn exit_unless(known: bool) -> u64
    ensures { result ≡ one (not known) }
{
    if known { 0 } else { 1 }
}

// A load whose path the shadow tables do not hold, or no more; so many of its tables stand there.
fn missed(
    mem: &[u64],
    space: Space,
    root: GuestPhysical,
    held: Held,
    room: &mut Room,
    before: Outlook,
    stand: u64,
    address: GuestVirtual,
    depth: u64,
) -> Next
    requires { (LayoutFits space.layout) × (depth ≤ space.layout.levels) × (OutlookFits (forecast_room - 1) before) }
    ensures { yields result room.new ≡ missed_of (config space.layout) space.top mem.now held root.0 room.old before stand address.0 depth }
{
    let levels = space.layout.levels;
    let sum = before.sum;
    let paths = before.paths;
    let known = knows(room, paths.count, marks::key_of(levels, depth, address));
    let exits = exit_unless(known);
    let path = translate::path_of(address, depth);
    let trail = walk::walk_root(mem, space, false, root, path, levels - depth, depth);
    let walked = trail.walked;
    match walked {
        Walked::Arrived {
            page,
            writable,
            reads,
        } => {
            if page.0 >= space.layout.frames {
                return Next::Damaged;
            }
            let after = held_after(room, space.layout, paths, known, stand, address, depth);
            let t = translate::serve(
                mem,
                space,
                held,
                Request {
                    store: false,
                    address: address,
                    depth: depth,
                },
                page,
                writable,
                exits,
            );
            pay(sum, after, t)
        }
        Walked::Faulted { fault, reads } => Next::Go(Outlook {
            sum: added_to(sum, reads, exits, paths.used),
            paths: paths,
        }),
        Walked::Damaged => Next::Damaged,
    }
}

// What the shadow tables hold of a path, while they are kept.
fn kept_at(
    mem: &[u64],
    layout: Layout,
    held: Held,
    kept: bool,
    address: GuestVirtual,
    depth: u64,
) -> HostWalk
    requires { LayoutFits layout }
    ensures { result ≡ kept_of (config layout) mem.now held kept address.0 depth }
{
    if kept {
        translate::found(mem, layout, held, address, depth)
    } else {
        HostWalk::Absent { reads: 0 }
    }
}

// A load of that depth.
fn one_load(
    mem: &[u64],
    space: Space,
    root: GuestPhysical,
    held: Held,
    room: &mut Room,
    before: Outlook,
    address: GuestVirtual,
    depth: u64,
) -> Next
    requires { (LayoutFits space.layout) × (held.frame.0 < frame_limit) × (OutlookFits (forecast_room - 1) before) }
    ensures { yields result room.new ≡ load_of (config space.layout) space.top mem.now held root.0 room.old before address.0 depth }
{
    let sum = before.sum;
    let paths = before.paths;
    if space.layout.levels < depth {
        let t = translate::plain(mem, space, root, held, false, address);
        return pay(sum, paths, t);
    }
    match kept_at(mem, space.layout, held, paths.kept, address, depth) {
        HostWalk::Found { page, writable } => {
            let t = translate::serve(
                mem,
                space,
                held,
                Request {
                    store: false,
                    address: address,
                    depth: depth,
                },
                page,
                writable,
                0,
            );
            pay(sum, paths, t)
        }
        HostWalk::Absent { reads } => {
            missed(mem, space, root, held, room, before, reads, address, depth)
        }
        HostWalk::Damaged => Next::Damaged,
    }
}

// ---- the list

// The depth of a load whose marks give that: 0 where its walk comes into a large page before.
fn depth_at(
    mem: &[u64],
    space: Space,
    root: GuestPhysical,
    address: GuestVirtual,
    depth: u64,
) -> u64
    requires { LayoutFits space.layout }
    ensures { result ≡ turned_depth (config space.layout) space.top mem.now root.0 address.0 depth }
{
    if translate::may_turn(depth) {
        translate::walked_depth(mem, space, root, address, depth)
    } else {
        depth
    }
}

// The next address of the list, by the marks at the set places.
fn one_address(
    mem: &[u64],
    space: Space,
    root: GuestPhysical,
    held: Held,
    place: &[u64; 64],
    set: u64,
    room: &mut Room,
    before: Outlook,
    address: GuestVirtual,
) -> Next
    requires { (LayoutFits space.layout) × (held.frame.0 < frame_limit) × (OutlookFits (forecast_room - 1) before) }
    ensures { yields result room.new ≡ address_of (config space.layout) space.top mem.now held root.0 (keys place.now set) room.old before address.0 }
{
    let levels = space.layout.levels;
    if !address.names_bytes(levels, 8) {
        return Next::Go(before);
    }
    let marked = depth::depth(place, set, levels, address);
    let d = depth_at(mem, space, root, address, marked);
    one_load(mem, space, root, held, room, before, address, d)
}

// Nothing is served yet.
fn begin(used: u64) -> Outlook
    ensures { result ≡ start used }
{
    Outlook {
        sum: Sum {
            references: 0,
            exits: 0,
            tables: used,
        },
        paths: Paths {
            used: used,
            kept: true,
            count: 0,
        },
    }
}

// What serving the list would cost: 11.
pub fn forecast(
    mem: &[u64],
    space: Space,
    root: GuestPhysical,
    held: Held,
    place: &[u64; 64],
    set: u64,
    addresses: &[u64],
) -> Answer
    requires { (LayoutFits space.layout) × (HeldFits (config space.layout) held) × (held.pool.used ≤ 65536) × (length addresses.now ≤ forecast_room) }
    ensures { result ≡ forecast_of (config space.layout) space.top mem.now held root.0 (keys place.now set) addresses.now }
{
    let mut room = [0u64; MOST];
    let mut at = begin(held.pool.used);
    let mut i: usize = 0;
    while i < addresses.len() {
        match one_address(
            mem,
            space,
            root,
            held,
            place,
            set,
            &mut room,
            at,
            GuestVirtual(addresses[i]),
        ) {
            Next::Go(next) => {
                // Field by field, so that the bytes between them are not copied along.
                at = Outlook {
                    sum: next.sum,
                    paths: Paths {
                        used: next.paths.used,
                        kept: next.paths.kept,
                        count: next.paths.count,
                    },
                };
            }
            Next::Damaged => {
                return Answer::Refused(11);
            }
        }
        i += 1;
    }
    Answer::Figures {
        references: at.sum.references,
        exits: at.sum.exits,
        tables: at.sum.tables,
    }
}
