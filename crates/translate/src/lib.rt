// From an address and its depth to a host frame or a fault: a held path is found, or the guest tables are walked and the path filled.
#![tactic(auto)]

ghost use Rattle.std.specs.Prelude.{◌≡◌, true, false, ◌&&◌, ◌+◌, ◌-◌, ◌<◌, ◌≤◌};
ghost use Rattle.spec.specs.Entry.{indexes, page_of, frame_limit};
ghost use Rattle.spec.specs.Bits.{lacks};
ghost use Rattle.words.specs.After.{yields};
ghost use Rattle.layout.specs.Layout.{LayoutFits, config};
ghost use Rattle.translate.specs.Translate.{exit_by, ReadsFrom, translation, whole, direct, direct_of, served_of, plain_of, checked_of, debt_by, entries_of, settled_by, judged_by, bitless_of, lacking_by, through_of, unshadowed_of, serves_of, path_of, found_of, filled_of, passes_of, plainly, strict_by, lax_by, verdict_of, arrived_of, missed_of, unserved_of, walked_depth, may_turn, depth_of};
ghost use Rattle.walk.specs.Memory.{trail_of, root_trail};
ghost use Rattle.accessed.specs.Entries.{seen_of, seen_entries, words_of};

use accessed::Debt;
use entry::{GuestPhysical, GuestVirtual, HostPhysical};
use host::Space;
use layout::{HostWalk, Layout};
use pool::{Pool, Way};
use spec::Fault;
use walk::{Trail, Walked};

// What is held: the shadow tables, and the host frame of the path of no index, which stands in the record; frame 0 if it is
// not held.
#[derive(Clone, Copy)]
pub struct Held {
    pub pool: Pool,
    pub frame: HostPhysical,
}

// A load or a store of the guest, at the depth that the marks give its address.
#[derive(Clone, Copy)]
pub struct Request {
    pub store: bool,
    pub address: GuestVirtual,
    pub depth: u64,
}

// What a translation leaves: what is held then, the exits so far, what the request came to, and whether its bits are to be set before
// its word is used.
#[derive(Clone, Copy)]
pub struct Translated {
    pub held: Held,
    pub exits: u64,
    pub walked: Walked,
    pub sets: bool,
}

// What the accessed and dirty bits of a walk say: that they are set or may be, or what the request meets instead, with its exit.
#[derive(Clone, Copy)]
pub enum Checked {
    Clear { lack: bool },
    Stopped { fault: Fault, exits: u64 },
    Damaged,
}

// What becomes of a request past its shadow part: its path is filled, and then its bits may be to be set; or it ends without.
#[derive(Clone, Copy)]
pub enum Verdict {
    Fill {
        writable: bool,
        sets: bool,
    },
    End {
        fault: Fault,
        reads: u64,
        exits: u64,
    },
    Damaged,
}

// A translation that met damage: what was held, and no exit.
pub fn damaged(held: Held) -> Translated
    ensures { result ≡ record { held = held; exits = 0; walked = Walked.Damaged; sets = false } }
{
    Translated {
        held: held,
        exits: 0,
        walked: Walked::Damaged,
        sets: false,
    }
}

// ---- the direct part, whatever the bits

// One exit for a fault of the host.
pub fn exit_of(walked: Walked) -> u64
    ensures { result ≡ exit_by walked }
{
    match walked {
        Walked::Arrived {
            page,
            writable,
            reads,
        } => 0,
        Walked::Faulted { fault, reads } => match fault {
            Fault::Absent(level) => 0,
            Fault::Malformed(level) => 0,
            Fault::Protected(level) => 0,
            Fault::HostAbsent(frame) => 1,
            Fault::HostReadOnly(frame) => 1,
        },
        Walked::Damaged => 0,
    }
}

// A request by where its walk came to, with no bit to set.
fn as_walked(held: Held, walked: Walked) -> Translated
    ensures { result ≡ translation held (exit_by walked) walked false }
{
    Translated {
        held: held,
        exits: exit_of(walked),
        walked: walked,
        sets: false,
    }
}

// The walk on from the guest table of the request's depth, with the tables that it came through.
pub fn direct_trail(
    mem: &[u64],
    space: Space,
    request: Request,
    page: HostPhysical,
    writable: bool,
) -> Trail
    requires { (LayoutFits space.layout) × (request.depth ≤ space.layout.levels) × (page.0 < frame_limit) }
    ensures { result ≡ trail_of (config space.layout) space.top mem.now (space.layout.levels - request.depth) request.store (0 + request.depth) page.0 writable (indexes request.depth (page_of request.address.0)) }
{
    walk::walk_tables(
        mem,
        space,
        request.store,
        request.address.page(),
        request.depth,
        0,
        page,
        writable,
        space.layout.levels - request.depth,
    )
}

// Where it comes to; at depth 0 there is no table, and the page is what the path leads to.
pub fn direct(
    mem: &[u64],
    space: Space,
    request: Request,
    page: HostPhysical,
    writable: bool,
) -> Walked
    requires { (LayoutFits space.layout) × (request.depth ≤ space.layout.levels) × (page.0 < frame_limit) }
    ensures { result ≡ direct_of (config space.layout) space.top mem.now request.store request.address.0 request.depth page.0 writable }
{
    if request.depth == 0 {
        return Walked::Arrived {
            page: page,
            writable: writable,
            reads: space.layout.levels,
        };
    }
    let trail = direct_trail(mem, space, request, page, writable);
    trail.walked
}

// Through a path that is held or was just filled, after some exits.
pub fn serve(
    mem: &[u64],
    space: Space,
    held: Held,
    request: Request,
    page: HostPhysical,
    writable: bool,
    exits: u64,
) -> Translated
    requires { (LayoutFits space.layout) × (request.depth ≤ space.layout.levels) × (page.0 < frame_limit) × (exits ≤ 65536) }
    ensures { result ≡ served_of (config space.layout) space.top mem.now held request.store request.address.0 request.depth page.0 writable exits }
{
    let walked = direct(mem, space, request, page, writable);
    Translated {
        held: held,
        exits: exits + exit_of(walked),
        walked: walked,
        sets: false,
    }
}

// The whole plain walk.
pub fn whole(
    mem: &[u64],
    space: Space,
    store: bool,
    root: GuestPhysical,
    address: GuestVirtual,
) -> Trail
    requires { LayoutFits space.layout }
    ensures { result ≡ root_trail (config space.layout) space.top mem.now store root.0 (indexes space.layout.levels (page_of address.0)) }
{
    walk::walk_root(
        mem,
        space,
        store,
        root,
        address.page(),
        space.layout.levels,
        0,
    )
}

// Where nothing is shadowed, and whatever the bits.
pub fn plain(
    mem: &[u64],
    space: Space,
    root: GuestPhysical,
    held: Held,
    store: bool,
    address: GuestVirtual,
) -> Translated
    requires { LayoutFits space.layout }
    ensures { result ≡ plain_of (config space.layout) space.top mem.now held root.0 store address.0 }
{
    let trail = whole(mem, space, store, root, address);
    let walked = trail.walked;
    as_walked(held, walked)
}

// ---- bits

// What is said where a table is owed a bit. The exit is the direct part's, if that reads the entry.
fn owes(debt: Debt, depth: u64) -> Checked
    ensures { result ≡ debt_by depth debt }
{
    match debt {
        Debt::Nothing => Checked::Clear { lack: true },
        Debt::Table { level, frame } => Checked::Stopped {
            fault: Fault::HostReadOnly(frame),
            exits: if level <= depth { 1 } else { 0 },
        },
    }
}

// The bits of the entries that a request's whole walk read, in these tables.
fn judge(
    mem: &[u64],
    space: Space,
    root: GuestPhysical,
    request: Request,
    tables: &[u64; 8],
) -> Checked
    requires { LayoutFits space.layout }
    ensures { result ≡ entries_of (config space.layout) space.top mem.now root.0 request.store request.depth (seen_entries tables.now (seen_of (config space.layout) tables.now space.layout.levels (page_of request.address.0))) }
{
    let read = accessed::read_by(
        space.layout,
        request.address.page(),
        space.layout.levels,
        tables,
    );
    if !accessed::lacks(mem, request.store, read.path, read.steps, tables) {
        return Checked::Clear { lack: false };
    }
    let debt = accessed::owed(
        mem,
        space,
        request.store,
        root,
        read.path,
        read.steps,
        read.below,
        tables,
    );
    owes(debt, request.depth)
}

// The bits of a request's whole walk.
fn check(mem: &[u64], space: Space, root: GuestPhysical, request: Request) -> Checked
    requires { LayoutFits space.layout }
    ensures { result ≡ checked_of (config space.layout) space.top mem.now root.0 request.store request.address.0 request.depth }
{
    let trail = whole(mem, space, request.store, root, request.address);
    let walked = trail.walked;
    match walked {
        Walked::Arrived {
            page,
            writable,
            reads,
        } => judge(mem, space, root, request, &trail.tables),
        Walked::Faulted { fault, reads } => Checked::Stopped {
            fault: fault,
            exits: exit_of(walked),
        },
        Walked::Damaged => Checked::Damaged,
    }
}

// A request that arrived after so many words, by its bits.
fn settled(held: Held, walked: Walked, reads: u64, checked: Checked) -> Translated
    ensures { result ≡ settled_by held reads walked checked }
{
    match checked {
        Checked::Clear { lack } => Translated {
            held: held,
            exits: 0,
            walked: walked,
            sets: lack,
        },
        Checked::Stopped { fault, exits } => Translated {
            held: held,
            exits: exits,
            walked: Walked::Faulted {
                fault: fault,
                reads: reads,
            },
            sets: false,
        },
        Checked::Damaged => damaged(held),
    }
}

// Is there no bit to look at? Bits are off, or no guest entry is read.
pub fn bitless(layout: Layout, depth: u64) -> bool
    ensures { result ≡ bitless_of (config layout) depth }
{
    if depth == 0 {
        return true;
    }
    layout.bits == 0
}

// Does an entry of a direct part that came so far through these tables lack a bit? Those that a held path covers have theirs.
pub fn lacking(
    mem: &[u64],
    layout: Layout,
    store: bool,
    address: GuestVirtual,
    depth: u64,
    walked: Walked,
    tables: &[u64; 8],
) -> bool
    requires { (LayoutFits layout) × (depth ≤ 7) }
    ensures { result ≡ lacking_by ((config layout).bits && lacks (words_of mem.now) store (seen_entries tables.now (seen_of (config layout) tables.now depth (page_of address.0)))) walked }
{
    if layout.bits == 0 {
        return false;
    }
    match walked {
        Walked::Arrived {
            page,
            writable,
            reads,
        } => {
            let read = accessed::read_by(layout, address.page(), depth, tables);
            accessed::lacks(mem, store, read.path, read.steps, tables)
        }
        Walked::Faulted { fault, reads } => false,
        Walked::Damaged => false,
    }
}

// A request whose walk came so far, by the bits of its whole walk.
pub fn judged(
    mem: &[u64],
    space: Space,
    root: GuestPhysical,
    held: Held,
    request: Request,
    walked: Walked,
) -> Translated
    requires { LayoutFits space.layout }
    ensures { result ≡ judged_by held true (checked_of (config space.layout) space.top mem.now root.0 request.store request.address.0 request.depth) walked }
{
    match walked {
        Walked::Arrived {
            page,
            writable,
            reads,
        } => settled(held, walked, reads, check(mem, space, root, request)),
        Walked::Faulted { fault, reads } => as_walked(held, walked),
        Walked::Damaged => damaged(held),
    }
}

// A request that a held path serves, which leads to that page or table: judged by its bits where one lacks.
pub fn through(
    mem: &[u64],
    space: Space,
    root: GuestPhysical,
    held: Held,
    request: Request,
    page: HostPhysical,
    writable: bool,
) -> Translated
    requires { (LayoutFits space.layout) × (request.depth ≤ space.layout.levels) × (page.0 < frame_limit) }
    ensures { result ≡ through_of (config space.layout) space.top mem.now held root.0 request.store request.address.0 request.depth page.0 writable }
{
    let trail = direct_trail(mem, space, request, page, writable);
    let walked = trail.walked;
    if !lacking(
        mem,
        space.layout,
        request.store,
        request.address,
        request.depth,
        walked,
        &trail.tables,
    ) {
        return as_walked(held, walked);
    }
    judged(mem, space, root, held, request, walked)
}

// A request at the depth where nothing is shadowed.
fn unshadowed(
    mem: &[u64],
    space: Space,
    root: GuestPhysical,
    held: Held,
    request: Request,
) -> Translated
    requires { LayoutFits space.layout }
    ensures { result ≡ unshadowed_of (config space.layout) space.top mem.now held root.0 request.store request.address.0 request.depth }
{
    if space.layout.bits == 0 {
        return plain(mem, space, root, held, request.store, request.address);
    }
    let trail = whole(mem, space, request.store, root, request.address);
    let walked = trail.walked;
    if !lacking(
        mem,
        space.layout,
        request.store,
        request.address,
        space.layout.levels,
        walked,
        &trail.tables,
    ) {
        return as_walked(held, walked);
    }
    judged(mem, space, root, held, request, walked)
}

// ---- held paths

// Whether a held path with this writable bit serves the request.
pub fn serves(store: bool, depth: u64, writable: bool) -> bool
    ensures { result ≡ serves_of store depth writable }
{
    if depth == 0 {
        walk::granted(store, writable)
    } else {
        true
    }
}

// The page number of an address without its lowest indexes, as many as the depth.
pub fn path_of(address: GuestVirtual, depth: u64) -> u64
    requires { depth ≤ 7 }
    ensures { result ≡ path_of depth address.0 }
{
    address.page() >> (9 * depth)
}

// The path held at that depth: a shadow entry, or at the depth of all levels the frame in the record.
pub fn found(mem: &[u64], layout: Layout, held: Held, address: GuestVirtual, depth: u64) -> HostWalk
    requires { LayoutFits layout }
    ensures { result ≡ found_of (config layout) mem.now held address.0 depth }
{
    if depth < layout.levels {
        return shadow::held(
            mem,
            layout,
            held.pool.top,
            path_of(address, depth),
            layout.levels - depth,
        );
    }
    if held.frame.0 == 0 {
        return HostWalk::Absent { reads: 0 };
    }
    let frame = held.frame;
    HostWalk::Found {
        page: frame,
        writable: true,
    }
}

// The path is filled; guests: the host frames of the guest tables on its way. The request came to what was walked, after so many exits.
fn filled(
    mem: &mut [u64],
    layout: Layout,
    held: Held,
    guests: &[u64; 8],
    request: Request,
    page: HostPhysical,
    writable: bool,
    exits: u64,
    walked: Walked,
    sets: bool,
) -> Translated
    requires { (LayoutFits layout) × (request.depth ≤ layout.levels) × (page.0 < frame_limit) }
    ensures { yields result mem.new ≡ filled_of (config layout) mem.old held guests.now request.address.0 request.depth page.0 writable exits walked sets }
{
    let pool = held.pool;
    let frame = held.frame;
    if layout.levels <= request.depth {
        return Translated {
            held: Held {
                pool: pool,
                frame: page,
            },
            exits: exits,
            walked: walked,
            sets: sets,
        };
    }
    let e = shadow::entry_for(page, 0 < request.depth, writable);
    let path = path_of(request.address, request.depth);
    let went = shadow::fill(
        mem,
        layout,
        pool,
        guests,
        path,
        layout.levels - request.depth,
        e,
    );
    let way = went.way;
    let after = went.pool;
    match way {
        Way::To(f) => Translated {
            held: Held {
                pool: after,
                frame: frame,
            },
            exits: exits,
            walked: walked,
            sets: sets,
        },
        Way::Not => damaged(held),
        Way::Damaged => damaged(held),
    }
}

// With bits off: filled, whatever the direct part came to.
fn lax(writable: bool, walked: Walked) -> Verdict
    ensures { result ≡ lax_by writable walked }
{
    match walked {
        Walked::Arrived {
            page,
            writable: w,
            reads,
        } => Verdict::Fill {
            writable: writable,
            sets: false,
        },
        Walked::Faulted { fault, reads } => Verdict::Fill {
            writable: writable,
            sets: false,
        },
        Walked::Damaged => Verdict::Damaged,
    }
}

// With bits on, does the path that a request fills let stores pass? Not where a load comes to an entry that is not dirty.
#[tactic(auto, unfolding(crate::specs::Translate::passes_of))]
fn passes(mem: &[u64], layout: Layout, guests: &[u64; 8], request: Request, writable: bool) -> bool
    requires { (LayoutFits layout) × (request.depth ≤ layout.levels) }
    ensures { result ≡ passes_of (config layout) mem.now guests.now request.store request.address.0 request.depth writable }
{
    if !writable {
        return false;
    }
    if request.depth != 0 {
        return true;
    }
    if request.store {
        return true;
    }
    let read = accessed::read_by(
        layout,
        path_of(request.address, request.depth),
        layout.levels - request.depth,
        guests,
    );
    accessed::last_dirty(mem, read.path, read.steps, guests)
}

// A fault past the shadow part, with bits on: it counts as the plain walk does. `before` words were read by the shadow part, and the direct
// part says `reads` with the shadow entries.
fn end(layout: Layout, depth: u64, fault: Fault, before: u64, reads: u64, exits: u64) -> Verdict
    requires { (depth ≤ layout.levels) × (layout.levels - depth ≤ reads) × (before ≤ 65536) × (reads ≤ 65536) × (exits ≤ 65536) }
    ensures { result ≡ Verdict.End fault (plainly (config layout) depth before reads) (1 + exits) }
{
    Verdict::End {
        fault: fault,
        reads: before + (reads - (layout.levels - depth)),
        exits: 1 + exits,
    }
}

// With bits on: filled if it is granted.
fn strict(
    mem: &[u64],
    space: Space,
    root: GuestPhysical,
    guests: &[u64; 8],
    request: Request,
    writable: bool,
    before: u64,
    walked: Walked,
) -> Verdict
    requires { (LayoutFits space.layout) × (request.depth ≤ space.layout.levels) × (before ≤ 65536) × (ReadsFrom (space.layout.levels - request.depth) walked) }
    ensures { result ≡ strict_by (config space.layout) mem.now guests.now request.store request.address.0 request.depth before writable (checked_of (config space.layout) space.top mem.now root.0 request.store request.address.0 request.depth) walked }
{
    let layout = space.layout;
    match walked {
        Walked::Arrived {
            page,
            writable: w,
            reads,
        } => match check(mem, space, root, request) {
            Checked::Clear { lack } => Verdict::Fill {
                writable: passes(mem, layout, guests, request, writable),
                sets: lack,
            },
            Checked::Stopped { fault, exits } => {
                end(layout, request.depth, fault, before, reads, exits)
            }
            Checked::Damaged => Verdict::Damaged,
        },
        Walked::Faulted { fault, reads } => end(
            layout,
            request.depth,
            fault,
            before,
            reads,
            exit_of(walked),
        ),
        Walked::Damaged => Verdict::Damaged,
    }
}

// What becomes of a request whose direct part came so far.
#[tactic(auto, unfolding(crate::specs::Translate::verdict_of))]
fn ruled(
    mem: &[u64],
    space: Space,
    root: GuestPhysical,
    guests: &[u64; 8],
    request: Request,
    writable: bool,
    before: u64,
    walked: Walked,
) -> Verdict
    requires { (LayoutFits space.layout) × (request.depth ≤ space.layout.levels) × (before ≤ 65536) × (ReadsFrom (space.layout.levels - request.depth) walked) }
    ensures { result ≡ verdict_of (config space.layout) space.top mem.now root.0 guests.now request.store request.address.0 request.depth before writable walked }
{
    if space.layout.bits != 0 {
        return strict(mem, space, root, guests, request, writable, before, walked);
    }
    lax(writable, walked)
}

// On from the page or table that a shadow part came to.
fn arrived(
    mem: &mut [u64],
    space: Space,
    root: GuestPhysical,
    held: Held,
    guests: &[u64; 8],
    request: Request,
    page: HostPhysical,
    writable: bool,
    before: u64,
) -> Translated
    requires { (LayoutFits space.layout) × (request.depth ≤ space.layout.levels) × (page.0 < frame_limit) × (before ≤ 65536) }
    ensures { yields result mem.new ≡ arrived_of (config space.layout) space.top mem.old held root.0 guests.now request.store request.address.0 request.depth before page.0 writable }
{
    let walked = direct(mem, space, request, page, writable);
    match ruled(mem, space, root, guests, request, writable, before, walked) {
        Verdict::Fill {
            writable: lets,
            sets,
        } => filled(
            mem,
            space.layout,
            held,
            guests,
            request,
            page,
            lets,
            1 + exit_of(walked),
            walked,
            sets,
        ),
        Verdict::End {
            fault,
            reads,
            exits,
        } => Translated {
            held: held,
            exits: exits,
            walked: Walked::Faulted {
                fault: fault,
                reads: reads,
            },
            sets: false,
        },
        Verdict::Damaged => damaged(held),
    }
}

// The path does not serve: its shadow part is walked, and on from where it arrives.
fn missed(
    mem: &mut [u64],
    space: Space,
    root: GuestPhysical,
    held: Held,
    request: Request,
) -> Translated
    requires { (LayoutFits space.layout) × (request.depth ≤ space.layout.levels) }
    ensures { yields result mem.new ≡ missed_of (config space.layout) space.top mem.old held root.0 request.store request.address.0 request.depth }
{
    let path = path_of(request.address, request.depth);
    let trail = walk::walk_root(
        mem,
        space,
        request.store,
        root,
        path,
        space.layout.levels - request.depth,
        request.depth,
    );
    let upper = trail.walked;
    match upper {
        Walked::Arrived {
            page,
            writable,
            reads,
        } => {
            if page.0 >= space.layout.frames {
                return damaged(held);
            }
            arrived(
                mem,
                space,
                root,
                held,
                &trail.tables,
                request,
                page,
                writable,
                reads,
            )
        }
        Walked::Faulted { fault, reads } => Translated {
            held: held,
            exits: 1,
            walked: upper,
            sets: false,
        },
        Walked::Damaged => damaged(held),
    }
}

// ---- translation

// The translation of a request that no held path serves.
pub fn unserved(
    mem: &mut [u64],
    space: Space,
    root: GuestPhysical,
    held: Held,
    request: Request,
) -> Translated
    requires { LayoutFits space.layout }
    ensures { yields result mem.new ≡ unserved_of (config space.layout) space.top mem.old held root.0 request.store request.address.0 request.depth }
{
    if space.layout.levels < request.depth {
        return unshadowed(mem, space, root, held, request);
    }
    missed(mem, space, root, held, request)
}

// ---- the depth of a request

// Whether a large page can lie above the levels that marks of this depth mark.
pub fn may_turn(depth: u64) -> bool
    ensures { result ≡ may_turn depth }
{
    if depth == 0 {
        return false;
    }
    depth < 3
}

// The depth by the walk down to the table of that level: 0 where it comes into a large page before.
pub fn walked_depth(
    mem: &[u64],
    space: Space,
    root: GuestPhysical,
    address: GuestVirtual,
    depth: u64,
) -> u64
    requires { LayoutFits space.layout }
    ensures { result ≡ walked_depth (config space.layout) space.top mem.now root.0 address.0 depth }
{
    if space.layout.levels < depth {
        return depth;
    }
    let trail = walk::walk_root(
        mem,
        space,
        false,
        root,
        path_of(address, depth),
        space.layout.levels - depth,
        depth,
    );
    let upper = trail.walked;
    match upper {
        Walked::Arrived {
            page,
            writable,
            reads,
        } => {
            if page.0 >= space.layout.frames {
                return 0;
            }
            depth
        }
        Walked::Faulted { fault, reads } => depth,
        Walked::Damaged => depth,
    }
}
