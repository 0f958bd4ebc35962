// Held paths dropped: at which entries of the shadow tables they are cut, and the scan that clears them.
#![tactic(auto)]

ghost use Rattle.std.specs.Prelude.{◌≡◌, ◌+◌, ◌-◌, ◌<◌, ◌≤◌};
ghost use Rattle.spec.specs.Entry.{index, indexes, frame_limit};
ghost use Rattle.layout.specs.Layout.{LayoutFits, config};
ghost use Rattle.pool.specs.Header.{level_of, guest_of};
ghost use Rattle.drops.specs.Cut.{is_leaf, kind_of, lead_in, leads_to, cut_of, low_of, end_of, touches_of, link_up_of, links_up_of};
ghost use Rattle.drops.specs.Drop.{goes_of, clear_one_of, clear_leaves_of, settle_of, sweep_of, visit_of, scan_of, table_named, holder_of, drop_prefix_of};
ghost use Rattle.words.specs.After.{yields};

use entry::{GuestPhysical, HostPhysical};
use layout::Layout;
use pool::{Pool, Way};

// What an entry of a shadow table says. Damaged: it names a frame outside the area it must lie in.
#[derive(Clone, Copy)]
pub enum Kind {
    Gone,
    Leaf,
    Table(u64),
    Damaged,
}

// At which entries held paths are cut. Word: the entry at an index of each table that stands for the guest table in a host
// frame. Names: those by which the guest's walk comes to a guest frame. Slot: the entry at an index of one table.
#[derive(Clone, Copy)]
pub enum Cut {
    Word(HostPhysical, u64),
    Names(GuestPhysical),
    Slot(HostPhysical, u64),
}

// Links up from a table: an entry above is cut, none is, or a link leads out of the area.
#[derive(Clone, Copy)]
pub enum Above {
    Met,
    To(u64),
    Damaged,
}

// What a drop leaves; not ok: an entry or a link that it read is damaged.
#[derive(Clone, Copy)]
pub struct Left {
    pub pool: Pool,
    pub ok: bool,
}

// ---- entries

// Whether a present entry ends a held path; lowest: its table is of level 1.
fn is_leaf(lowest: bool, entry: u64) -> bool
    ensures { result ≡ is_leaf lowest entry }
{
    if lowest { true } else { entry::switch(entry) }
}

// What an entry says.
fn kind_of(layout: Layout, lowest: bool, entry: u64) -> Kind
    requires { LayoutFits layout }
    ensures { result ≡ kind_of (config layout) lowest entry }
{
    if entry::present(entry) {
        let f = entry::frame_of(entry);
        if is_leaf(lowest, entry) {
            if layout::in_guest_area(layout, f) {
                Kind::Leaf
            } else {
                Kind::Damaged
            }
        } else {
            if pool::inside(layout.hosts, layout.shadows, f) {
                Kind::Table(f)
            } else {
                Kind::Damaged
            }
        }
    } else {
        Kind::Gone
    }
}

// ---- cuts

// Whether the guest's walk comes to that guest frame by the entry of a table: by the guest table that it stands for, or in a large page.
fn leads_to(mem: &[u64], layout: Layout, guest: u64, table: u64, at: u64) -> bool
    requires { (LayoutFits layout) × (table < frame_limit) × (at < 512) }
    ensures { result ≡ leads_to guest (lead_in (config layout) mem.now (level_of mem.now table) (guest_of mem.now table) at) }
{
    let place = pool::guest(mem, table);
    let level = pool::level(mem, table);
    if place < layout.frames {
        let e = words::word_in(mem, place, at);
        if entry::large(level, e) {
            return false;
        }
        return guest == entry::frame_of(e);
    }
    if level == 1 {
        if at <= guest {
            return guest - at == place - layout.frames;
        }
    }
    false
}

// Whether an entry of a table is cut.
fn cut_at(mem: &[u64], layout: Layout, cut: Cut, table: u64, at: u64) -> bool
    requires { (LayoutFits layout) × (table < frame_limit) × (at < 512) }
    ensures { result ≡ cut_of (config layout) mem.now cut table at }
{
    match cut {
        Cut::Word(frame, index) => {
            if at == index % 512 {
                pool::stands_for(mem, table, frame.0)
            } else {
                false
            }
        }
        Cut::Names(g) => leads_to(mem, layout, g.0, table, at),
        Cut::Slot(frame, index) => {
            if at == index % 512 {
                table == frame.0
            } else {
                false
            }
        }
    }
}

// The first entry of a table at which it may be cut.
fn low(cut: Cut) -> u64
    ensures { result ≡ low_of cut }
{
    match cut {
        Cut::Word(frame, index) => index % 512,
        Cut::Names(g) => 0,
        Cut::Slot(frame, index) => index % 512,
    }
}

// The end of these entries.
fn end(cut: Cut) -> u64
    ensures { result ≡ end_of cut }
{
    match cut {
        Cut::Word(frame, index) => index % 512 + 1,
        Cut::Names(g) => 512,
        Cut::Slot(frame, index) => index % 512 + 1,
    }
}

// Whether a table may have an entry that is cut.
fn touches(mem: &[u64], cut: Cut, table: u64) -> bool
    requires { table < frame_limit }
    ensures { result ≡ touches_of mem.now cut table }
{
    match cut {
        Cut::Word(frame, index) => pool::stands_for(mem, table, frame.0),
        Cut::Names(g) => true,
        Cut::Slot(frame, index) => table == frame.0,
    }
}

// One link up from the table in that frame.
fn link_up(mem: &[u64], layout: Layout, cut: Cut, frame: u64) -> Above
    requires { (LayoutFits layout) × (frame < frame_limit) }
    ensures { result ≡ link_up_of (config layout) cut mem.now frame }
{
    let p = pool::parent(mem, frame);
    if pool::inside(layout.hosts, layout.shadows, p) {
        if cut_at(mem, layout, cut, p, pool::slot(mem, frame)) {
            Above::Met
        } else {
            Above::To(p)
        }
    } else {
        Above::Damaged
    }
}

// Whether an entry above the table in that frame is cut; `above` tables stand above it.
fn links_up(mem: &[u64], layout: Layout, cut: Cut, above: u64, frame: u64) -> Above
    requires { (LayoutFits layout) × (frame < frame_limit) }
    ensures { result ≡ links_up_of (config layout) cut mem.now above frame }
{
    let mut t = frame;
    let mut links = above;
    while links > 0 {
        match link_up(mem, layout, cut, t) {
            Above::Met => {
                return Above::Met;
            }
            Above::To(p) => {
                t = p;
            }
            Above::Damaged => {
                return Above::Damaged;
            }
        }
        links -= 1;
    }
    Above::To(t)
}

// How many tables stand above one of that level.
pub fn links(levels: u64, level: u64) -> u64
    ensures { result ≡ levels - level }
{
    if level < levels { levels - level } else { 0 }
}

// ---- one table

// Whether a leaf at the index of the table in that frame goes.
fn goes(mem: &[u64], layout: Layout, cut: Cut, all: bool, frame: u64, index: u64) -> bool
    requires { (LayoutFits layout) × (frame < frame_limit) × (index < 512) }
    ensures { result ≡ goes_of (config layout) mem.now cut all frame index }
{
    if all {
        true
    } else {
        cut_at(mem, layout, cut, frame, index)
    }
}

// The entry at the index is cleared if it is a leaf that goes; false if it is damaged.
fn clear_one(
    mem: &mut [u64],
    layout: Layout,
    cut: Cut,
    all: bool,
    lowest: bool,
    frame: u64,
    index: u64,
) -> bool
    requires { (LayoutFits layout) × (frame < frame_limit) × (index < 512) }
    ensures { yields result mem.new ≡ clear_one_of (config layout) cut all lowest frame mem.old index }
{
    match kind_of(layout, lowest, pool::entry_at(mem, frame, index)) {
        Kind::Gone => true,
        Kind::Leaf => {
            if goes(mem, layout, cut, all, frame, index) {
                pool::put_entry(mem, frame, index, 0);
                true
            } else {
                true
            }
        }
        Kind::Table(t) => true,
        Kind::Damaged => false,
    }
}

// The entries from lo on below hi.
fn clear_leaves(
    mem: &mut [u64],
    layout: Layout,
    cut: Cut,
    all: bool,
    lowest: bool,
    frame: u64,
    lo: u64,
    hi: u64,
) -> bool
    requires { (LayoutFits layout) × (frame < frame_limit) × (hi ≤ 512) × (lo ≤ hi) }
    ensures { yields result mem.new ≡ clear_leaves_of (config layout) cut all lowest frame (hi - lo) lo mem.old }
{
    let mut i = lo;
    while i < hi {
        if clear_one(mem, layout, cut, all, lowest, frame, i) {
            i += 1;
        } else {
            return false;
        }
    }
    true
}

// The table in that frame, of that level, and those above it are given back as far as they are empty.
fn settle(mem: &mut [u64], layout: Layout, before: Pool, level: u64, frame: u64) -> Left
    requires { (LayoutFits layout) × (frame < frame_limit) }
    ensures { yields result mem.new ≡ settle_of (config layout) before mem.old level frame }
{
    let went = prune::release(
        shadow::shadow_area(layout),
        false,
        before,
        mem,
        links(layout.levels, level),
        frame,
    );
    let pool = went.pool;
    let way = went.way;
    match way {
        Way::To(t) => Left {
            pool: pool,
            ok: true,
        },
        Way::Not => Left {
            pool: pool,
            ok: true,
        },
        Way::Damaged => Left {
            pool: pool,
            ok: false,
        },
    }
}

// The leaves that go are cleared, and emptied tables given back.
fn sweep(
    mem: &mut [u64],
    layout: Layout,
    cut: Cut,
    all: bool,
    level: u64,
    frame: u64,
    lo: u64,
    hi: u64,
    pool: Pool,
) -> Left
    requires { (LayoutFits layout) × (frame < frame_limit) × (hi ≤ 512) × (lo ≤ hi) }
    ensures { yields result mem.new ≡ sweep_of (config layout) cut all level frame (hi - lo) lo pool mem.old }
{
    if clear_leaves(mem, layout, cut, all, level == 1, frame, lo, hi) {
        settle(mem, layout, pool, level, frame)
    } else {
        Left {
            pool: pool,
            ok: false,
        }
    }
}

// ---- the scan

// One frame: all leaves of a table under a cut go, else those that are cut.
fn visit(mem: &mut [u64], layout: Layout, cut: Cut, pool: Pool, frame: u64) -> Left
    requires { (LayoutFits layout) × (frame < frame_limit) }
    ensures { yields result mem.new ≡ visit_of (config layout) cut pool mem.old frame }
{
    let n = pool::level(mem, frame);
    if n == 0 {
        return Left {
            pool: pool,
            ok: true,
        };
    }
    match links_up(mem, layout, cut, links(layout.levels, n), frame) {
        Above::Met => sweep(mem, layout, cut, true, n, frame, 0, 512, pool),
        Above::To(t) => {
            if touches(mem, cut, frame) {
                sweep(mem, layout, cut, false, n, frame, low(cut), end(cut), pool)
            } else {
                Left {
                    pool: pool,
                    ok: true,
                }
            }
        }
        Above::Damaged => Left {
            pool: pool,
            ok: false,
        },
    }
}

// Every path that is cut is dropped.
fn scan(mem: &mut [u64], layout: Layout, cut: Cut, pool: Pool) -> Left
    requires { (LayoutFits layout) × (pool.fresh ≤ layout.shadows) }
    ensures { yields result mem.new ≡ scan_of (config layout) cut pool mem.old }
{
    let fresh = pool.fresh;
    let mut cur = pool;
    let mut i: u64 = 0;
    while i < fresh {
        let left = visit(mem, layout, cut, cur, layout.hosts + i);
        cur = left.pool;
        if left.ok {
            i += 1;
        } else {
            return left;
        }
    }
    Left {
        pool: cur,
        ok: true,
    }
}

// A store to a word of a host frame drops the paths whose shadow part read it.
pub fn drop_word(
    mem: &mut [u64],
    layout: Layout,
    pool: Pool,
    frame: HostPhysical,
    index: u64,
) -> Left
    requires { (LayoutFits layout) × (pool.fresh ≤ layout.shadows) }
    ensures { yields result mem.new ≡ scan_of (config layout) (Cut.Word frame index) pool mem.old }
{
    scan(mem, layout, Cut::Word(frame, index), pool)
}

// A mapping made or taken away drops the paths whose shadow part used it below the root.
pub fn drop_mapping(mem: &mut [u64], layout: Layout, pool: Pool, guest: GuestPhysical) -> Left
    requires { (LayoutFits layout) × (pool.fresh ≤ layout.shadows) }
    ensures { yields result mem.new ≡ scan_of (config layout) (Cut.Names guest) pool mem.old }
{
    scan(mem, layout, Cut::Names(guest), pool)
}

// ---- a prefix

// The table that an entry above the lowest level names.
fn table_named(layout: Layout, entry: u64) -> Way
    requires { LayoutFits layout }
    ensures { result ≡ table_named (config layout) entry }
{
    match kind_of(layout, false, entry) {
        Kind::Gone => Way::Not,
        Kind::Leaf => Way::Not,
        Kind::Table(f) => Way::To(f),
        Kind::Damaged => Way::Damaged,
    }
}

// The table that holds the last entry of the prefix of the last `steps` indexes of `path`, on from the entry given.
fn holder(mem: &[u64], layout: Layout, entry: u64, path: u64, steps: u64) -> Way
    requires { (LayoutFits layout) × (1 ≤ steps) × (steps ≤ layout.levels) }
    ensures { result ≡ holder_of (config layout) mem.now entry (index (steps - 1) path) (indexes (steps - 1) path) }
{
    let mut at = entry;
    let mut left = steps - 1;
    while left > 0 {
        match table_named(layout, at) {
            Way::To(f) => {
                at = pool::entry_at(mem, f, area::index_at(path, left));
            }
            Way::Not => {
                return Way::Not;
            }
            Way::Damaged => {
                return Way::Damaged;
            }
        }
        left -= 1;
    }
    table_named(layout, at)
}

// The paths that begin with the prefix of the last `steps` indexes of `path` are dropped.
pub fn drop_prefix(mem: &mut [u64], layout: Layout, pool: Pool, path: u64, steps: u64) -> Left
    requires { (LayoutFits layout) × (pool.fresh ≤ layout.shadows) × (steps ≤ layout.levels) }
    ensures { yields result mem.new ≡ drop_prefix_of (config layout) pool mem.old (indexes steps path) }
{
    if steps == 0 {
        return Left {
            pool: pool::no_tables(),
            ok: true,
        };
    }
    match holder(mem, layout, pool.top, path, steps) {
        Way::To(f) => scan(
            mem,
            layout,
            Cut::Slot(HostPhysical(f), area::index_at(path, 0)),
            pool,
        ),
        Way::Not => Left {
            pool: pool,
            ok: true,
        },
        Way::Damaged => Left {
            pool: pool,
            ok: false,
        },
    }
}
