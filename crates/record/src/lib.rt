// The unit's record, by value; whether it breaks a rule (3); the opening.
#![tactic(auto)]

ghost use Rattle.std.specs.Prelude.{◌≡◌};
ghost use Rattle.spec.specs.Refusal.{words_fit, areas_fit, top_fits};
ghost use Rattle.layout.specs.Layout.{LayoutFits, config};
ghost use Rattle.marks.specs.Table.{lookup_in};
ghost use Rattle.record.specs.Words.{head_in, head_words};
ghost use Rattle.record.specs.Record.{layout_of, held_top, is_table, pool_fits, choices_fit, sizes_fit, tables_fit, record_by, head_of, fits_of, zeros, head_root, head_tables, head_marks, head_tally, choice_of, with_head, with_marks};

use choice::{Choice, Tally};
use entry::{GuestPhysical, GuestVirtual, HostPhysical};
use layout::Layout;
use marks::Marks;
use pool::Pool;
use spec::Lookup;

// Levels of the guest's tables and of the host's that an opening chooses.
pub const LEVELS: u64 = 4;

// What the areas of host tables and of shadow tables keep.
#[derive(Clone, Copy)]
pub struct Pools {
    pub host: Pool,
    pub shadow: Pool,
}

// A guest's part of the record: its root, the host frame of the path that is held at the depth of all levels (or 0: frame 0 is
// never in the guest area), its marks, what the automatic choice keeps.
#[derive(Drop)]
pub struct Guest {
    pub root: GuestPhysical,
    pub held: HostPhysical,
    pub marks: Marks,
    pub choice: Choice,
}

// A record handed back with the depth of an address and how many marks were read for it.
#[derive(Drop)]
pub struct Deep {
    pub unit: Record,
    pub lookup: Lookup,
}

// What a call is given and hands back.
#[derive(Drop)]
pub struct Record {
    pub layout: Layout,
    pub pools: Pools,
    pub guest: Guest,
}

// The record without its arrays: numbers that a request takes along while the arrays are lent.
#[derive(Clone, Copy)]
pub struct Head {
    pub layout: Layout,
    pub pools: Pools,
    pub root: GuestPhysical,
    pub held: HostPhysical,
    pub set: u64,
    pub tally: Tally,
}

// How an opening lays out a memory of that many words; bits: whether it chooses accessed and dirty bits.
pub fn layout(words: u64, hosts: u64, shadows: u64, bits: bool) -> Layout
    ensures { result ≡ layout_of words hosts shadows bits }
{
    Layout {
        levels: LEVELS,
        hosts: hosts,
        shadows: shadows,
        frames: words / 512,
        bits: if bits { 1 } else { 0 },
    }
}

// ---- the rules of a record

// Are these choices that an opening has?
#[tactic(auto, unfolding(crate::specs::Record::choices_fit))]
fn choices_fit(l: Layout) -> bool
    ensures { result ≡ choices_fit l }
{
    if l.levels != LEVELS {
        return false;
    }
    l.bits <= 1
}

// Have the host tables and the shadow tables room, and is a guest frame left? H is subtracted where the rule adds H and S, so that no sum
// can overflow.
pub fn areas_fit(l: Layout) -> bool
    ensures { result ≡ areas_fit (config l) }
{
    if l.hosts < l.levels {
        return false;
    }
    if l.shadows < l.levels {
        return false;
    }
    if l.frames < l.hosts {
        return false;
    }
    l.shadows < l.frames - l.hosts
}

// Are these the sizes of an opened memory of that length? The frames are tested before the length, so that their words cannot overflow.
#[tactic(auto, unfolding(crate::specs::Record::sizes_fit))]
fn sizes_fit(l: Layout, len: usize) -> bool
    ensures { result ≡ sizes_fit l len }
{
    if l.frames == 0 {
        return false;
    }
    if 65536 < l.frames {
        return false;
    }
    if len as u64 != l.frames * 512 {
        return false;
    }
    areas_fit(l)
}

// Is it the entry of a table in an area of frames base to base + size?
#[tactic(auto, unfolding(crate::specs::Record::is_table))]
fn is_table(base: u64, size: u64, e: u64) -> bool
    ensures { result ≡ is_table base size e }
{
    if e % 4096 != 1 {
        return false;
    }
    pool::inside(base, size, e / 4096)
}

// Is what an area keeps in its range?
#[tactic(auto, unfolding(crate::specs::Record::pool_fits))]
fn pool_fits(base: u64, size: u64, pool: Pool) -> bool
    ensures { result ≡ pool_fits base size pool }
{
    if size < pool.fresh {
        return false;
    }
    if pool.fresh < pool.used {
        return false;
    }
    if pool.top == 0 {
        return true;
    }
    is_table(base, size, pool.top)
}

// Does the held frame, if there is one, lie in the guest area?
fn held_fits(l: Layout, held: HostPhysical) -> bool
    requires { LayoutFits l }
    ensures { result ≡ top_fits (config l) (held_top held.0) }
{
    if held.0 == 0 {
        return true;
    }
    layout::in_guest_area(l, held.0)
}

// The held frame and what the areas keep. The top host table stands always.
fn tables_fit(l: Layout, held: HostPhysical, pools: Pools) -> bool
    requires { LayoutFits l }
    ensures { result ≡ tables_fit l held.0 pools }
{
    if !held_fits(l, held) {
        return false;
    }
    if !is_table(0, l.hosts, pools.host.top) {
        return false;
    }
    if !pool_fits(0, l.hosts, pools.host) {
        return false;
    }
    pool_fits(l.hosts, l.shadows, pools.shadow)
}

// ---- the head in 20 words, as it is lent

fn layout_in(w: &[u64; 20]) -> Layout
    ensures { result ≡ (head_in w.now).layout }
{
    Layout {
        levels: w[0],
        hosts: w[1],
        shadows: w[2],
        frames: w[3],
        bits: w[4],
    }
}

fn pools_in(w: &[u64; 20]) -> Pools
    ensures { result ≡ (head_in w.now).pools }
{
    Pools {
        host: Pool {
            fresh: w[5],
            free: w[6],
            used: w[7],
            top: w[8],
        },
        shadow: Pool {
            fresh: w[9],
            free: w[10],
            used: w[11],
            top: w[12],
        },
    }
}

fn tally_in(w: &[u64; 20]) -> Tally
    ensures { result ≡ (head_in w.now).tally }
{
    Tally {
        on: w[16],
        charged: w[17],
        at: w[18],
        count: w[19],
    }
}

// The places of marks that are set.
fn set_in(w: &[u64; 20]) -> u64
    ensures { result ≡ (head_in w.now).set }
{
    w[15]
}

// The head that the words say.
pub fn head_in(w: &[u64; 20]) -> Head
    ensures { result ≡ head_in w.now }
{
    Head {
        layout: layout_in(w),
        pools: pools_in(w),
        root: GuestPhysical(w[13]),
        held: HostPhysical(w[14]),
        set: set_in(w),
        tally: tally_in(w),
    }
}

// And back.
pub fn head_words(h: Head) -> [u64; 20]
    ensures { result ≡ head_words h }
{
    let l = h.layout;
    let host = h.pools.host;
    let shadow = h.pools.shadow;
    let tally = h.tally;
    [
        l.levels,
        l.hosts,
        l.shadows,
        l.frames,
        l.bits,
        host.fresh,
        host.free,
        host.used,
        host.top,
        shadow.fresh,
        shadow.free,
        shadow.used,
        shadow.top,
        h.root.0,
        h.held.0,
        h.set,
        tally.on,
        tally.charged,
        tally.at,
        tally.count,
    ]
}

// Does the record that these words and arrays are break no rule on a memory of that length? The words are read where they stand, each
// when its turn comes, so that a call pays for no copy of them.
pub fn fits<'a>(
    w: &'a [u64; 20],
    place: &'a [u64; 64],
    ring: &'a [u64; 64],
    order: &'a [u64; 64],
    len: usize,
) -> bool
    ensures { result ≡ fits_of (record_by (head_in w.now) place.now ring.now order.now) len }
{
    let set = set_in(w);
    let l = layout_in(w);
    if !choices_fit(l) {
        return false;
    }
    if !sizes_fit(l, len) {
        return false;
    }
    if !layout::frame_fits(l, GuestPhysical(w[13])) {
        return false;
    }
    if !marks::fits(place, set, l.levels) {
        return false;
    }
    if !choice::fits(tally_in(w), order, place, set) {
        return false;
    }
    tables_fit(l, HostPhysical(w[14]), pools_in(w))
}

impl Head {
    // With another root.
    pub fn with_root(mut self, root: GuestPhysical) -> Head
        ensures { result ≡ head_root self root.0 }
    {
        self.root = root;
        self
    }

    // With other pools and another frame held in the record.
    pub fn with_tables(mut self, pools: Pools, held: HostPhysical) -> Head
        ensures { result ≡ head_tables self pools held }
    {
        self.pools = pools;
        self.held = held;
        self
    }

    // With other places of marks set, and another tally of the automatic choice.
    pub fn with_marks(mut self, set: u64, tally: Tally) -> Head
        ensures { result ≡ head_marks self set tally }
    {
        self.set = set;
        self.tally = tally;
        self
    }

    // With another tally of the automatic choice.
    pub fn with_tally(mut self, tally: Tally) -> Head
        ensures { result ≡ head_tally self tally }
    {
        self.tally = tally;
        self
    }
}

// Nothing is kept by the automatic choice, which is on or off.
pub fn no_choice(on: bool) -> Choice
    ensures { result ≡ choice_of on }
{
    Choice {
        tally: Tally {
            on: if on { 1 } else { 0 },
            charged: 0,
            at: 0,
            count: 0,
        },
        ring: [0u64; 64],
        order: [0u64; 64],
    }
}

impl Record {
    // Nothing is opened.
    pub fn zeros() -> Record
        ensures { result ≡ zeros }
    {
        Record {
            layout: Layout {
                levels: 0,
                hosts: 0,
                shadows: 0,
                frames: 0,
                bits: 0,
            },
            pools: Pools {
                host: pool::no_tables(),
                shadow: pool::no_tables(),
            },
            guest: Guest {
                root: GuestPhysical(0),
                held: HostPhysical(0),
                marks: Marks {
                    set: 0,
                    place: [0u64; 64],
                },
                choice: no_choice(false),
            },
        }
    }

    // The record without its arrays.
    pub fn head(&self) -> Head
        ensures { result ≡ head_of self.now }
    {
        let layout = self.layout;
        let pools = self.pools;
        let root = self.guest.root;
        let held = self.guest.held;
        let tally = self.guest.choice.tally;
        Head {
            layout: layout,
            pools: pools,
            root: root,
            held: held,
            set: self.guest.marks.set,
            tally: tally,
        }
    }

    // Does the record break no rule on a memory of that length?
    pub fn fits(&self, len: usize) -> bool
        ensures { result ≡ fits_of self.now len }
    {
        let words = head_words(self.head());
        fits(
            &words,
            &self.guest.marks.place,
            &self.guest.choice.ring,
            &self.guest.choice.order,
            len,
        )
    }

    // The depth of an address, and how many marks were read for it.
    pub fn depth(self, address: GuestVirtual) -> Deep
        ensures { result ≡ record { unit = self; lookup = lookup_in self.layout.levels self.guest.marks address.0 } }
    {
        let lookup = depth::lookup(
            &self.guest.marks.place,
            self.guest.marks.set,
            self.layout.levels,
            address,
        );
        Deep {
            unit: self,
            lookup: lookup,
        }
    }

    // The record with another head; the arrays stay.
    pub fn with_head(self, head: Head) -> Record
        ensures { result ≡ with_head self head }
    {
        let layout = head.layout;
        let pools = head.pools;
        let root = head.root;
        let held = head.held;
        let tally = head.tally;
        let place = self.guest.marks.place;
        let ring = self.guest.choice.ring;
        let order = self.guest.choice.order;
        Record {
            layout: layout,
            pools: pools,
            guest: Guest {
                root: root,
                held: held,
                marks: Marks {
                    set: head.set,
                    place: place,
                },
                choice: Choice {
                    tally: tally,
                    ring: ring,
                    order: order,
                },
            },
        }
    }

    // The record with other marks, and what the automatic choice then keeps.
    pub fn with_marks(mut self, marks: Marks, choice: Choice) -> Record
        ensures { result ≡ with_marks self marks choice }
    {
        let mut guest = self.guest;
        guest.marks = marks;
        guest.choice = choice;
        self.guest = guest;
        self
    }
}

// ---- opening

// What an opening yields: the record, and the number of the refusal, or 0.
#[derive(Drop)]
pub struct Opened {
    pub unit: Record,
    pub refusal: u64,
}

// Is it a number of words that can be opened?
pub fn words_fit(words: u64) -> bool
    ensures { result ≡ words_fit words }
{
    if words % 512 != 0 {
        return false;
    }
    if words == 0 {
        return false;
    }
    words / 512 <= 65536
}
