// The calls on a record in parts: its head by value and its arrays lent, so that no call copies an array. Each is told whether the record
// breaks no rule (3); what comes back is what the call can change of the head.
#![tactic(auto)]

ghost use Rattle.std.specs.Prelude.{◌≡◌, ◌<◌, ◌≤◌, length, T, true, ◌≢◌};
ghost use Rattle.spec.specs.Bytes.{width_fits};
ghost use Rattle.words.specs.After.{yields};
ghost use Rattle.entry.specs.Levels.{of_levels};
ghost use Rattle.record.specs.Record.{record_by, fits_of};
ghost use Rattle.layout.specs.Layout.{LayoutFits, config};
ghost use Rattle.spec.specs.Entry.{frame_limit};
ghost use Rattle.request.specs.Access.{Inside, ReachesFrame};
ghost use Rattle.translate.specs.Translate.{HeldFits};
ghost use Rattle.automatic.specs.Moves.{Ready, moved_in, kept_by};
ghost use Rattle.calls.specs.Calls.{refusal_by, address_ok, Sound, nothing, head_held, held_in, space_in, served_reply, windowed_reply, windowed_turn, tally_after, turn_reply, turn_in, remap_reply, unmoved_by, load_call, charged_in, OwedFits, settled_turn, depth_at, stored_by, stored_of, store_charged_of, store_call, device_call, root_call, unmapped_of, changed_by, map_call, unmap_call, ended, forecast_call, refusal_in, mark_moves, mark_call};

use automatic::Moved;
use charge::Charge;
use choice::Tally;
use entry::{GuestPhysical, GuestVirtual, HostPhysical};
use host::{Change, Space};
use layout::{HostWalk, Layout};
use pool::Pool;
use record::{Head, Pools, Record};
use request::Served;
use spec::Answer;
use translate::{Held, Request, Translated};
use walk::Walked;

// What a call hands back.
#[derive(Drop)]
pub struct Reply {
    pub unit: Record,
    pub answer: Answer,
}

// What is left to do of a store that is charged to a prefix: it came to a page.
#[derive(Clone, Copy)]
pub struct Owed {
    pub held: Held,
    pub page: HostPhysical,
    pub reads: u64,
    pub exits: u64,
    pub sets: bool,
    pub prefix: u64,
}

// What a call in parts hands back that may change more than what is held.
#[derive(Clone, Copy)]
pub struct Turn {
    pub head: Head,
    pub answer: Answer,
}

// What a map or an unmap hands back: the host tables, what is held, and the answer.
#[derive(Clone, Copy)]
pub struct Remapped {
    pub host: Pool,
    pub held: Held,
    pub answer: Answer,
}

// ---- parts of a record

// What is held.
fn held_in(head: Head) -> Held
    ensures { result ≡ held_in head }
{
    let pool = head.pools.shadow;
    let frame = head.held;
    Held {
        pool: pool,
        frame: frame,
    }
}

// Where the guest's frames are.
fn space_in(head: Head) -> Space
    ensures { result ≡ space_in head }
{
    let layout = head.layout;
    Space {
        layout: layout,
        top: head.pools.host.top,
    }
}

// With other paths held.
pub fn with_held(head: Head, held: Held) -> Head
    ensures { result ≡ head_held head held }
{
    let host = head.pools.host;
    let shadow = held.pool;
    let frame = held.frame;
    head.with_tables(
        Pools {
            host: host,
            shadow: shadow,
        },
        frame,
    )
}

// Nothing is held.
fn held_none() -> Held
    ensures { result ≡ nothing }
{
    Held {
        pool: pool::no_tables(),
        frame: HostPhysical(0),
    }
}

// A refusal: its number, with the head given.
fn refused_in(head: Head, number: u64) -> Turn
    ensures { result ≡ record { head = head; answer = Answer.Refused number } }
{
    Turn {
        head: head,
        answer: Answer::Refused(number),
    }
}

// ---- load and store

// Is it the address of so many bytes? A device's is guest-physical.
fn address_ok(levels: u64, device: bool, address: u64, width: u64) -> bool
    requires { (levels < 6) × (T (width_fits width)) }
    ensures { result ≡ address_ok device (of_levels levels) address width }
{
    if !device {
        return GuestVirtual(address).names_bytes(levels, width);
    }
    if address >> (12 + entry::frame_bits(levels)) == 0 {
        entry::aligned(address, width)
    } else {
        false
    }
}

// Why a load or a store, or a device's, is refused before it is served: 3, 15, 4, or 0. fits: the record breaks no rule.
fn request_refusal(fits: bool, levels: u64, device: bool, address: u64, width: u64) -> u64
    requires { fits ≡ true → levels < 6 }
    ensures { result ≡ refusal_by fits (width_fits width) (address_ok device (of_levels levels) address width) }
{
    if !fits {
        return 3;
    }
    if !entry::width_fits(width) {
        return 15;
    }
    if !address_ok(levels, device, address, width) {
        return 4;
    }
    0
}

// Loads so many bytes: 3, 15, 4, 11.
pub fn load_at<'a>(
    head: Head,
    fits: bool,
    place: &'a [u64; 64],
    ring: &'a [u64; 64],
    order: &'a [u64; 64],
    mem: &mut [u64],
    address: u64,
    width: u64,
) -> Served
    requires { fits ≡ fits_of (record_by head place.now ring.now order.now) (length mem.old) }
    ensures { yields (windowed_reply (record_by head place.now ring.now order.now) result) mem.new ≡ load_call (record_by head place.now ring.now order.now) mem.old address width }
{
    let held = held_in(head);
    let refusal = request_refusal(fits, head.layout.levels, false, address, width);
    if refusal != 0 {
        return request::refused(held, refusal);
    }
    let at = GuestVirtual(address);
    let d = depth::depth(place, head.set, head.layout.levels, at);
    request::load(mem, space_in(head), head.root, held, at, width, d)
}

// The tally after a load or a store with that answer.
pub fn tally_after(tally: Tally, answer: Answer) -> Tally
    ensures { result ≡ tally_after answer tally }
{
    match answer {
        Answer::Ok => tally.requested(),
        Answer::Value {
            word,
            references,
            exits,
        } => tally.requested(),
        Answer::Done { references, exits } => tally.requested(),
        Answer::Faulted {
            fault,
            references,
            exits,
        } => tally.requested(),
        Answer::Refused(n) => tally,
        Answer::Figures {
            references,
            exits,
            tables,
        } => tally.requested(),
    }
}

// Stores the low bytes of a value, with the automatic choice off; the paths whose shadow part read the word around them are dropped: 3,
// 15, 4, 11.
pub fn store_at<'a>(
    head: Head,
    fits: bool,
    place: &'a [u64; 64],
    ring: &'a [u64; 64],
    order: &'a [u64; 64],
    mem: &mut [u64],
    address: u64,
    width: u64,
    value: u64,
) -> Served
    requires { (fits ≡ fits_of (record_by head place.now ring.now order.now) (length mem.old)) × (head.tally.on ≡ 0) }
    ensures { yields (served_reply (record_by head place.now ring.now order.now) result) mem.new ≡ store_call (record_by head place.now ring.now order.now) mem.old address width value }
{
    let held = held_in(head);
    let refusal = request_refusal(fits, head.layout.levels, false, address, width);
    if refusal != 0 {
        return request::refused(held, refusal);
    }
    let at = GuestVirtual(address);
    let d = depth::depth(place, head.set, head.layout.levels, at);
    request::store(mem, space_in(head), head.root, held, at, width, d, value)
}

// ---- a store with the automatic choice on

// What a store that came to a page is charged to. Most pages are not watched.
fn charge_at(mem: &[u64], layout: Layout, held: Held, page: HostPhysical, word: u64) -> Charge
    requires { (LayoutFits layout) × (held.pool.fresh ≤ layout.shadows) × (page.0 < frame_limit) × (word < 512) }
    ensures { result ≡ charged_in (config layout) held mem.now page.0 word }
{
    if !shadow::watched(mem, layout, held.pool.fresh, page) {
        return Charge::Nobody;
    }
    charge::charged(mem, layout, held.pool.fresh, page, word)
}

// What a call leaves that was served and is charged to nobody: it is in the window.
fn windowed(head: Head, s: Served) -> Turn
    ensures { result ≡ windowed_turn head s }
{
    let held = s.held;
    let answer = s.answer;
    Turn {
        head: with_held(head, held).with_tally(tally_after(head.tally, answer)),
        answer: answer,
    }
}

// The last of a store that is charged, after its drops and the marks that it moved: its bits and its bytes.
fn store_settled(
    head: Head,
    moved: Moved,
    mem: &mut [u64],
    address: u64,
    width: u64,
    value: u64,
    owed: Owed,
    exits: u64,
) -> Turn
    requires { (LayoutFits head.layout) × (owed.page.0 < frame_limit) × (Inside address width) }
    ensures { yields result mem.new ≡ settled_turn head address width value owed exits (yields moved mem.old) }
{
    let page = owed.page;
    let next = moved.head;
    if !moved.ok {
        return refused_in(head, 11);
    }
    request::settle_own(
        mem,
        space_in(head),
        head.root,
        GuestVirtual(address),
        owed.sets,
    );
    request::put_bytes(mem, page, address, width, value);
    Turn {
        head: next,
        answer: Answer::Done {
            references: owed.reads,
            exits: exits,
        },
    }
}

// A store that is charged, from where it came to its page: its own drops, the charge with the marks that it moves, its bits, its
// bytes: 11. No guest word is changed before the last drop.
fn store_charged(
    head: Head,
    place: &mut [u64; 64],
    ring: &mut [u64; 64],
    order: &mut [u64; 64],
    mem: &mut [u64],
    address: u64,
    width: u64,
    value: u64,
    owed: Owed,
) -> Turn
    requires { (Ready (record_by head place.old ring.old order.old)) × (Inside address width) × (OwedFits (config head.layout) owed) }
    ensures { yields (turn_in place.new ring.new order.new result) mem.new ≡ store_charged_of (record_by head place.old ring.old order.old) mem.old address width value owed }
{
    let held = owed.held;
    let pool = held.pool;
    let page = owed.page;
    let put = request::drop_readers(mem, head.layout, pool, page, address);
    let left = put.pool;
    if !put.ok {
        return refused_in(head, 11);
    }
    let frame = held.frame;
    let moved = automatic::charge(
        automatic::with_shadow(head, left, frame),
        place,
        ring,
        order,
        mem,
        owed.prefix,
    );
    let exits = owed.exits + put.exits;
    store_settled(head, moved, mem, address, width, value, owed, exits)
}

// A store that was translated, by what it is charged to.
fn store_from(
    head: Head,
    place: &mut [u64; 64],
    ring: &mut [u64; 64],
    order: &mut [u64; 64],
    mem: &mut [u64],
    t: Translated,
    address: GuestVirtual,
    width: u64,
    value: u64,
) -> Turn
    requires { (Ready (record_by head place.old ring.old order.old)) × (head.tally.on ≢ 0) × (t.held.pool.fresh ≤ head.layout.shadows) × (ReachesFrame t.walked) × (Inside address.0 width) × (t.exits ≤ 65536) }
    ensures { yields (turn_in place.new ring.new order.new result) mem.new ≡ stored_by (record_by head place.old ring.old order.old) address.0 width value (yields t mem.old) t.walked }
{
    let walked = t.walked;
    let held = t.held;
    match walked {
        Walked::Arrived {
            page,
            writable,
            reads,
        } => match charge_at(mem, head.layout, held, page, request::word_of(address.0)) {
            Charge::Nobody => windowed(
                head,
                request::stored_by_bits(
                    mem,
                    space_in(head),
                    head.root,
                    held_in(head),
                    t,
                    address,
                    width,
                    value,
                ),
            ),
            Charge::To(prefix) => store_charged(
                head,
                place,
                ring,
                order,
                mem,
                address.0,
                width,
                value,
                Owed {
                    held: held,
                    page: page,
                    reads: reads,
                    exits: t.exits,
                    sets: t.sets,
                    prefix: prefix,
                },
            ),
            Charge::Damaged => refused_in(head, 11),
        },
        Walked::Faulted { fault, reads } => windowed(
            head,
            Served {
                held: held,
                answer: Answer::Faulted {
                    fault: fault,
                    references: reads,
                    exits: t.exits,
                },
            },
        ),
        Walked::Damaged => refused_in(head, 11),
    }
}

// A store that was let through, at the depth that its marks give, by its translation: 11.
fn store_translated(
    head: Head,
    place: &mut [u64; 64],
    ring: &mut [u64; 64],
    order: &mut [u64; 64],
    mem: &mut [u64],
    address: GuestVirtual,
    width: u64,
    depth: u64,
    value: u64,
) -> Turn
    requires { (Ready (record_by head place.old ring.old order.old)) × (head.tally.on ≢ 0) × (HeldFits (config head.layout) (held_in head)) × (Inside address.0 width) × (2 ≤ head.layout.levels) × (depth ≡ depth_at (record_by head place.old ring.old order.old) address.0) }
    ensures { yields (turn_in place.new ring.new order.new result) mem.new ≡ stored_of (record_by head place.old ring.old order.old) mem.old address.0 width value }
{
    let request = Request {
        store: true,
        address: address,
        depth: depth,
    };
    let t = request::reached(mem, space_in(head), head.root, held_in(head), request);
    store_from(head, place, ring, order, mem, t, address, width, value)
}

// A store with the automatic choice on: 3, 15, 4, 11.
pub fn store_on(
    head: Head,
    fits: bool,
    place: &mut [u64; 64],
    ring: &mut [u64; 64],
    order: &mut [u64; 64],
    mem: &mut [u64],
    address: u64,
    width: u64,
    value: u64,
) -> Turn
    requires { (fits ≡ fits_of (record_by head place.old ring.old order.old) (length mem.old)) × (head.tally.on ≢ 0) }
    ensures { yields (turn_in place.new ring.new order.new result) mem.new ≡ store_call (record_by head place.old ring.old order.old) mem.old address width value }
{
    let refusal = request_refusal(fits, head.layout.levels, false, address, width);
    if refusal != 0 {
        return refused_in(head, refusal);
    }
    let at = GuestVirtual(address);
    let held = held_in(head);
    let d = depth::depth(place, head.set, head.layout.levels, at);
    if request::store_plainly(mem, head.layout, held, at, width, d, value) {
        return windowed(
            head,
            Served {
                held: held,
                answer: Answer::Done {
                    references: head.layout.levels,
                    exits: 0,
                },
            },
        );
    }
    store_translated(head, place, ring, order, mem, at, width, d, value)
}

// ---- device stores

// A device stores at a guest-physical address, and drops as a store does: 3, 15, 4, 11.
pub fn device_store_at<'a>(
    head: Head,
    fits: bool,
    place: &'a [u64; 64],
    ring: &'a [u64; 64],
    order: &'a [u64; 64],
    mem: &mut [u64],
    address: u64,
    width: u64,
    value: u64,
) -> Served
    requires { fits ≡ fits_of (record_by head place.now ring.now order.now) (length mem.old) }
    ensures { yields (served_reply (record_by head place.now ring.now order.now) result) mem.new ≡ device_call (record_by head place.now ring.now order.now) mem.old address width value }
{
    let held = held_in(head);
    let refusal = request_refusal(fits, head.layout.levels, true, address, width);
    if refusal != 0 {
        return request::refused(held, refusal);
    }
    request::device_store(mem, space_in(head), held, address, width, value)
}

// ---- forecast

// What loading these addresses one after the other would cost: 3, 16, 14, 11. Nothing is changed, so that record and memory are only lent.
pub fn forecast_at<'a>(
    head: Head,
    fits: bool,
    place: &'a [u64; 64],
    ring: &'a [u64; 64],
    order: &'a [u64; 64],
    mem: &[u64],
    addresses: &[u64],
) -> Answer
    requires { fits ≡ fits_of (record_by head place.now ring.now order.now) (length mem.now) }
    ensures { ended (record_by head place.now ring.now order.now) result mem.now ≡ forecast_call (record_by head place.now ring.now order.now) mem.now addresses.now }
{
    if !fits {
        return Answer::Refused(3);
    }
    if head.layout.bits != 0 {
        return Answer::Refused(16);
    }
    if forecast::MOST < addresses.len() {
        return Answer::Refused(14);
    }
    forecast::forecast(
        mem,
        space_in(head),
        head.root,
        held_in(head),
        place,
        head.set,
        addresses,
    )
}

// ---- root, map, unmap

// Another root; all held paths are dropped, and the window is emptied: 3, 8.
pub fn root_at<'a>(
    head: Head,
    fits: bool,
    place: &'a [u64; 64],
    ring: &'a [u64; 64],
    order: &'a [u64; 64],
    mem: &[u64],
    guest: u64,
) -> Turn
    requires { fits ≡ fits_of (record_by head place.now ring.now order.now) (length mem.now) }
    ensures { yields (turn_reply (record_by head place.now ring.now order.now) result) mem.now ≡ root_call (record_by head place.now ring.now order.now) mem.now guest }
{
    let root = GuestPhysical(guest);
    let tally = head.tally;
    if !fits {
        return refused_in(head, 3);
    }
    if !layout::frame_fits(head.layout, root) {
        return refused_in(head, 8);
    }
    Turn {
        head: with_held(head, held_none())
            .with_root(root)
            .with_tally(tally.emptied()),
        answer: Answer::Ok,
    }
}

// A refusal: its number, with the tables as they were.
fn unmoved(head: Head, number: u64) -> Remapped
    ensures { result ≡ unmoved_by head number }
{
    let host = head.pools.host;
    Remapped {
        host: host,
        held: held_in(head),
        answer: Answer::Refused(number),
    }
}

// After a change of the mapping of a guest frame that left this pool of the host tables: the held paths that used it are dropped.
fn drop_users<'a>(
    head: Head,
    place: &'a [u64; 64],
    ring: &'a [u64; 64],
    order: &'a [u64; 64],
    host: Pool,
    mem: &mut [u64],
    guest: GuestPhysical,
) -> Remapped
    requires { Sound (record_by head place.now ring.now order.now) }
    ensures { yields (remap_reply (record_by head place.now ring.now order.now) result) mem.new ≡ unmapped_of (record_by head place.now ring.now order.now) host mem.old guest.0 }
{
    if guest.0 == head.root.0 {
        return Remapped {
            host: host,
            held: held_none(),
            answer: Answer::Ok,
        };
    }
    let left = drops::drop_mapping(mem, head.layout, head.pools.shadow, guest);
    let pool = left.pool;
    let frame = head.held;
    if !left.ok {
        return unmoved(head, 11);
    }
    Remapped {
        host: host,
        held: Held {
            pool: pool,
            frame: frame,
        },
        answer: Answer::Ok,
    }
}

// What a change of the mapping of a guest frame yields; was: what its host walk came to before.
fn changed<'a>(
    head: Head,
    place: &'a [u64; 64],
    ring: &'a [u64; 64],
    order: &'a [u64; 64],
    change: Change,
    mem: &mut [u64],
    guest: GuestPhysical,
    was: HostWalk,
) -> Remapped
    requires { Sound (record_by head place.now ring.now order.now) }
    ensures { yields (remap_reply (record_by head place.now ring.now order.now) result) mem.new ≡ changed_by (record_by head place.now ring.now order.now) guest.0 was (yields change mem.old) }
{
    let host = change.pool;
    if change.refusal != 0 {
        return unmoved(head, change.refusal);
    }
    match was {
        HostWalk::Found { page, writable } => drop_users(
            head, place, ring, order, host, mem, guest,
        ),
        HostWalk::Absent { reads } => Remapped {
            host: host,
            held: held_in(head),
            answer: Answer::Ok,
        },
        HostWalk::Damaged => unmoved(head, 11),
    }
}

// Maps a guest frame to a host frame, or maps it anew: 3, 8, 9, 10, 11.
pub fn map_at<'a>(
    head: Head,
    fits: bool,
    place: &'a [u64; 64],
    ring: &'a [u64; 64],
    order: &'a [u64; 64],
    mem: &mut [u64],
    number: u64,
    frame: u64,
    writable: bool,
) -> Remapped
    requires { fits ≡ fits_of (record_by head place.now ring.now order.now) (length mem.old) }
    ensures { yields (remap_reply (record_by head place.now ring.now order.now) result) mem.new ≡ map_call (record_by head place.now ring.now order.now) mem.old number frame writable }
{
    let guest = GuestPhysical(number);
    if !fits {
        return unmoved(head, 3);
    }
    let was = host::host_walk(mem, space_in(head), guest);
    let change = host::map(
        mem,
        head.layout,
        head.pools.host,
        guest,
        HostPhysical(frame),
        writable,
    );
    changed(head, place, ring, order, change, mem, guest, was)
}

// Unmaps a guest frame: 3, 8, 12, 11.
pub fn unmap_at<'a>(
    head: Head,
    fits: bool,
    place: &'a [u64; 64],
    ring: &'a [u64; 64],
    order: &'a [u64; 64],
    mem: &mut [u64],
    number: u64,
) -> Remapped
    requires { fits ≡ fits_of (record_by head place.now ring.now order.now) (length mem.old) }
    ensures { yields (remap_reply (record_by head place.now ring.now order.now) result) mem.new ≡ unmap_call (record_by head place.now ring.now order.now) mem.old number }
{
    let guest = GuestPhysical(number);
    if !fits {
        return unmoved(head, 3);
    }
    let was = host::host_walk(mem, space_in(head), guest);
    let change = host::unmap(mem, head.layout, head.pools.host, guest);
    changed(head, place, ring, order, change, mem, guest, was)
}

// ---- marks

// Why a mark is not set, or one is not cleared: its number, or 0.
fn mark_refusal<'a>(
    head: Head,
    place: &'a [u64; 64],
    order: &'a [u64; 64],
    at: GuestVirtual,
    level: u64,
    setting: bool,
) -> u64
    requires { (head.layout.levels < 6) × (head.tally.count ≤ 64) }
    ensures { result ≡ refusal_in setting head.layout.levels head.tally order.now (record { set = head.set; place = place.now }) at.0 level }
{
    if setting {
        choice::set_refusal(
            head.tally,
            order,
            place,
            head.set,
            head.layout.levels,
            at,
            level,
        )
    } else {
        choice::clear_refusal(
            head.tally,
            order,
            place,
            head.set,
            head.layout.levels,
            at,
            level,
        )
    }
}

// The mark is set, or cleared.
fn mark_moves(
    head: Head,
    place: &mut [u64; 64],
    ring: &[u64; 64],
    order: &mut [u64; 64],
    mem: &mut [u64],
    at: GuestVirtual,
    level: u64,
    setting: bool,
) -> Moved
    requires { (Ready (record_by head place.old ring.now order.old)) × (level < 8) }
    ensures { yields (moved_in place.new ring.now order.new result) mem.new ≡ kept_by (record_by head place.old ring.now order.old) (mark_moves setting (record_by head place.old ring.now order.old) mem.old at.0 level) }
{
    if setting {
        automatic::set(head, place, ring, order, mem, at, level)
    } else {
        automatic::clear(head, place, ring, order, mem, at, level)
    }
}

// Sets a mark, or clears one: 3, 4, 5, 6, 7, 11.
pub fn mark_at(
    head: Head,
    fits: bool,
    place: &mut [u64; 64],
    ring: &[u64; 64],
    order: &mut [u64; 64],
    mem: &mut [u64],
    address: u64,
    level: u64,
    setting: bool,
) -> Turn
    requires { fits ≡ fits_of (record_by head place.old ring.now order.old) (length mem.old) }
    ensures { yields (turn_in place.new ring.now order.new result) mem.new ≡ mark_call setting (record_by head place.old ring.now order.old) mem.old address level }
{
    if !fits {
        return refused_in(head, 3);
    }
    let at = GuestVirtual(address);
    let refusal = mark_refusal(head, place, order, at, level, setting);
    if refusal != 0 {
        return refused_in(head, refusal);
    }
    let moved = mark_moves(head, place, ring, order, mem, at, level, setting);
    let next = moved.head;
    if !moved.ok {
        return refused_in(head, 11);
    }
    Turn {
        head: next,
        answer: Answer::Ok,
    }
}
