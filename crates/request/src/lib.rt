// Load, store and device store: from an address and its depth to the bytes read or written, and the held paths that a store drops.
#![tactic(auto)]

ghost use Rattle.std.specs.Prelude.{◌≡◌, true, false, not, eqb, ◌<◌, ◌≤◌};
ghost use Rattle.spec.specs.Bytes.{bytes_at, with_bytes};
ghost use Rattle.spec.specs.Entry.{word_of, frame_limit};
ghost use Rattle.words.specs.After.{yields};
ghost use Rattle.words.specs.Words.{word_in};
ghost use Rattle.layout.specs.Layout.{LayoutFits, config};
ghost use Rattle.layout.specs.declared.HostWalk.TheVariants as host;
ghost use Rattle.shadow.specs.Watch.{watched_of};
ghost use Rattle.translate.specs.Translate.{HeldFits, translation, translate_of, turned_depth, depth_of};
ghost use Rattle.request.specs.Access.{Inside, ReachesFrame, set_by, bits_of, settled_of, dropped_of, bytes_in, path_held_of, Unserved, load_by, load_from, load_of, finish_by, written_by, store_by, store_from, store_of, plainly_of, device_of};

use entry::{GuestPhysical, GuestVirtual, HostPhysical};
use host::Space;
use layout::{HostWalk, Layout};
use pool::Pool;
use spec::Answer;
use translate::{Held, Request, Translated};
use walk::Walked;

// What a request leaves: what is held then, and its answer.
#[derive(Clone, Copy)]
pub struct Served {
    pub held: Held,
    pub answer: Answer,
}

// ---- the bytes

// The word of its page around an address.
pub fn word_of(address: u64) -> u64
    ensures { (result ≡ word_of address) × (result < 512) }
{
    address % 4096 / 8
}

// The bytes of a page that a load at that address yields.
fn read_bytes(mem: &[u64], page: HostPhysical, address: u64, width: u64) -> u64
    requires { (page.0 < frame_limit) × (Inside address width) }
    ensures { result ≡ bytes_at address width (word_in mem.now page.0 (word_of address)) }
{
    let word = words::word_in(mem, page.0, word_of(address));
    words::part(word, 8 * width, 8 * (address % 8))
}

// What a store to a word leaves; not ok: damaged tables were met, and no guest word is changed.
#[derive(Clone, Copy)]
pub struct Put {
    pub pool: Pool,
    pub exits: u64,
    pub ok: bool,
}

// The word around the bytes of a page at that address, once they are those of the value. Of a whole word nothing stays, so it is not
// read.
fn with_bytes(mem: &[u64], page: HostPhysical, address: u64, width: u64, value: u64) -> u64
    requires { (page.0 < frame_limit) × (Inside address width) }
    ensures { result ≡ with_bytes address width value (word_in mem.now page.0 (word_of address)) }
{
    if width == 8 {
        return value;
    }
    let word = words::word_in(mem, page.0, word_of(address));
    words::with_part(word, 8 * width, 8 * (address % 8), value)
}

// The bytes of a page at that address get the low bytes of the value.
pub fn put_bytes(mem: &mut [u64], page: HostPhysical, address: u64, width: u64, value: u64)
    requires { (page.0 < frame_limit) × (Inside address width) }
    ensures { mem.new ≡ bytes_in mem.old page.0 address width value }
{
    let word = with_bytes(mem, page, address, width, value);
    words::set_in(mem, page.0, word_of(address), word);
}

// Before the word around an address of a watched page is stored to: the held paths whose shadow part read it are dropped. The word is
// written afterwards, so that damage met here has changed no guest word.
fn drop_watched(
    mem: &mut [u64],
    layout: Layout,
    pool: Pool,
    page: HostPhysical,
    address: u64,
) -> Put
    requires { (LayoutFits layout) × (pool.fresh ≤ layout.shadows) × (page.0 < frame_limit) × (watched_of (config layout) mem.old pool.fresh page.0 ≡ true) }
    ensures { yields result mem.new ≡ dropped_of (config layout) mem.old pool page.0 (word_of address) }
{
    let left = drops::drop_word(mem, layout, pool, page, word_of(address));
    let after = left.pool;
    if left.ok {
        return Put {
            pool: after,
            exits: 1,
            ok: true,
        };
    }
    Put {
        pool: pool,
        exits: 0,
        ok: false,
    }
}

// The same of any page: one that is not watched has no such word.
pub fn drop_readers(
    mem: &mut [u64],
    layout: Layout,
    pool: Pool,
    page: HostPhysical,
    address: u64,
) -> Put
    requires { (LayoutFits layout) × (pool.fresh ≤ layout.shadows) × (page.0 < frame_limit) }
    ensures { yields result mem.new ≡ dropped_of (config layout) mem.old pool page.0 (word_of address) }
{
    if shadow::watched(mem, layout, pool.fresh, page) {
        return drop_watched(mem, layout, pool, page, address);
    }
    Put {
        pool: pool,
        exits: 0,
        ok: true,
    }
}

// ---- the bits

// The accessed and dirty bits of a request's whole walk are set.
fn set_own(mem: &mut [u64], space: Space, root: GuestPhysical, store: bool, address: GuestVirtual)
    requires { LayoutFits space.layout }
    ensures { mem.new ≡ bits_of (config space.layout) space.top mem.old root.0 store address.0 }
{
    let trail = translate::whole(mem, space, store, root, address);
    let walked = trail.walked;
    match walked {
        Walked::Arrived {
            page,
            writable,
            reads,
        } => {
            let read = accessed::read_by(
                space.layout,
                address.page(),
                space.layout.levels,
                &trail.tables,
            );
            accessed::set_bits(mem, store, read.path, read.steps, &trail.tables);
        }
        Walked::Faulted { fault, reads } => {}
        Walked::Damaged => {}
    }
}

// They are set if they are to be.
pub fn settle_own(
    mem: &mut [u64],
    space: Space,
    root: GuestPhysical,
    address: GuestVirtual,
    sets: bool,
)
    requires { LayoutFits space.layout }
    ensures { mem.new ≡ settled_of (config space.layout) space.top root.0 true address.0 sets mem.old }
{
    if !sets {
        return;
    }
    set_own(mem, space, root, true, address);
}

// They are set if they are to be and the request came to its word.
fn settle(
    mem: &mut [u64],
    space: Space,
    root: GuestPhysical,
    store: bool,
    address: GuestVirtual,
    walked: Walked,
    sets: bool,
)
    requires { LayoutFits space.layout }
    ensures { mem.new ≡ set_by walked (settled_of (config space.layout) space.top root.0 store address.0 sets mem.old) mem.old }
{
    if !sets {
        return;
    }
    match walked {
        Walked::Arrived {
            page,
            writable,
            reads,
        } => {
            set_own(mem, space, root, store, address);
        }
        Walked::Faulted { fault, reads } => {}
        Walked::Damaged => {}
    }
}

// ---- requests

// A refused request: what was held, and the number.
pub fn refused(held: Held, number: u64) -> Served
    ensures { result ≡ record { held = held; answer = Answer.Refused number } }
{
    Served {
        held: held,
        answer: Answer::Refused(number),
    }
}

// Where the path held for an address at that depth leads, if it serves the request. Most requests are such: nothing that is held changes.
fn path_held(
    mem: &[u64],
    layout: Layout,
    held: Held,
    store: bool,
    address: GuestVirtual,
    depth: u64,
) -> HostWalk
    requires { LayoutFits layout }
    ensures { result ≡ path_held_of (config layout) mem.now held store address.0 depth }
{
    match translate::found(mem, layout, held, address, depth) {
        HostWalk::Found { page, writable } => {
            if translate::serves(store, depth, writable) {
                return HostWalk::Found {
                    page: page,
                    writable: writable,
                };
            }
            HostWalk::Absent { reads: 0 }
        }
        HostWalk::Absent { reads } => HostWalk::Absent { reads: reads },
        HostWalk::Damaged => HostWalk::Damaged,
    }
}

// Does the walk of a request, whose marks give that depth, come into a large page above the marked levels?
fn is_turned(
    mem: &[u64],
    space: Space,
    root: GuestPhysical,
    address: GuestVirtual,
    depth: u64,
) -> bool
    requires { LayoutFits space.layout }
    ensures { result ≡ not (eqb (turned_depth (config space.layout) space.top mem.now root.0 address.0 depth) depth) }
{
    if translate::may_turn(depth) {
        return translate::walked_depth(mem, space, root, address, depth) != depth;
    }
    false
}

// A load's or a store's translation at depth 0, of a large page that lies above the marked levels.
fn reached_large(
    mem: &mut [u64],
    space: Space,
    root: GuestPhysical,
    held: Held,
    store: bool,
    address: GuestVirtual,
) -> Translated
    requires { (LayoutFits space.layout) × (HeldFits (config space.layout) held) }
    ensures { yields result mem.new ≡ translate_of (config space.layout) space.top mem.old held root.0 store address.0 0 }
{
    let request = Request {
        store: store,
        address: address,
        depth: 0,
    };
    match path_held(mem, space.layout, held, store, address, 0) {
        HostWalk::Found { page, writable } => translate::through(
            mem, space, root, held, request, page, writable,
        ),
        HostWalk::Absent { reads } => translate::unserved(mem, space, root, held, request),
        HostWalk::Damaged => translate::damaged(held),
    }
}

// A load's or a store's translation, by the path held for it or without one; the request's depth is the one that its marks give.
pub fn reached(
    mem: &mut [u64],
    space: Space,
    root: GuestPhysical,
    held: Held,
    request: Request,
) -> Translated
    requires { (LayoutFits space.layout) × (HeldFits (config space.layout) held) × (2 ≤ space.layout.levels) }
    ensures { yields result mem.new ≡ translate_of (config space.layout) space.top mem.old held root.0 request.store request.address.0 (depth_of (config space.layout) space.top mem.old held root.0 request.address.0 request.depth) }
{
    let store = request.store;
    let address = request.address;
    let depth = request.depth;
    if depth <= space.layout.levels {
        match path_held(mem, space.layout, held, store, address, depth) {
            HostWalk::Found { page, writable } => {
                return translate::through(mem, space, root, held, request, page, writable);
            }
            HostWalk::Absent { reads } => {
                if is_turned(mem, space, root, address, depth) {
                    return reached_large(mem, space, root, held, store, address);
                }
            }
            HostWalk::Damaged => {
                if translate::may_turn(depth) {
                    return reached_large(mem, space, root, held, store, address);
                }
                return translate::damaged(held);
            }
        }
    }
    translate::unserved(mem, space, root, held, request)
}

// What a load says that came so far, its bits set; before: what was held when it came.
fn loaded(
    mem: &[u64],
    before: Held,
    held: Held,
    walked: Walked,
    exits: u64,
    address: u64,
    width: u64,
) -> Served
    requires { (ReachesFrame walked) × (Inside address width) }
    ensures { yields result mem.now ≡ load_by before address width (λ m. m) (yields (translation held exits walked false) mem.now) walked }
{
    match walked {
        Walked::Arrived {
            page,
            writable,
            reads,
        } => Served {
            held: held,
            answer: Answer::Value {
                word: read_bytes(mem, page, address, width),
                references: reads,
                exits: exits,
            },
        },
        Walked::Faulted { fault, reads } => Served {
            held: held,
            answer: Answer::Faulted {
                fault: fault,
                references: reads,
                exits: exits,
            },
        },
        Walked::Damaged => refused(before, 11),
    }
}

// The same of one that may have bits to set, by its translation.
fn load_by(
    mem: &mut [u64],
    space: Space,
    root: GuestPhysical,
    before: Held,
    t: Translated,
    address: GuestVirtual,
    width: u64,
) -> Served
    requires { (LayoutFits space.layout) × (ReachesFrame t.walked) × (Inside address.0 width) }
    ensures { yields result mem.new ≡ load_from (config space.layout) space.top root.0 before address.0 width (yields t mem.old) }
{
    let walked = t.walked;
    let held = t.held;
    settle(mem, space, root, false, address, walked, t.sets);
    loaded(mem, before, held, walked, t.exits, address.0, width)
}

// A load that no held path serves.
fn load_unserved(
    mem: &mut [u64],
    space: Space,
    root: GuestPhysical,
    held: Held,
    address: GuestVirtual,
    width: u64,
    depth: u64,
) -> Served
    requires { (LayoutFits space.layout) × (HeldFits (config space.layout) held) × (Inside address.0 width) × (Unserved (config space.layout) space.top mem.old held root.0 false address.0 depth) }
    ensures { yields result mem.new ≡ load_of (config space.layout) space.top mem.old held root.0 address.0 width depth }
{
    let request = Request {
        store: false,
        address: address,
        depth: depth,
    };
    let t = translate::unserved(mem, space, root, held, request);
    load_by(mem, space, root, held, t, address, width)
}

// A load whose held path leads to a page, or to a guest table in that frame.
fn load_through(
    mem: &mut [u64],
    space: Space,
    root: GuestPhysical,
    held: Held,
    address: GuestVirtual,
    width: u64,
    depth: u64,
    page: HostPhysical,
    writable: bool,
) -> Served
    requires { (LayoutFits space.layout) × (HeldFits (config space.layout) held) × (Inside address.0 width) × (depth ≤ space.layout.levels) × (path_held_of (config space.layout) mem.old held false address.0 depth ≡ host.Found page writable) }
    ensures { yields result mem.new ≡ load_of (config space.layout) space.top mem.old held root.0 address.0 width depth }
{
    let request = Request {
        store: false,
        address: address,
        depth: depth,
    };
    if translate::bitless(space.layout, depth) {
        let walked = translate::direct(mem, space, request, page, writable);
        let exits = translate::exit_of(walked);
        return loaded(mem, held, held, walked, exits, address.0, width);
    }
    // As translate::through, but that nothing is handed on by way of memory: most loads with bits lack none.
    let trail = translate::direct_trail(mem, space, request, page, writable);
    let walked = trail.walked;
    if !translate::lacking(
        mem,
        space.layout,
        false,
        address,
        depth,
        walked,
        &trail.tables,
    ) {
        let exits = translate::exit_of(walked);
        return loaded(mem, held, held, walked, exits, address.0, width);
    }
    let t = translate::judged(mem, space, root, held, request, walked);
    load_by(mem, space, root, held, t, address, width)
}

// A load of depth 0 whose held path leads to that page.
fn load_page(
    mem: &mut [u64],
    space: Space,
    root: GuestPhysical,
    held: Held,
    address: GuestVirtual,
    width: u64,
    page: HostPhysical,
    writable: bool,
) -> Served
    requires { (LayoutFits space.layout) × (HeldFits (config space.layout) held) × (Inside address.0 width) × (path_held_of (config space.layout) mem.old held false address.0 0 ≡ host.Found page writable) }
    ensures { yields result mem.new ≡ load_of (config space.layout) space.top mem.old held root.0 address.0 width 0 }
{
    Served {
        held: held,
        answer: Answer::Value {
            word: read_bytes(mem, page, address.0, width),
            references: space.layout.levels,
            exits: 0,
        },
    }
}

// Any load, by its translation; the marks give the depth.
fn load_translated(
    mem: &mut [u64],
    space: Space,
    root: GuestPhysical,
    held: Held,
    address: GuestVirtual,
    width: u64,
    depth: u64,
) -> Served
    requires { (LayoutFits space.layout) × (HeldFits (config space.layout) held) × (Inside address.0 width) × (2 ≤ space.layout.levels) }
    ensures { yields result mem.new ≡ load_of (config space.layout) space.top mem.old held root.0 address.0 width (depth_of (config space.layout) space.top mem.old held root.0 address.0 depth) }
{
    let request = Request {
        store: false,
        address: address,
        depth: depth,
    };
    let t = reached(mem, space, root, held, request);
    load_by(mem, space, root, held, t, address, width)
}

// A load whose marks give that depth: 11. Most are held, and what is held at the marks' depth says that no large page lies above it: they are
// told here. Where one may, and for damage, the translation is asked in full.
pub fn load(
    mem: &mut [u64],
    space: Space,
    root: GuestPhysical,
    held: Held,
    address: GuestVirtual,
    width: u64,
    depth: u64,
) -> Served
    requires { (LayoutFits space.layout) × (HeldFits (config space.layout) held) × (Inside address.0 width) × (2 ≤ space.layout.levels) }
    ensures { yields result mem.new ≡ load_of (config space.layout) space.top mem.old held root.0 address.0 width (depth_of (config space.layout) space.top mem.old held root.0 address.0 depth) }
{
    if space.layout.levels < depth {
        return load_unserved(mem, space, root, held, address, width, depth);
    }
    match path_held(mem, space.layout, held, false, address, depth) {
        HostWalk::Found { page, writable } => {
            if depth == 0 {
                return load_page(mem, space, root, held, address, width, page, writable);
            }
            return load_through(
                mem, space, root, held, address, width, depth, page, writable,
            );
        }
        HostWalk::Absent { reads } => {
            if !translate::may_turn(depth) {
                return load_unserved(mem, space, root, held, address, width, depth);
            }
        }
        HostWalk::Damaged => {}
    }
    load_translated(mem, space, root, held, address, width, depth)
}

// The bytes of a granted store are written, and what it says; put: what its drops left.
fn finish(
    mem: &mut [u64],
    held: Held,
    put: Put,
    page: HostPhysical,
    address: u64,
    width: u64,
    value: u64,
    references: u64,
    exits: u64,
) -> Served
    requires { (page.0 < frame_limit) × (Inside address width) × (exits ≤ 65536) × (put.exits ≤ 65536) }
    ensures { yields result mem.new ≡ finish_by held references exits page.0 address width value put mem.old }
{
    put_bytes(mem, page, address, width, value);
    let pool = put.pool;
    let frame = held.frame;
    Served {
        held: Held {
            pool: pool,
            frame: frame,
        },
        answer: Answer::Done {
            references: references,
            exits: exits + put.exits,
        },
    }
}

// A granted store with no bit to set: the paths that read its word are dropped, then its bytes are written. Most pages are not watched, and
// what is held stays.
fn written(
    mem: &mut [u64],
    layout: Layout,
    held: Held,
    page: HostPhysical,
    address: u64,
    width: u64,
    value: u64,
    references: u64,
    exits: u64,
) -> Served
    requires { (LayoutFits layout) × (held.pool.fresh ≤ layout.shadows) × (page.0 < frame_limit) × (Inside address width) × (exits ≤ 65536) }
    ensures { yields result mem.new ≡ written_by held held references exits page.0 address width value (λ m. m) (dropped_of (config layout) mem.old held.pool page.0 (word_of address)) }
{
    if !shadow::watched(mem, layout, held.pool.fresh, page) {
        put_bytes(mem, page, address, width, value);
        return Served {
            held: held,
            answer: Answer::Done {
                references: references,
                exits: exits,
            },
        };
    }
    let put = drop_watched(mem, layout, held.pool, page, address);
    if !put.ok {
        return refused(held, 11);
    }
    finish(
        mem, held, put, page, address, width, value, references, exits,
    )
}

// What a store does that came so far, with no bit to set.
fn stored(
    mem: &mut [u64],
    layout: Layout,
    held: Held,
    walked: Walked,
    exits: u64,
    address: u64,
    width: u64,
    value: u64,
) -> Served
    requires { (LayoutFits layout) × (held.pool.fresh ≤ layout.shadows) × (ReachesFrame walked) × (Inside address width) × (exits ≤ 65536) }
    ensures { yields result mem.new ≡ store_by (config layout) held address width value (λ m. m) (yields (translation held exits walked false) mem.old) walked }
{
    match walked {
        Walked::Arrived {
            page,
            writable,
            reads,
        } => written(mem, layout, held, page, address, width, value, reads, exits),
        Walked::Faulted { fault, reads } => Served {
            held: held,
            answer: Answer::Faulted {
                fault: fault,
                references: reads,
                exits: exits,
            },
        },
        Walked::Damaged => refused(held, 11),
    }
}

// The same of one that may have bits to set: after the drops, which may meet damage, and before its bytes.
pub fn stored_by_bits(
    mem: &mut [u64],
    space: Space,
    root: GuestPhysical,
    before: Held,
    t: Translated,
    address: GuestVirtual,
    width: u64,
    value: u64,
) -> Served
    requires { (LayoutFits space.layout) × (t.held.pool.fresh ≤ space.layout.shadows) × (ReachesFrame t.walked) × (Inside address.0 width) × (t.exits ≤ 65536) }
    ensures { yields result mem.new ≡ store_from (config space.layout) space.top root.0 before address.0 width value (yields t mem.old) }
{
    let walked = t.walked;
    let held = t.held;
    match walked {
        Walked::Arrived {
            page,
            writable,
            reads,
        } => {
            let put = drop_readers(mem, space.layout, held.pool, page, address.0);
            if !put.ok {
                return refused(before, 11);
            }
            settle(mem, space, root, true, address, walked, t.sets);
            finish(
                mem, held, put, page, address.0, width, value, reads, t.exits,
            )
        }
        Walked::Faulted { fault, reads } => Served {
            held: held,
            answer: Answer::Faulted {
                fault: fault,
                references: reads,
                exits: t.exits,
            },
        },
        Walked::Damaged => refused(before, 11),
    }
}

// A store of depth 0 through a held path into a frame that is not watched, as most are: no path goes, and its bytes are written. Whether
// it is one; if not, nothing is done.
pub fn store_plainly(
    mem: &mut [u64],
    layout: Layout,
    held: Held,
    address: GuestVirtual,
    width: u64,
    depth: u64,
    value: u64,
) -> bool
    requires { (LayoutFits layout) × (HeldFits (config layout) held) × (Inside address.0 width) }
    ensures { yields result mem.new ≡ plainly_of (config layout) mem.old held address.0 width depth value }
{
    if depth != 0 {
        return false;
    }
    match path_held(mem, layout, held, true, address, depth) {
        HostWalk::Found { page, writable } => {
            if shadow::watched(mem, layout, held.pool.fresh, page) {
                return false;
            }
            put_bytes(mem, page, address.0, width, value);
            true
        }
        HostWalk::Absent { reads } => false,
        HostWalk::Damaged => false,
    }
}

// A store whose held path leads to a page, or to a guest table in that frame.
fn store_through(
    mem: &mut [u64],
    space: Space,
    root: GuestPhysical,
    held: Held,
    address: GuestVirtual,
    width: u64,
    depth: u64,
    value: u64,
    page: HostPhysical,
    writable: bool,
) -> Served
    requires { (LayoutFits space.layout) × (HeldFits (config space.layout) held) × (Inside address.0 width) × (depth ≤ space.layout.levels) × (path_held_of (config space.layout) mem.old held true address.0 depth ≡ host.Found page writable) }
    ensures { yields result mem.new ≡ store_of (config space.layout) space.top mem.old held root.0 address.0 width depth value }
{
    let request = Request {
        store: true,
        address: address,
        depth: depth,
    };
    if translate::bitless(space.layout, depth) {
        let walked = translate::direct(mem, space, request, page, writable);
        let exits = translate::exit_of(walked);
        return stored(
            mem,
            space.layout,
            held,
            walked,
            exits,
            address.0,
            width,
            value,
        );
    }
    let t = translate::through(mem, space, root, held, request, page, writable);
    stored_by_bits(mem, space, root, held, t, address, width, value)
}

// Any store, by its translation; the paths whose shadow part read the word around its bytes are dropped: 11.
fn store_translated(
    mem: &mut [u64],
    space: Space,
    root: GuestPhysical,
    held: Held,
    address: GuestVirtual,
    width: u64,
    depth: u64,
    value: u64,
) -> Served
    requires { (LayoutFits space.layout) × (HeldFits (config space.layout) held) × (Inside address.0 width) × (2 ≤ space.layout.levels) }
    ensures { yields result mem.new ≡ store_of (config space.layout) space.top mem.old held root.0 address.0 width (depth_of (config space.layout) space.top mem.old held root.0 address.0 depth) value }
{
    if depth <= space.layout.levels {
        match path_held(mem, space.layout, held, true, address, depth) {
            HostWalk::Found { page, writable } => {
                return store_through(
                    mem, space, root, held, address, width, depth, value, page, writable,
                );
            }
            HostWalk::Absent { reads } => {}
            HostWalk::Damaged => {}
        }
    }
    let request = Request {
        store: true,
        address: address,
        depth: depth,
    };
    let t = reached(mem, space, root, held, request);
    stored_by_bits(mem, space, root, held, t, address, width, value)
}

// A store whose marks give that depth, the common case first: 11.
pub fn store(
    mem: &mut [u64],
    space: Space,
    root: GuestPhysical,
    held: Held,
    address: GuestVirtual,
    width: u64,
    depth: u64,
    value: u64,
) -> Served
    requires { (LayoutFits space.layout) × (HeldFits (config space.layout) held) × (Inside address.0 width) × (2 ≤ space.layout.levels) }
    ensures { yields result mem.new ≡ store_of (config space.layout) space.top mem.old held root.0 address.0 width (depth_of (config space.layout) space.top mem.old held root.0 address.0 depth) value }
{
    if store_plainly(mem, space.layout, held, address, width, depth, value) {
        return Served {
            held: held,
            answer: Answer::Done {
                references: space.layout.levels,
                exits: 0,
            },
        };
    }
    store_translated(mem, space, root, held, address, width, depth, value)
}

// A device's store at a guest-physical address: its host walk, then the bytes as for a store; no bits: 11.
pub fn device_store(
    mem: &mut [u64],
    space: Space,
    held: Held,
    address: u64,
    width: u64,
    value: u64,
) -> Served
    requires { (LayoutFits space.layout) × (held.pool.fresh ≤ space.layout.shadows) × (Inside address width) }
    ensures { yields result mem.new ≡ device_of (config space.layout) space.top mem.old held address width value }
{
    let walked = walk::to_page(mem, space, true, GuestPhysical(address / 4096), true, 0);
    match walked {
        Walked::Arrived {
            page,
            writable,
            reads,
        } => written(
            mem,
            space.layout,
            held,
            page,
            address,
            width,
            value,
            reads,
            0,
        ),
        Walked::Faulted { fault, reads } => Served {
            held: held,
            answer: Answer::Faulted {
                fault: fault,
                references: reads,
                exits: translate::exit_of(walked),
            },
        },
        Walked::Damaged => refused(held, 11),
    }
}
