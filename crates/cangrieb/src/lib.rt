// The unit's calls for C and for Rust. The record is lent in four parts, its head of 20 words, the places of its marks and the two arrays
// of the automatic choice, and the memory beside it; the answer is numbers. Nothing is asked of the caller but that those words are at
// those places.
#![tactic(auto)]

ghost use Rattle.std.specs.Prelude.{◌≡◌, ◌+◌, ◌*◌, ◌^◌, ◌<◌};
ghost use Rattle.words.specs.After.{yields};
ghost use Rattle.calls.specs.Calls.{head_held, head_remapped, open_call, load_call, store_call, device_call, root_call, map_call, unmap_call, set_mark_call, clear_mark_call, forecast_call};
ghost use Rattle.record.specs.Words.{head_in, head_words};
ghost use Rattle.cangrieb.specs.Flat.{head_charged, window_in, record_in, answer_of, flat, reply_of, left_of, lookup_of, no_mark, kind_at, charges_at, legal_of, lowest_of, mark_in};

use calls::Remapped;
use choice::Tally;
use entry::GuestVirtual;
use record::Record;
use spec::{Answer, Lookup};
use translate::Held;

// An answer (specs/Flat has the kinds). The letter is an ASCII code; what a kind does not have is 0.
#[repr(C)]
#[derive(Clone, Copy)]
pub struct FlatAnswer {
    pub kind: u64,
    pub number: u64,
    pub letter: u64,
    pub level: u64,
    pub frame: u64,
    pub references: u64,
    pub exits: u64,
}

// What stands at a place of the marks. kind: 0 nothing, 1 a mark of the operator's, 2 an automatic one. address: the lowest that the mark
// holds for. charges: how many requests of the window were charged to its prefix, for a mark of level 1 with the choice on; else 0, as
// all else where nothing stands.
#[repr(C)]
#[derive(Clone, Copy)]
pub struct FlatMark {
    pub kind: u64,
    pub level: u64,
    pub address: u64,
    pub charges: u64,
}

// ---- the record in numbers

// The words of a head.
fn words_in(head: &[u64; 20]) -> [u64; 20]
    ensures { result ≡ head.now }
{
    *head
}

// What is held takes the place of what was; no other word of the head changes.
fn put_held(head: &mut [u64; 20], held: Held)
    ensures { head.new ≡ head_words (head_held (head_in head.old) held) }
{
    let mut words = words_in(head);
    let pool = held.pool;
    words[9] = pool.fresh;
    words[10] = pool.free;
    words[11] = pool.used;
    words[12] = pool.top;
    words[14] = held.frame.0;
    *head = words;
}

// After a map or an unmap: the host tables, and what is held.
fn put_tables(head: &mut [u64; 20], x: Remapped)
    ensures { head.new ≡ head_words (head_remapped (head_in head.old) x) }
{
    let mut words = words_in(head);
    let host = x.host;
    let pool = x.held.pool;
    words[5] = host.fresh;
    words[6] = host.free;
    words[7] = host.used;
    words[8] = host.top;
    words[9] = pool.fresh;
    words[10] = pool.free;
    words[11] = pool.used;
    words[12] = pool.top;
    words[14] = x.held.frame.0;
    *head = words;
}

// And the word of the requests charged.
fn put_charged(head: &mut [u64; 20], charged: u64)
    ensures { head.new ≡ head_words (head_charged (head_in head.old) charged) }
{
    let mut words = words_in(head);
    words[17] = charged;
    *head = words;
}

// After a load or a store with that answer: what is held, and the request in the window. With the choice off there is no window.
fn put_window(head: &mut [u64; 20], held: Held, answer: Answer)
    ensures { head.new ≡ head_words (window_in (head_in head.old) held answer) }
{
    let tally = record::head_in(head).tally;
    put_held(head, held);
    if tally.on == 0 {
        return;
    }
    let after = calls::tally_after(tally, answer);
    put_charged(head, after.charged);
}

// ---- answers

fn answer_of(a: Answer) -> FlatAnswer
    ensures { result ≡ answer_of a }
{
    match a {
        Answer::Ok => FlatAnswer {
            kind: 0,
            number: 0,
            letter: 0,
            level: 0,
            frame: 0,
            references: 0,
            exits: 0,
        },
        Answer::Value {
            word,
            references,
            exits,
        } => FlatAnswer {
            kind: 1,
            number: word,
            letter: 0,
            level: 0,
            frame: 0,
            references: references,
            exits: exits,
        },
        Answer::Done { references, exits } => FlatAnswer {
            kind: 2,
            number: 0,
            letter: 0,
            level: 0,
            frame: 0,
            references: references,
            exits: exits,
        },
        Answer::Faulted {
            fault,
            references,
            exits,
        } => FlatAnswer {
            kind: 3,
            number: 0,
            letter: spec::letter_of(fault) as u64,
            level: spec::level_of(fault),
            frame: spec::frame_of(fault),
            references: references,
            exits: exits,
        },
        Answer::Refused(n) => FlatAnswer {
            kind: 4,
            number: n,
            letter: 0,
            level: 0,
            frame: 0,
            references: 0,
            exits: 0,
        },
        Answer::Figures {
            references,
            exits,
            tables,
        } => FlatAnswer {
            kind: 5,
            number: tables,
            letter: 0,
            level: 0,
            frame: 0,
            references: references,
            exits: exits,
        },
    }
}

// The record of an opening takes the place of what is lent. It is lent too, so that it is copied once.
fn put_back(
    head: &mut [u64; 20],
    place: &mut [u64; 64],
    ring: &mut [u64; 64],
    order: &mut [u64; 64],
    unit: &Record,
    answer: Answer,
) -> FlatAnswer
    ensures { flat head.new place.new ring.new order.new result ≡ reply_of (record { unit = unit.now; answer = answer }) }
{
    *place = unit.guest.marks.place;
    *ring = unit.guest.choice.ring;
    *order = unit.guest.choice.order;
    *head = record::head_words(unit.head());
    answer_of(answer)
}

// ---- the calls

// Opens the memory, with or without accessed and dirty bits, and the automatic choice of marks: 1, 2.
#[unsafe(no_mangle)]
pub extern "C" fn cangrieb_open(
    head: &mut [u64; 20],
    place: &mut [u64; 64],
    ring: &mut [u64; 64],
    order: &mut [u64; 64],
    mem: &mut [u64],
    hosts: u64,
    shadows: u64,
    bits: bool,
    choice: bool,
) -> FlatAnswer
    ensures { yields (flat head.new place.new ring.new order.new result) mem.new ≡ left_of (open_call mem.old hosts shadows bits choice) }
{
    let opened = opening::open(mem, hosts, shadows, bits, choice);
    let answer = unit::answer_of(opened.refusal);
    put_back(head, place, ring, order, &opened.unit, answer)
}

// Loads so many bytes: 3, 15, 4, 11.
#[unsafe(no_mangle)]
pub extern "C" fn cangrieb_load<'a>(
    head: &mut [u64; 20],
    place: &'a [u64; 64],
    ring: &'a [u64; 64],
    order: &'a [u64; 64],
    mem: &mut [u64],
    address: u64,
    width: u64,
) -> FlatAnswer
    ensures { yields (flat head.new place.now ring.now order.now result) mem.new ≡ left_of (load_call (record_in head.old place.now ring.now order.now) mem.old address width) }
{
    let fits = record::fits(head, place, ring, order, mem.len());
    let h = record::head_in(head);
    let s = calls::load_at(h, fits, place, ring, order, mem, address, width);
    let answer = s.answer;
    let held = s.held;
    put_window(head, held, answer);
    answer_of(answer)
}

// Stores the low bytes of a value; the paths whose shadow part read the word around them are dropped: 3, 15, 4, 11.
#[unsafe(no_mangle)]
pub extern "C" fn cangrieb_store(
    head: &mut [u64; 20],
    place: &mut [u64; 64],
    ring: &mut [u64; 64],
    order: &mut [u64; 64],
    mem: &mut [u64],
    address: u64,
    width: u64,
    value: u64,
) -> FlatAnswer
    ensures { yields (flat head.new place.new ring.new order.new result) mem.new ≡ left_of (store_call (record_in head.old place.old ring.old order.old) mem.old address width value) }
{
    let fits = record::fits(head, place, ring, order, mem.len());
    let h = record::head_in(head);
    if h.tally.on == 0 {
        let s = calls::store_at(h, fits, place, ring, order, mem, address, width, value);
        let answer = s.answer;
        let held = s.held;
        put_held(head, held);
        return answer_of(answer);
    }
    let t = calls::store_on(h, fits, place, ring, order, mem, address, width, value);
    let answer = t.answer;
    let next = t.head;
    *head = record::head_words(next);
    answer_of(answer)
}

// A device stores at a guest-physical address: 3, 15, 4, 11.
#[unsafe(no_mangle)]
pub extern "C" fn cangrieb_device_store<'a>(
    head: &mut [u64; 20],
    place: &'a [u64; 64],
    ring: &'a [u64; 64],
    order: &'a [u64; 64],
    mem: &mut [u64],
    address: u64,
    width: u64,
    value: u64,
) -> FlatAnswer
    ensures { yields (flat head.new place.now ring.now order.now result) mem.new ≡ left_of (device_call (record_in head.old place.now ring.now order.now) mem.old address width value) }
{
    let fits = record::fits(head, place, ring, order, mem.len());
    let h = record::head_in(head);
    let s = calls::device_store_at(h, fits, place, ring, order, mem, address, width, value);
    let answer = s.answer;
    let held = s.held;
    put_held(head, held);
    answer_of(answer)
}

// Another root; all held paths are dropped: 3, 8.
#[unsafe(no_mangle)]
pub extern "C" fn cangrieb_root<'a>(
    head: &mut [u64; 20],
    place: &'a [u64; 64],
    ring: &'a [u64; 64],
    order: &'a [u64; 64],
    mem: &[u64],
    guest: u64,
) -> FlatAnswer
    ensures { yields (flat head.new place.now ring.now order.now result) mem.now ≡ left_of (root_call (record_in head.old place.now ring.now order.now) mem.now guest) }
{
    let fits = record::fits(head, place, ring, order, mem.len());
    let h = record::head_in(head);
    let t = calls::root_at(h, fits, place, ring, order, mem, guest);
    let answer = t.answer;
    let next = t.head;
    *head = record::head_words(next);
    answer_of(answer)
}

// Maps a guest frame to a host frame, or maps it anew: 3, 8, 9, 10, 11.
#[unsafe(no_mangle)]
pub extern "C" fn cangrieb_map<'a>(
    head: &mut [u64; 20],
    place: &'a [u64; 64],
    ring: &'a [u64; 64],
    order: &'a [u64; 64],
    mem: &mut [u64],
    guest: u64,
    frame: u64,
    writable: bool,
) -> FlatAnswer
    ensures { yields (flat head.new place.now ring.now order.now result) mem.new ≡ left_of (map_call (record_in head.old place.now ring.now order.now) mem.old guest frame writable) }
{
    let fits = record::fits(head, place, ring, order, mem.len());
    let h = record::head_in(head);
    let x = calls::map_at(h, fits, place, ring, order, mem, guest, frame, writable);
    let answer = x.answer;
    put_tables(head, x);
    answer_of(answer)
}

// Unmaps a guest frame: 3, 8, 12, 11.
#[unsafe(no_mangle)]
pub extern "C" fn cangrieb_unmap<'a>(
    head: &mut [u64; 20],
    place: &'a [u64; 64],
    ring: &'a [u64; 64],
    order: &'a [u64; 64],
    mem: &mut [u64],
    guest: u64,
) -> FlatAnswer
    ensures { yields (flat head.new place.now ring.now order.now result) mem.new ≡ left_of (unmap_call (record_in head.old place.now ring.now order.now) mem.old guest) }
{
    let fits = record::fits(head, place, ring, order, mem.len());
    let h = record::head_in(head);
    let x = calls::unmap_at(h, fits, place, ring, order, mem, guest);
    let answer = x.answer;
    put_tables(head, x);
    answer_of(answer)
}

// Sets a mark: 3, 4, 5, 6, 7, 11.
#[unsafe(no_mangle)]
pub extern "C" fn cangrieb_set_mark(
    head: &mut [u64; 20],
    place: &mut [u64; 64],
    ring: &mut [u64; 64],
    order: &mut [u64; 64],
    mem: &mut [u64],
    address: u64,
    level: u64,
) -> FlatAnswer
    ensures { yields (flat head.new place.new ring.new order.new result) mem.new ≡ left_of (set_mark_call (record_in head.old place.old ring.old order.old) mem.old address level) }
{
    let fits = record::fits(head, place, ring, order, mem.len());
    let h = record::head_in(head);
    let t = calls::mark_at(h, fits, place, ring, order, mem, address, level, true);
    let answer = t.answer;
    let next = t.head;
    *head = record::head_words(next);
    answer_of(answer)
}

// Clears a mark: 3, 4, 5, 6, 11.
#[unsafe(no_mangle)]
pub extern "C" fn cangrieb_clear_mark(
    head: &mut [u64; 20],
    place: &mut [u64; 64],
    ring: &mut [u64; 64],
    order: &mut [u64; 64],
    mem: &mut [u64],
    address: u64,
    level: u64,
) -> FlatAnswer
    ensures { yields (flat head.new place.new ring.new order.new result) mem.new ≡ left_of (clear_mark_call (record_in head.old place.old ring.old order.old) mem.old address level) }
{
    let fits = record::fits(head, place, ring, order, mem.len());
    let h = record::head_in(head);
    let t = calls::mark_at(h, fits, place, ring, order, mem, address, level, false);
    let answer = t.answer;
    let next = t.head;
    *head = record::head_words(next);
    answer_of(answer)
}

// What loading these addresses one after the other would cost: 3, 16, 14, 11. Record and memory are lent to be read.
#[unsafe(no_mangle)]
pub extern "C" fn cangrieb_forecast<'a>(
    head: &'a [u64; 20],
    place: &'a [u64; 64],
    ring: &'a [u64; 64],
    order: &'a [u64; 64],
    mem: &[u64],
    addresses: &[u64],
) -> FlatAnswer
    ensures { result ≡ answer_of (forecast_call (record_in head.now place.now ring.now order.now) mem.now addresses.now).result.answer }
{
    let fits = record::fits(head, place, ring, order, mem.len());
    let h = record::head_in(head);
    answer_of(calls::forecast_at(h, fits, place, ring, order, mem, addresses))
}

// ---- the record's own methods

// The depth of an address, and how many marks were read for it. It judges neither the record nor the address, and is no call of a run.
#[unsafe(no_mangle)]
pub extern "C" fn cangrieb_depth(head: &[u64; 20], place: &[u64; 64], address: u64) -> Lookup
    ensures { result ≡ lookup_of (head_in head.now) place.now address }
{
    let h = record::head_in(head);
    depth::lookup(place, h.set, h.layout.levels, GuestVirtual(address))
}

fn no_mark() -> FlatMark
    ensures { result ≡ no_mark }
{
    FlatMark {
        kind: 0,
        level: 0,
        address: 0,
        charges: 0,
    }
}

// Whose mark stands at a place.
fn kind_at(order: &[u64; 64], count: u64, at: u64) -> u64
    ensures { result ≡ kind_at count order.now at }
{
    if 64 < count {
        return 1;
    }
    if choice::automatic_at(order, count, at) {
        2
    } else {
        1
    }
}

// The charges of a mark, by its key.
fn charges_of(ring: &[u64; 64], t: Tally, levels: u64, key: u64) -> u64
    ensures { result ≡ charges_at levels ring.now t key }
{
    if key % 8 != 1 {
        return 0;
    }
    if t.on == 0 {
        return 0;
    }
    if levels >= 6 {
        return 0;
    }
    choice::charges(ring, t, levels, key / 8)
}

// An address by its low bits: every bit above them is as the highest of them.
fn legal(levels: u64, low: u64) -> u64
    requires { (levels < 6) × (low < 2 ^ (12 + 9 * levels)) }
    ensures { result ≡ legal_of levels low }
{
    if low < bits::power(11 + 9 * levels) {
        return low;
    }
    let above = 0xFFFF_FFFF_FFFF_FFFF - (bits::power(12 + 9 * levels) - 1);
    above + low
}

// The lowest address that a mark holds for, by its key.
fn lowest_address(levels: u64, key: u64) -> u64
    ensures { result ≡ lowest_of levels key }
{
    let level = key % 8;
    if levels >= 6 {
        return 0;
    }
    if level >= levels {
        return 0;
    }
    let prefix = (key / 8) % bits::power(9 * (levels - level));
    legal(levels, prefix * bits::power(12 + 9 * level))
}

// What stands at a place of the marks: nothing, a mark of the operator's, or an automatic one. It judges no record, and is no call of a run.
#[unsafe(no_mangle)]
pub extern "C" fn cangrieb_mark<'a>(
    head: &[u64; 20],
    place: &'a [u64; 64],
    ring: &'a [u64; 64],
    order: &'a [u64; 64],
    at: u64,
) -> FlatMark
    ensures { result ≡ mark_in (record_in head.now place.now ring.now order.now) at }
{
    let h = record::head_in(head);
    let tally = h.tally;
    if at >= 64 {
        return no_mark();
    }
    if (h.set >> at) % 2 != 1 {
        return no_mark();
    }
    let key = place[at as usize];
    FlatMark {
        kind: kind_at(order, tally.count, at),
        level: key % 8,
        address: lowest_address(h.layout.levels, key),
        charges: charges_of(ring, tally, h.layout.levels, key),
    }
}
