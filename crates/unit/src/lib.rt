// The unit's ten calls by value: record and memory in, record and answer out. Each is a line or two over the call in parts.
#![tactic(auto)]

ghost use Rattle.std.specs.Prelude.{◌≡◌};
ghost use Rattle.words.specs.After.{yields};
ghost use Rattle.calls.specs.Calls.{Promises, served_reply, windowed_reply, turn_reply, turn_in, remap_reply, answer_of, open_call, load_call, store_call, device_call, root_call, map_call, unmap_call, mark_call, set_mark_call, clear_mark_call, forecast_call};

use calls::{Remapped, Reply, Turn};
use choice::Choice;
use marks::Marks;
use record::{Pools, Record};
use request::Served;
use spec::Answer;

// ---- replies

// The reply of a call that was served.
fn served(unit: Record, s: Served) -> Reply
    ensures { result ≡ served_reply unit s }
{
    let held = s.held;
    let answer = s.answer;
    let head = calls::with_held(unit.head(), held);
    Reply {
        unit: unit.with_head(head),
        answer: answer,
    }
}

// The reply of a load or a store that was served, and charged to nobody: it is in the window.
fn windowed(unit: Record, s: Served) -> Reply
    ensures { result ≡ windowed_reply unit s }
{
    let held = s.held;
    let answer = s.answer;
    let tally = calls::tally_after(unit.guest.choice.tally, answer);
    let head = calls::with_held(unit.head(), held).with_tally(tally);
    Reply {
        unit: unit.with_head(head),
        answer: answer,
    }
}

// The reply of a call that may have changed the whole head.
fn turned(unit: Record, turn: Turn) -> Reply
    ensures { result ≡ turn_reply unit turn }
{
    let head = turn.head;
    let answer = turn.answer;
    Reply {
        unit: unit.with_head(head),
        answer: answer,
    }
}

// The reply of a map or an unmap.
fn remapping(unit: Record, x: Remapped) -> Reply
    ensures { result ≡ remap_reply unit x }
{
    let host = x.host;
    let shadow = x.held.pool;
    let frame = x.held.frame;
    let answer = x.answer;
    let head = unit.head().with_tables(
        Pools {
            host: host,
            shadow: shadow,
        },
        frame,
    );
    Reply {
        unit: unit.with_head(head),
        answer: answer,
    }
}

// The reply of a call that may have changed the whole record; its arrays are these now.
fn replaced(unit: Record, turn: Turn, place: [u64; 64], ring: [u64; 64], order: [u64; 64]) -> Reply
    ensures { result ≡ turn_in place ring order turn }
{
    let head = turn.head;
    let answer = turn.answer;
    let tally = head.tally;
    let marks = Marks {
        set: head.set,
        place: place,
    };
    let choice = Choice {
        tally: tally,
        ring: ring,
        order: order,
    };
    Reply {
        unit: unit.with_marks(marks, choice).with_head(head),
        answer: answer,
    }
}

// ---- opening

// The answer of a call that yields no number: ok, or the refusal whose number it is.
pub fn answer_of(refusal: u64) -> Answer
    ensures { result ≡ answer_of refusal }
{
    if refusal == 0 {
        Answer::Ok
    } else {
        Answer::Refused(refusal)
    }
}

// Opens the memory, with or without accessed and dirty bits, and the automatic choice of marks: 1, 2.
pub fn open(mem: &mut [u64], hosts: u64, shadows: u64, bits: bool, choice: bool) -> Reply
    ensures { Promises result mem.new (open_call mem.old hosts shadows bits choice) }
{
    let opened = opening::open(mem, hosts, shadows, bits, choice);
    let unit = opened.unit;
    Reply {
        unit: unit,
        answer: answer_of(opened.refusal),
    }
}

pub fn load(unit: Record, mem: &mut [u64], address: u64, width: u64) -> Reply
    ensures { Promises result mem.new (load_call unit mem.old address width) }
{
    let s = calls::load_at(
        unit.head(),
        unit.fits(mem.len()),
        &unit.guest.marks.place,
        &unit.guest.choice.ring,
        &unit.guest.choice.order,
        mem,
        address,
        width,
    );
    windowed(unit, s)
}

pub fn store(unit: Record, mem: &mut [u64], address: u64, width: u64, value: u64) -> Reply
    ensures { Promises result mem.new (store_call unit mem.old address width value) }
{
    if unit.guest.choice.tally.on == 0 {
        let s = calls::store_at(
            unit.head(),
            unit.fits(mem.len()),
            &unit.guest.marks.place,
            &unit.guest.choice.ring,
            &unit.guest.choice.order,
            mem,
            address,
            width,
            value,
        );
        return served(unit, s);
    }
    let mut place = unit.guest.marks.place;
    let mut ring = unit.guest.choice.ring;
    let mut order = unit.guest.choice.order;
    let turn = calls::store_on(
        unit.head(),
        unit.fits(mem.len()),
        &mut place,
        &mut ring,
        &mut order,
        mem,
        address,
        width,
        value,
    );
    replaced(unit, turn, place, ring, order)
}

pub fn device_store(unit: Record, mem: &mut [u64], address: u64, width: u64, value: u64) -> Reply
    ensures { Promises result mem.new (device_call unit mem.old address width value) }
{
    let s = calls::device_store_at(
        unit.head(),
        unit.fits(mem.len()),
        &unit.guest.marks.place,
        &unit.guest.choice.ring,
        &unit.guest.choice.order,
        mem,
        address,
        width,
        value,
    );
    served(unit, s)
}

pub fn load_root(unit: Record, mem: &mut [u64], guest: u64) -> Reply
    ensures { Promises result mem.new (root_call unit mem.old guest) }
{
    let t = calls::root_at(
        unit.head(),
        unit.fits(mem.len()),
        &unit.guest.marks.place,
        &unit.guest.choice.ring,
        &unit.guest.choice.order,
        mem,
        guest,
    );
    turned(unit, t)
}

pub fn map(unit: Record, mem: &mut [u64], guest: u64, frame: u64, writable: bool) -> Reply
    ensures { Promises result mem.new (map_call unit mem.old guest frame writable) }
{
    let x = calls::map_at(
        unit.head(),
        unit.fits(mem.len()),
        &unit.guest.marks.place,
        &unit.guest.choice.ring,
        &unit.guest.choice.order,
        mem,
        guest,
        frame,
        writable,
    );
    remapping(unit, x)
}

pub fn unmap(unit: Record, mem: &mut [u64], guest: u64) -> Reply
    ensures { Promises result mem.new (unmap_call unit mem.old guest) }
{
    let x = calls::unmap_at(
        unit.head(),
        unit.fits(mem.len()),
        &unit.guest.marks.place,
        &unit.guest.choice.ring,
        &unit.guest.choice.order,
        mem,
        guest,
    );
    remapping(unit, x)
}

// What loading these addresses one after the other would cost; record and memory are as they were.
pub fn forecast(unit: Record, mem: &[u64], addresses: &[u64]) -> Reply
    ensures { Promises result mem.now (forecast_call unit mem.now addresses.now) }
{
    let answer = calls::forecast_at(
        unit.head(),
        unit.fits(mem.len()),
        &unit.guest.marks.place,
        &unit.guest.choice.ring,
        &unit.guest.choice.order,
        mem,
        addresses,
    );
    Reply {
        unit: unit,
        answer: answer,
    }
}

// ---- marks

// A mark is set, or one is cleared.
fn mark_call(unit: Record, mem: &mut [u64], address: u64, level: u64, setting: bool) -> Reply
    ensures { yields result mem.new ≡ mark_call setting unit mem.old address level }
{
    let mut place = unit.guest.marks.place;
    let ring = unit.guest.choice.ring;
    let mut order = unit.guest.choice.order;
    let turn = calls::mark_at(
        unit.head(),
        unit.fits(mem.len()),
        &mut place,
        &ring,
        &mut order,
        mem,
        address,
        level,
        setting,
    );
    replaced(unit, turn, place, ring, order)
}

// Sets a mark: 3, 4, 5, 6, 7, 11.
pub fn set_mark(unit: Record, mem: &mut [u64], address: u64, level: u64) -> Reply
    ensures { Promises result mem.new (set_mark_call unit mem.old address level) }
{
    mark_call(unit, mem, address, level, true)
}

// Clears a mark: 3, 4, 5, 6, 11.
pub fn clear_mark(unit: Record, mem: &mut [u64], address: u64, level: u64) -> Reply
    ensures { Promises result mem.new (clear_mark_call unit mem.old address level) }
{
    mark_call(unit, mem, address, level, false)
}
