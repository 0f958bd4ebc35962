// A load that anyone can repeat: calls drawn from a seed, and the bytes of their records.
#![tactic(auto)]

ghost use Rattle.std.specs.Prelude.{◌≡◌, ◌++◌, ◌+◌, ◌*◌, ◌≤◌, ◌<◌, length, take};
ghost use Rattle.arrayvec.specs.ArrayVec.{array_vec_len};
ghost use Rattle.job_records.specs.Records.{size_in, number_in};
ghost use Rattle.job_records.specs.Encoded.{bytes_of, open_bytes, body_bytes, call_bytes};
ghost use Rattle.load_records.specs.Puts.{Puts};
ghost use Rattle.load_spec.specs.Load.{states, next, high, guest_by, host_by, address_by, level_by, writable_by, value_by, drawn_as, drawn_by, most, longest, load_of, load_by};

use arrayvec::ArrayVec;
use job_records::{Call, Kind};
use load_spec::Drawn;

// ---- draws

// A state, and a draw, is below 2^31.
const STATES: u64 = 2147483648;

// The most records that a load has.
const MOST: u64 = 65535;

// The bytes of the longest load.
pub const LONGEST: usize = 1376243;

// The draw after a state. It is the next state.
fn next_draw(state: u64) -> u64
    requires { state < states }
    ensures { result ≡ next state }
{
    (1103515245 * state + 12345) % STATES
}

// What is used of a draw.
fn high_of(draw: u64) -> u64
    ensures { result ≡ high draw }
{
    draw / 65536
}

// A root or a guest frame.
fn guest_by(draw: u64) -> u64
    ensures { result ≡ guest_by draw }
{
    high_of(draw) % 16
}

// A host frame, in the guest area of an open 4 4.
fn host_by(draw: u64) -> u64
    ensures { result ≡ host_by draw }
{
    8 + high_of(draw) % 8
}

fn address_by(draw: u64) -> u64
    ensures { result ≡ address_by draw }
{
    8 * (high_of(draw) % 4096)
}

fn level_by(draw: u64) -> u64
    ensures { result ≡ level_by draw }
{
    1 + high_of(draw) % 5
}

fn writable_by(draw: u64) -> bool
    ensures { result ≡ writable_by draw }
{
    high_of(draw) % 2 != 0
}

// An entry: a frame, present and writable.
fn value_by(draw: u64) -> u64
    ensures { result ≡ value_by draw }
{
    4096 * (high_of(draw) % 16) + 3
}

// The call of a kind with that number, as from 2 to 9; d, e and f are the draws for its body, in the order of the body.
fn drawn_as(number: u64, d: u64, e: u64, f: u64) -> Drawn
    ensures { result ≡ drawn_as number d e f }
{
    match Kind::of(number) {
        Some(Kind::Root) => Drawn {
            call: Call::Root(guest_by(d)),
            state: d,
        },
        Some(Kind::Map) => Drawn {
            call: Call::Map {
                guest: guest_by(d),
                host: host_by(e),
                writable: writable_by(f),
            },
            state: f,
        },
        Some(Kind::Unmap) => Drawn {
            call: Call::Unmap(guest_by(d)),
            state: d,
        },
        Some(Kind::SetMark) => Drawn {
            call: Call::SetMark {
                address: address_by(d),
                level: level_by(e),
            },
            state: e,
        },
        Some(Kind::ClearMark) => Drawn {
            call: Call::ClearMark {
                address: address_by(d),
                level: level_by(e),
            },
            state: e,
        },
        Some(Kind::Load) => Drawn {
            call: Call::Load(address_by(d)),
            state: d,
        },
        Some(Kind::Store) => Drawn {
            call: Call::Store {
                address: address_by(d),
                value: value_by(e),
            },
            state: e,
        },
        _ => Drawn {
            call: Call::Device {
                address: address_by(d),
                value: value_by(e),
            },
            state: e,
        },
    }
}

// The call after a state: a draw for its kind, then those for its body.
#[tactic(auto, unfolding(load_spec::specs::Load::drawn_by))]
fn drawn_by(state: u64) -> Drawn
    requires { state < states }
    ensures { result ≡ drawn_by state }
{
    let kind = next_draw(state);
    let d = next_draw(kind);
    let e = next_draw(d);
    let f = next_draw(e);
    drawn_as(2 + high_of(kind) % 8, d, e, f)
}

// ---- records

// The bytes of a record as they are put together, in memory of their own: the longest are a map's.
type Bytes = ArrayVec<u8, 21>;

// Puts bytes.
fn put(out: &mut Bytes, bytes: &[u8])
    requires { array_vec_len out.old + length bytes.now ≤ 21 }
    ensures { out.new.items ≡ out.old.items ++ bytes.now }
{
    out.try_extend_from_slice(bytes).unwrap();
}

// Puts a number in two bytes, the lowest first.
#[tactic(auto, using(crate::proofs::Numbers::two_bytes))]
fn put_short(out: &mut Bytes, n: u16)
    requires { array_vec_len out.old + 2 ≤ 21 }
    ensures { out.new.items ≡ out.old.items ++ bytes_of 2 n }
{
    put(out, &n.to_le_bytes());
}

// Puts a number in eight.
#[tactic(auto, using(crate::proofs::Numbers::eight_bytes))]
fn put_long(out: &mut Bytes, n: u64)
    requires { array_vec_len out.old + 8 ≤ 21 }
    ensures { out.new.items ≡ out.old.items ++ bytes_of 8 n }
{
    put(out, &n.to_le_bytes());
}

// Puts two numbers in eight bytes each.
fn put_longs(out: &mut Bytes, m: u64, n: u64)
    requires { array_vec_len out.old + 16 ≤ 21 }
    ensures { out.new.items ≡ out.old.items ++ (bytes_of 8 m ++ bytes_of 8 n) }
{
    put_long(out, m);
    put_long(out, n);
}

// The head of a record of a kind: its length and the kind.
fn head_of(kind: Kind) -> Bytes
    ensures { result.items ≡ bytes_of 2 (2 + size_in kind) ++ bytes_of 2 (number_in kind) }
{
    let mut out = Bytes::new();
    put_short(&mut out, 2 + kind.size() as u16);
    put_short(&mut out, kind.number());
    out
}

// The record of an open.
fn open_record(hosts: u16, shadows: u16) -> Bytes
    ensures { result.items ≡ open_bytes hosts shadows }
{
    let mut out = head_of(Kind::Open);
    put_short(&mut out, hosts);
    put_short(&mut out, shadows);
    out
}

// Puts the body of a call's record.
#[tactic(auto, using(crate::proofs::Numbers::bool_byte))]
fn put_body(out: &mut Bytes, call: Call)
    requires { array_vec_len out.old ≤ 4 }
    ensures { out.new.items ≡ out.old.items ++ body_bytes call }
{
    match call {
        Call::Root(n) | Call::Unmap(n) | Call::Load(n) => put_long(out, n),
        Call::Map {
            guest,
            host,
            writable,
        } => {
            put_longs(out, guest, host);
            out.push(u8::from(writable));
        }
        Call::SetMark { address, level } | Call::ClearMark { address, level } => {
            put_long(out, address);
            out.push((level % 256) as u8);
        }
        Call::Store { address, value } | Call::Device { address, value } => {
            put_longs(out, address, value)
        }
    }
}

// The record of a call.
#[tactic(auto, using(crate::proofs::Numbers::body_size), unfolding(job_records::specs::Encoded::call_bytes))]
fn record_of(call: Call) -> Bytes
    ensures { result.items ≡ call_bytes call }
{
    let mut out = head_of(call.kind());
    put_body(&mut out, call);
    out
}

// Puts a record at a position, and answers the position past it.
fn put_record(out: &mut [u8], at: usize, record: &Bytes) -> usize
    requires { at + array_vec_len record.now ≤ length out.old }
    ensures { (result ≡ at + array_vec_len record.now) × (result ≤ at + 21) × (Puts out.old at out.new result record.now.items) }
{
    let end = at + record.len();
    out[at..end].copy_from_slice(record.as_slice());
    end
}

// ---- the load

// Puts the load of a seed and a count at the start of the buffer, and answers its length.
fn put_load(out: &mut [u8], seed: u64, count: u64) -> usize
    requires { (seed < states) × (count ≤ most) × (8 + 21 * count ≤ length out.old) }
    ensures { (result ≤ length out.new) × (take result out.new ≡ load_of seed count) }
{
    let mut at = put_record(out, 0, &open_record(4, 4));
    let mut state = seed;
    for _record in 0..count {
        let Drawn { call, state: next } = drawn_by(state);
        at = put_record(out, at, &record_of(call));
        state = next;
    }
    at
}

// Puts the load that an input asks for, and answers its length: 0 where the input is cut or a number is out of range. It is no Option, since the load
// is empty there, and a caller writes it as any other.
pub fn put_asked(input: &[u8], out: &mut [u8]) -> usize
    requires { longest ≤ length out.old }
    ensures { (result ≤ length out.new) × (take result out.new ≡ load_by input.now) }
{
    if input.len() < 16 {
        return 0;
    }
    let seed = job_records::number8(input, 0);
    let count = job_records::number8(input, 8);
    if seed >= STATES {
        return 0;
    }
    if count > MOST {
        return 0;
    }
    put_load(out, seed, count)
}
