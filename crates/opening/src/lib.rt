// The opening of a memory: judged, its host and shadow frames cleared, the first record made.
#![tactic(auto)]

ghost use Rattle.std.specs.Prelude.{◌≡◌, ◌+◌, ◌≤◌};
ghost use Rattle.words.specs.After.{yields};
ghost use Rattle.record.specs.Record.{zeros};
ghost use Rattle.record.specs.Open.{refusal_of, cleared_of, first_of, granted_of, open_of};

use entry::{GuestPhysical, HostPhysical};
use layout::Layout;
use marks::Marks;
use pool::Pool;
use record::{Guest, Opened, Pools, Record};

// The number with which an opening on that many words is refused, or 0.
fn open_refusal(words: u64, hosts: u64, shadows: u64, bits: bool) -> u64
    ensures { result ≡ refusal_of words hosts shadows bits }
{
    if !record::words_fit(words) {
        return 1;
    }
    if !record::areas_fit(record::layout(words, hosts, shadows, bits)) {
        return 2;
    }
    0
}

// The first frames are set to 0.
fn clear_frames(mem: &mut [u64], frames: u64)
    requires { frames ≤ 65536 }
    ensures { mem.new ≡ cleared_of mem.old frames }
{
    let end = frames as usize * 512;
    let mut i: usize = 0;
    while i < end {
        words::set_word(mem, i, 0);
        i += 1;
    }
}

// The record of a memory that was just opened; choice: whether the automatic choice is on.
fn first(l: Layout, host: Pool, choice: bool) -> Record
    ensures { result ≡ first_of l host choice }
{
    Record {
        layout: l,
        pools: Pools {
            host: host,
            shadow: pool::no_tables(),
        },
        guest: Guest {
            root: GuestPhysical(0),
            held: HostPhysical(0),
            marks: Marks::empty(),
            choice: record::no_choice(choice),
        },
    }
}

// Host and shadow frames are cleared, and the top host table handed out.
fn open_granted(mem: &mut [u64], hosts: u64, shadows: u64, bits: bool, choice: bool) -> Record
    requires { hosts + shadows ≤ 65536 }
    ensures { yields result mem.new ≡ granted_of mem.old hosts shadows bits choice }
{
    let l = record::layout(mem.len() as u64, hosts, shadows, bits);
    clear_frames(mem, hosts + shadows);
    let went = area::enter(host::tables(l), pool::no_tables(), mem, 0);
    let pool = went.pool;
    first(l, pool, choice)
}

// The opening, with or without accessed and dirty bits, and the automatic choice of marks: 1, 2.
pub fn open(mem: &mut [u64], hosts: u64, shadows: u64, bits: bool, choice: bool) -> Opened
    ensures { yields result mem.new ≡ open_of mem.old hosts shadows bits choice }
{
    let refusal = open_refusal(mem.len() as u64, hosts, shadows, bits);
    if refusal != 0 {
        return Opened {
            unit: Record::zeros(),
            refusal: refusal,
        };
    }
    let unit = open_granted(mem, hosts, shadows, bits, choice);
    Opened {
        unit: unit,
        refusal: 0,
    }
}
