// What a record of a job does to the unit.
#![tactic(auto)]

ghost use Rattle.std.specs.Prelude.{◌≡◌, false, Some, None};
ghost use Rattle.words.specs.After.{yields};
ghost use Rattle.calls.specs.Calls.{open_call, call_of};
ghost use Rattle.job_records.specs.Records.{asked};
ghost use Rattle.job_run.specs.Run.{opened_by, run_of};

use calls::Reply;
use job_records::{Call, Job};
use record::Record;
use spec::Answer;

// A job's loads and stores are of whole words.
const WIDTH: u64 = 8;

// What a record leaves: the unit's record in use, once an open was granted, the answer, and whether the job goes on.
#[derive(Drop)]
pub struct Ran {
    pub unit: Option<Record>,
    pub answer: Answer,
    pub more: bool,
}

// The unit's call.
#[tactic(auto, unfolding(calls::specs::Calls::call_of))]
fn run_call(unit: Record, mem: &mut [u64], call: Call) -> Reply
    ensures { yields result mem.new ≡ call_of (asked call) unit mem.old }
{
    match call {
        Call::Root(g) => unit::load_root(unit, mem, g),
        Call::Map {
            guest,
            host,
            writable,
        } => unit::map(unit, mem, guest, host, writable),
        Call::Unmap(g) => unit::unmap(unit, mem, g),
        Call::SetMark { address, level } => unit::set_mark(unit, mem, address, level),
        Call::ClearMark { address, level } => unit::clear_mark(unit, mem, address, level),
        Call::Load(a) => unit::load(unit, mem, a, WIDTH),
        Call::Store { address, value } => unit::store(unit, mem, address, WIDTH, value),
        Call::Device { address, value } => unit::device_store(unit, mem, address, WIDTH, value),
    }
}

// Opens the memory, without accessed and dirty bits or the automatic choice; a refused open keeps the earlier record in use.
fn run_open(unit: Option<Record>, mem: &mut [u64], hosts: u64, shadows: u64) -> Ran
    ensures { yields result mem.new ≡ opened_by unit (open_call mem.old hosts shadows false false) }
{
    let Reply {
        unit: first,
        answer,
    } = unit::open(mem, hosts, shadows, false, false);
    let unit = if matches!(answer, Answer::Ok) {
        Some(first)
    } else {
        unit
    };
    Ran {
        unit,
        answer,
        more: true,
    }
}

// Runs one record: 13 and the end for a bad one, 3 for any kind but an open before a granted open, else the unit's call.
#[tactic(auto, unfolding(crate::specs::Run::run_of))]
pub fn run_job(unit: Option<Record>, mem: &mut [u64], job: Option<Job>) -> Ran
    ensures { yields result mem.new ≡ run_of unit mem.old job }
{
    match job {
        Some(Job::Open { hosts, shadows }) => run_open(unit, mem, hosts, shadows),
        Some(Job::Call(call)) => match unit {
            Some(used) => {
                let Reply { unit: next, answer } = run_call(used, mem, call);
                Ran {
                    unit: Some(next),
                    answer,
                    more: true,
                }
            }
            None => Ran {
                unit: None,
                answer: Answer::Refused(3),
                more: true,
            },
        },
        None => Ran {
            unit,
            answer: Answer::Refused(13),
            more: false,
        },
    }
}
