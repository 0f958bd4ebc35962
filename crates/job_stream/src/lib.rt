// The job program's reading and writing: records from a reader as they come, a line for each to a writer; the program's are standard input and output.
// No contract says which bytes a read gave or a write took: of those two nothing is known but a count. All else is said: a read puts its bytes behind
// those that are not run yet, in a buffer that has room for them; what is handed over to be written is the line of the record; and every turn runs the
// next record, or reads. That each line is handed over once is read in run_record.
#![tactic(auto)]

ghost use Rattle.std.specs.Prelude.{◌≡◌, ◌+◌, ◌≤◌, ◌<◌, length, take, drop};
ghost use Rattle.words.specs.After.{yields};
ghost use Rattle.job_lines.specs.Text.{line_of};
ghost use Rattle.job_stream.specs.Turns.{first, unread, ran_of, refilled_of, Refilled, Turn, most, Looped};

use job_records::Cut;
use job_run::Ran;
use record::Record;
use spec::Answer;
use std::io::{Read, Write};

// A job that runs: the unit's record in use, once an open was granted, how many records ran, where the next one starts
// in the buffer, how many bytes the buffer holds, whether the job goes on, and whether its lines are taken. The last two are apart, since the claim
// about the loop (job_loop) holds where the job is over, and says nothing where a line was not taken.
#[derive(Drop)]
pub struct Flow {
    pub unit: Option<Record>,
    pub number: u64,
    pub at: usize,
    pub len: usize,
    pub more: bool,
    pub taken: bool,
}

// The first len bytes of a buffer, or all.
fn part(buf: &[u8], len: usize) -> &[u8]
    ensures { result.now ≡ take len buf.now }
{
    if len <= buf.len() { &buf[..len] } else { buf }
}

// Writes a text, which has to be the line of that number and answer, and answers whether it was taken.
fn write_text<W: Write>(to: &mut W, number: u64, answer: Answer, text: &[u8]) -> bool
    requires { text.now ≡ line_of number answer }
{
    to.write_all(text).is_ok()
}

// Writes the line of a record, and answers whether it was taken.
fn write_line<W: Write>(to: &mut W, number: u64, answer: Answer) -> bool {
    let line = job_lines::line(number, answer);
    write_text(to, number, answer, line.as_slice())
}

// Runs the record at the position, and writes its line.
fn run_record<W: Write>(f: Flow, to: &mut W, mem: &mut [u64; 8192], buf: &[u8; 4096]) -> Flow
    requires { f.number < most }
    ensures { yields result mem.new ≡ (ran_of f mem.old (take f.len buf.now) result.taken).after }
{
    let Flow {
        unit,
        number,
        at,
        len,
        ..
    } = f;
    let input = part(buf, len);
    let job = job_records::job_at(input, at);
    let next = job_records::next_at(input, at);
    let Ran { unit, answer, more } = job_run::run_job(unit, mem, job);
    let now = number + 1;
    let taken = write_line(to, now, answer);
    Flow {
        unit,
        number: now,
        at: next,
        len,
        more,
        taken,
    }
}

// Moves what is left of the buffer to its front, and answers how many bytes that are.
fn keep(buf: &mut [u8], at: usize, len: usize) -> usize
    ensures { (result ≡ length (drop at (take len buf.old))) × (take result buf.new ≡ drop at (take len buf.old)) }
{
    let end = len.min(buf.len());
    if end <= at {
        return 0;
    }
    buf.copy_within(at..end, 0);
    end - at
}

// Reads on behind the first kept bytes, and answers how many bytes came; 0 at the end of the input and where a read fails.
fn read_on<R: Read>(from: &mut R, buf: &mut [u8], kept: usize) -> usize
    requires { kept < length buf.old }
    ensures { (take kept buf.new ≡ take kept buf.old) × (kept + result ≤ length buf.new) }
{
    match from.read(&mut buf[kept..]) {
        Ok(got) => got,
        Err(_) => 0,
    }
}

// The record is not whole: reads on. At the end of the input a rest is a record that is cut.
fn refill<R: Read, W: Write>(
    f: Flow,
    from: &mut R,
    to: &mut W,
    mem: &mut [u64; 8192],
    buf: &mut [u8; 4096],
) -> Flow
    requires { (f.number < most) × (length (unread f buf.old) < 4096) }
    ensures { (yields result mem.new ≡ (refilled_of f mem.old (unread f buf.old) result.len result.taken).after) × (Refilled (unread f buf.old) result.len buf.new) }
{
    let kept = keep(buf, f.at, f.len);
    let got = read_on(from, buf, kept);
    let f = Flow {
        at: 0,
        len: kept + got,
        ..f
    };
    if got > 0 {
        return f;
    }
    if kept == 0 {
        return Flow { more: false, ..f };
    }
    run_record(f, to, mem, buf)
}

// One record, or one read.
fn turn<R: Read, W: Write>(
    f: Flow,
    from: &mut R,
    to: &mut W,
    mem: &mut [u64; 8192],
    buf: &mut [u8; 4096],
) -> Flow
    requires { f.number < most }
    ensures { Turn f mem.old buf.old result mem.new buf.new }
{
    match job_records::cut_at(part(buf, f.len), f.at) {
        Cut::Short => refill(f, from, to, mem, buf),
        _ => run_record(f, to, mem, buf),
    }
}

// The turns of a job. A proved loop has to end, and nothing says that the input does, so the turns are counted up to a
// number that no run comes to.
fn run_turns<R: Read, W: Write>(
    from: &mut R,
    to: &mut W,
    mem: &mut [u64; 8192],
    buf: &mut [u8; 4096],
) -> Flow
    ensures { Looped first mem.old buf.old result mem.new buf.new }
{
    let mut f = Flow {
        unit: None,
        number: 0,
        at: 0,
        len: 0,
        more: true,
        taken: true,
    };
    for _turn in 0..u64::MAX {
        if !(f.more && f.taken) {
            break;
        }
        f = turn(f, from, to, mem, buf);
    }
    f
}

// Runs what a reader gives as a job.
pub fn run<R: Read, W: Write>(from: &mut R, to: &mut W) {
    let mut mem = [0u64; 8192];
    let mut buf = [0u8; 4096];
    run_turns(from, to, &mut mem, &mut buf);
}
