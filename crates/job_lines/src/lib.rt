// The line of a record: its number and what the unit answered, in ASCII.
#![tactic(auto)]

ghost use Rattle.std.specs.Prelude.{◌≡◌, ◌+◌, ◌≤◌, ◌<◌, ◌++◌, length};
ghost use Rattle.arrayvec.specs.ArrayVec.{array_vec_len};
ghost use Rattle.job_lines.specs.Text.{digit, decimal, hexadecimal, number, pair, fault_of, answer_text, line_of};

use arrayvec::ArrayVec;
use spec::{Answer, Fault};

// The longest line: a number of 20 digits, a fault, and a newline.
pub const LONGEST: usize = 113;

// A line as it is put together, in memory of its own.
pub type Line = ArrayVec<u8, LONGEST>;

// The digit of a number below 16.
fn digit_of(d: u64) -> u8
    requires { d < 16 }
    ensures { result ≡ digit d }
{
    if d < 10 {
        b'0' + d as u8
    } else {
        b'a' - 10 + d as u8
    }
}

// Puts a text.
fn put_text(out: &mut Line, text: &[u8])
    requires { array_vec_len out.old + length text.now ≤ LONGEST }
    ensures { out.new.items ≡ out.old.items ++ text.now }
{
    out.try_extend_from_slice(text).unwrap();
}

// Puts a number in decimal.
#[tactic(auto, using(crate::proofs::Numbers::decimal_text))]
fn put_decimal(out: &mut Line, n: u64)
    requires { array_vec_len out.old + 20 ≤ LONGEST }
    ensures room { array_vec_len out.new ≤ array_vec_len out.old + 20 }
    ensures items { out.new.items ≡ out.old.items ++ decimal 19 n }
{
    let mut digits = itoa::Buffer::new();
    put_text(out, digits.format(n).as_bytes());
}

// Puts so many hexadecimal digits of a number. A recursion on how many, as the text is defined: the lowest digit comes last.
fn put_hex(out: &mut Line, n: u64, width: usize)
    requires { array_vec_len out.old + width ≤ LONGEST }
    ensures room { array_vec_len out.new ≤ array_vec_len out.old + width }
    ensures items { out.new.items ≡ out.old.items ++ hexadecimal width n }
{
    if width > 0 {
        put_hex(out, n / 16, width - 1);
        out.push(digit_of(n % 16));
    }
}

// Puts a space and a number.
fn put_number(out: &mut Line, n: u64)
    requires { array_vec_len out.old + 21 ≤ LONGEST }
    ensures room { array_vec_len out.new ≤ array_vec_len out.old + 21 }
    ensures items { out.new.items ≡ out.old.items ++ number n }
{
    out.push(b' ');
    put_decimal(out, n);
}

// Puts two numbers, each after a space.
fn put_pair(out: &mut Line, m: u64, n: u64)
    requires { array_vec_len out.old + 42 ≤ LONGEST }
    ensures room { array_vec_len out.new ≤ array_vec_len out.old + 42 }
    ensures items { out.new.items ≡ out.old.items ++ pair m n }
{
    put_number(out, m);
    put_number(out, n);
}

// Puts the letter, the level and the guest frame of a fault.
fn put_fault(out: &mut Line, fault: Fault)
    requires { array_vec_len out.old + 43 ≤ LONGEST }
    ensures room { array_vec_len out.new ≤ array_vec_len out.old + 43 }
    ensures items { out.new.items ≡ out.old.items ++ fault_of fault }
{
    out.push(spec::letter_of(fault));
    put_pair(out, spec::level_of(fault), spec::frame_of(fault));
}

// Puts what an answer says. No `write!`: its clauses say what stands in the line where it answers Ok, and nothing says that it does where there is
// room, so that the line's clause would stay open. No record of a job asks for a forecast: its figures are here so that each answer has its text.
fn put_answer(out: &mut Line, answer: Answer)
    requires { array_vec_len out.old + 92 ≤ LONGEST }
    ensures room { array_vec_len out.new ≤ array_vec_len out.old + 92 }
    ensures items { out.new.items ≡ out.old.items ++ answer_text answer }
{
    match answer {
        Answer::Ok => put_text(out, b" ok"),
        Answer::Value {
            word,
            references,
            exits,
        } => {
            put_text(out, b" value ");
            put_hex(out, word, 16);
            put_pair(out, references, exits);
        }
        Answer::Done { references, exits } => {
            put_text(out, b" done");
            put_pair(out, references, exits);
        }
        Answer::Faulted {
            fault,
            references,
            exits,
        } => {
            put_text(out, b" fault ");
            put_fault(out, fault);
            put_pair(out, references, exits);
        }
        Answer::Refused(n) => {
            put_text(out, b" no");
            put_number(out, n);
        }
        Answer::Figures {
            references,
            exits,
            tables,
        } => {
            put_text(out, b" figures");
            put_pair(out, references, exits);
            put_number(out, tables);
        }
    }
}

// The line of a record.
#[tactic(auto, unfolding(crate::specs::Text::line_of))]
pub fn line(number: u64, answer: Answer) -> Line
    ensures fits { array_vec_len result ≤ 113 }
    ensures items { result.items ≡ line_of number answer }
{
    let mut out = Line::new();
    put_decimal(&mut out, number);
    put_answer(&mut out, answer);
    out.push(b'\n');
    out
}
