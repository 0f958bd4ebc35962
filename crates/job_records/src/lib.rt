// The records of a job: where one stands in the input, and what it asks for.
#![tactic(auto)]

ghost use Rattle.std.specs.Prelude.{◌≡◌, ◌+◌, ◌≤◌, ◌<◌, length, Some};
ghost use Rattle.job_records.specs.Records.{number, cut_at, body_of, next_of, kind_at, number_in, kind_in, size_in, job_in, job_of, job_at};

// ---- splitting the input

// Where a record stands: its kind, and the part of the input that is its body. Short: the input ends before the record does.
// Wrong: a length that no kind has. It is no Result: a job takes Short and Wrong as one, a reader of pieces Body and Wrong.
#[derive(Clone, Copy)]
pub enum Cut {
    Body { kind: u64, start: usize, len: usize },
    Short,
    Wrong,
}

// The longest record, a map: kind, two frames and a byte.
pub const LONGEST: u64 = 19;

// A number of two bytes, the lowest first.
fn number2(s: &[u8], at: usize) -> u64
    requires { at + 2 ≤ length s.now }
    ensures { (result ≡ number 2 s.now at) × (result < 65536) }
{
    u64::from(u16::from_le_bytes([s[at], s[at + 1]]))
}

// A number of eight bytes.
pub fn number8(s: &[u8], at: usize) -> u64
    requires { at + 8 ≤ length s.now }
    ensures { result ≡ number 8 s.now at }
{
    u64::from_le_bytes([
        s[at],
        s[at + 1],
        s[at + 2],
        s[at + 3],
        s[at + 4],
        s[at + 5],
        s[at + 6],
        s[at + 7],
    ])
}

// The record that starts at a position.
pub fn cut_at(s: &[u8], at: usize) -> Cut
    ensures { result ≡ cut_at s.now at }
{
    let n = s.len();
    if n < 2 || n - 2 < at {
        return Cut::Short;
    }
    let size = number2(s, at);
    if size < 2 || LONGEST < size {
        return Cut::Wrong;
    }
    let len = size as usize;
    if n - (at + 2) < len {
        return Cut::Short;
    }
    Cut::Body {
        kind: number2(s, at + 2),
        start: at + 4,
        len: len - 2,
    }
}

// The body of the record that starts at a position, as a reader there hands it out: a part of the caller's slice, empty where there is no whole record.
pub fn body_at(s: &[u8], at: usize) -> &[u8]
    ensures { result.now ≡ body_of s.now (cut_at s.now at) }
{
    Reader::new(s, at).body()
}

// Where a reader at a position stands once it has moved on: the record's end, or the position itself where there is no whole record.
pub fn next_at(s: &[u8], at: usize) -> usize
    ensures { result ≡ next_of at (cut_at s.now at) }
{
    Reader::new(s, at).skip().at
}

// ---- what a record asks for

// The kinds of records, each by its number.
#[derive(Clone, Copy)]
pub enum Kind {
    Open = 1,
    Root = 2,
    Map = 3,
    Unmap = 4,
    SetMark = 5,
    ClearMark = 6,
    Load = 7,
    Store = 8,
    Device = 9,
}

impl Kind {
    // The kind with a number.
    pub fn of(number: u64) -> Option<Kind>
        ensures { result ≡ kind_at number }
    {
        match number {
            1 => Some(Kind::Open),
            2 => Some(Kind::Root),
            3 => Some(Kind::Map),
            4 => Some(Kind::Unmap),
            5 => Some(Kind::SetMark),
            6 => Some(Kind::ClearMark),
            7 => Some(Kind::Load),
            8 => Some(Kind::Store),
            9 => Some(Kind::Device),
            _ => None,
        }
    }

    // Its number.
    pub fn number(self) -> u16
        ensures { result ≡ number_in self }
    {
        self as u16
    }

    // How many bytes its body has.
    pub fn size(self) -> usize
        ensures { result ≡ size_in self }
    {
        match self {
            Kind::Open => 4,
            Kind::Root | Kind::Unmap | Kind::Load => 8,
            Kind::SetMark | Kind::ClearMark => 9,
            Kind::Store | Kind::Device => 16,
            Kind::Map => 17,
        }
    }
}

// A call that a job can ask for, with its arguments. A device's address is guest-physical.
#[derive(Clone, Copy)]
pub enum Call {
    Root(u64),
    Map {
        guest: u64,
        host: u64,
        writable: bool,
    },
    Unmap(u64),
    SetMark {
        address: u64,
        level: u64,
    },
    ClearMark {
        address: u64,
        level: u64,
    },
    Load(u64),
    Store {
        address: u64,
        value: u64,
    },
    Device {
        address: u64,
        value: u64,
    },
}

impl Call {
    // The kind of its record.
    pub fn kind(self) -> Kind
        ensures { result ≡ kind_in self }
    {
        match self {
            Call::Root(_) => Kind::Root,
            Call::Map { .. } => Kind::Map,
            Call::Unmap(_) => Kind::Unmap,
            Call::SetMark { .. } => Kind::SetMark,
            Call::ClearMark { .. } => Kind::ClearMark,
            Call::Load(_) => Kind::Load,
            Call::Store { .. } => Kind::Store,
            Call::Device { .. } => Kind::Device,
        }
    }
}

// What a record asks for. One that is cut, or whose kind is unknown, or whose length is not its kind's, asks for nothing: it is 13.
#[derive(Clone, Copy)]
pub enum Job {
    Open { hosts: u64, shadows: u64 },
    Call(Call),
}

// What a record of that kind asks for; its body has the kind's size.
fn job_in(kind: Kind, b: &[u8]) -> Job
    requires { length b.now ≡ size_in kind }
    ensures { result ≡ job_in kind b.now }
{
    match kind {
        Kind::Open => Job::Open {
            hosts: number2(b, 0),
            shadows: number2(b, 2),
        },
        Kind::Root => Job::Call(Call::Root(number8(b, 0))),
        Kind::Map => Job::Call(Call::Map {
            guest: number8(b, 0),
            host: number8(b, 8),
            writable: b[16] != 0,
        }),
        Kind::Unmap => Job::Call(Call::Unmap(number8(b, 0))),
        Kind::SetMark => Job::Call(Call::SetMark {
            address: number8(b, 0),
            level: u64::from(b[8]),
        }),
        Kind::ClearMark => Job::Call(Call::ClearMark {
            address: number8(b, 0),
            level: u64::from(b[8]),
        }),
        Kind::Load => Job::Call(Call::Load(number8(b, 0))),
        Kind::Store => Job::Call(Call::Store {
            address: number8(b, 0),
            value: number8(b, 8),
        }),
        Kind::Device => Job::Call(Call::Device {
            address: number8(b, 0),
            value: number8(b, 8),
        }),
    }
}

// What a record with that number of a kind and that body asks for.
#[tactic(auto, unfolding(crate::specs::Records::job_of))]
fn decode(number: u64, b: &[u8]) -> Option<Job>
    ensures { result ≡ job_of number b.now }
{
    let kind = Kind::of(number)?;
    if b.len() == kind.size() {
        Some(job_in(kind, b))
    } else {
        None
    }
}

// What the record that starts at a position asks for.
#[tactic(auto, unfolding(crate::specs::Records::job_at))]
pub fn job_at(s: &[u8], at: usize) -> Option<Job>
    ensures { result ≡ job_at s.now at }
{
    match cut_at(s, at) {
        Cut::Body { kind, .. } => decode(kind, body_at(s, at)),
        Cut::Short | Cut::Wrong => None,
    }
}

// ---- the input with its cursor

// A reader of records: the input and the position of the next record.
#[derive(Clone, Copy)]
pub struct Reader<'a> {
    pub src: &'a [u8],
    pub at: usize,
}

impl<'a> Reader<'a> {
    // A reader of the input, at a position.
    pub fn new(src: &'a [u8], at: usize) -> Reader<'a>
        ensures { (result.src ≡ src.entry) × (result.at ≡ at) }
    {
        Reader { src, at }
    }

    // The body of the record at the cursor, as a part of the input; an empty part where there is no whole record.
    pub fn body(self) -> &'a [u8]
        ensures { result.now ≡ body_of self.entry.src.now (cut_at self.entry.src.now self.entry.at) }
    {
        match cut_at(self.src, self.at) {
            Cut::Body { start, len, .. } => &self.src[start..start + len],
            Cut::Short | Cut::Wrong => &[],
        }
    }

    // The reader behind the record at the cursor; where there is no whole record it stays.
    pub fn skip(self) -> Reader<'a>
        ensures { (result.src ≡ self.entry.src) × (result.at ≡ next_of self.entry.at (cut_at self.entry.src.now self.entry.at)) }
    {
        match cut_at(self.src, self.at) {
            Cut::Body { start, len, .. } => Reader {
                at: start + len,
                ..self
            },
            Cut::Short | Cut::Wrong => self,
        }
    }
}
