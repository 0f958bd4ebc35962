// Words of the lent memory: total reads and stores, by place and by frame, a frame set to 0, and a part of a word.
#![tactic(auto)]

ghost use Rattle.std.specs.Prelude.{◌≡◌, ◌+◌, ◌*◌, ◌<◌, ◌≤◌, get_or, set};
ghost use Rattle.spec.specs.Bytes.{part, with_part};
ghost use Rattle.spec.specs.Entry.{frame_limit};
ghost use Rattle.words.specs.Words.{word_in, set_in, zeroed};

// The word at a place, and 0 past the end.
pub fn word_at(mem: &[u64], place: usize) -> u64
    ensures { result ≡ get_or mem.now place 0 }
{
    if place < mem.len() { mem[place] } else { 0 }
}

// A store at a place; past the end it changes nothing.
pub fn set_word(mem: &mut [u64], place: usize, value: u64)
    ensures { mem.new ≡ set mem.old place value }
{
    if place < mem.len() {
        mem[place] = value;
    }
}

// A word of a frame.
pub fn word_in(mem: &[u64], frame: u64, index: u64) -> u64
    requires { (frame < frame_limit) × (index < 512) }
    ensures { result ≡ word_in mem.now frame index }
{
    word_at(mem, (frame * 512 + index) as usize)
}

// A store to a word of a frame.
pub fn set_in(mem: &mut [u64], frame: u64, index: u64, value: u64)
    requires { (frame < frame_limit) × (index < 512) }
    ensures { mem.new ≡ set_in mem.old frame index value }
{
    set_word(mem, (frame * 512 + index) as usize, value);
}

// A whole frame is set to 0.
pub fn zero_frame(mem: &mut [u64], frame: u64)
    requires { frame < frame_limit }
    ensures { mem.new ≡ zeroed mem.old (frame * 512) 512 }
{
    let base = frame as usize * 512;
    let mut i: usize = 0;
    while i < 512 {
        set_word(mem, base + i, 0);
        i += 1;
    }
}

// So many bits of a word from a bit on: those below are shifted out, then those above.
pub fn part(word: u64, bits: u64, from: u64) -> u64
    requires { (0 < bits) × (bits + from ≤ 64) }
    ensures { result ≡ part bits from word }
{
    ((word >> from) << (64 - bits)) >> (64 - bits)
}

// The word with the low bits of a value there: the part that it has is taken away and the new one put in its place.
pub fn with_part(word: u64, bits: u64, from: u64, value: u64) -> u64
    requires { (0 < bits) × (bits + from ≤ 64) }
    ensures { result ≡ with_part bits from value word }
{
    word - (part(word, bits, from) << from) + (part(value, bits, 0) << from)
}
