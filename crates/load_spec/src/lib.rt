// A call of a load, as its definition and the code know it.
#![tactic(auto)]

use job_records::Call;

// A call, and the state after it.
#[derive(Clone, Copy)]
pub struct Drawn {
    pub call: Call,
    pub state: u64,
}
