// The C boundary (document 01, "The parts we ship"; 02, S-5): fit, the count of kept flags, refinement and follower on numbers and byte buffers,
// where a cell is two bytes, low byte first. include/moqresam.h says the same to C, and so each call takes a table's numbers one by one.
#![tactic(auto)]

ghost use Rattle.std.specs.Prelude.{◌≡◌, length};
ghost use Rattle.theory.specs.Table.{kept_count};
ghost use Rattle.table.specs.Contract.{follow_reply};
ghost use Rattle.compatibility.specs.Contract.{compatibility_reply, compatibility_flags};
ghost use Rattle.refinement.specs.Contract.{refinement_reply, refinement_marks};
ghost use Rattle.packed.specs.Bytes.{table_of_bytes};
ghost use Rattle.moqresam.specs.Contract.{fit_reply, refine_reply, monitor_reply, state_after};

mod replies;

// Reply of `moqresam_fit`: the number of the refusal and the table at fault, both 0 if nothing is refused; the verdict; how many rounds drop a
// pair; whether the refusal names a cell, and the state and signal of that cell, 0 if it names none.
#[repr(C)]
#[derive(Clone, Copy)]
pub struct FitReply {
    pub number: u32,
    pub table: u32,
    pub compatible: bool,
    pub rounds: usize,
    pub placed: bool,
    pub cell_state: usize,
    pub cell_signal: usize,
}

// Reply of `moqresam_refine`: the number of the refusal and the table at fault, both 0 if nothing is refused; the verdict; whether the refusal
// names a cell, and the state and signal of that cell, 0 if it names none.
#[repr(C)]
#[derive(Clone, Copy)]
pub struct RefineReply {
    pub number: u32,
    pub table: u32,
    pub refines: bool,
    pub placed: bool,
    pub cell_state: usize,
    pub cell_signal: usize,
}

// Reply of the follower: the number of the refusal and the table at fault, both 0 if nothing is refused; whether it moved, and the state that it is
// in now; whether the refusal names a cell, and the state and signal of that cell, 0 if it names none.
#[repr(C)]
#[derive(Clone, Copy)]
pub struct FollowReply {
    pub number: u32,
    pub table: u32,
    pub moved: bool,
    pub state: usize,
    pub placed: bool,
    pub cell_state: usize,
    pub cell_signal: usize,
}

// Record of a follower, which the caller lends: its state.
#[repr(C)]
#[derive(Clone, Copy)]
pub struct Follower {
    pub state: usize,
}

// Decides whether two tables fit, and writes one flag for each state pair, with either verdict: 1 kept, 0 dropped. A refusal leaves the flags as
// they were.
#[unsafe(no_mangle)]
pub extern "C" fn moqresam_fit(
    states_a: usize,
    initial_a: usize,
    inputs_a: u32,
    outputs_a: u32,
    cells_a: &[u8],
    states_b: usize,
    initial_b: usize,
    inputs_b: u32,
    outputs_b: u32,
    cells_b: &[u8],
    flags: &mut [u8],
) -> FitReply
    ensures value { result ≡ fit_reply (compatibility_reply
        (table_of_bytes states_a initial_a inputs_a outputs_a cells_a.now)
        (table_of_bytes states_b initial_b inputs_b outputs_b cells_b.now)
        (length flags.old)) }
    ensures flags_after { flags.new ≡ compatibility_flags
        (table_of_bytes states_a initial_a inputs_a outputs_a cells_a.now)
        (table_of_bytes states_b initial_b inputs_b outputs_b cells_b.now)
        flags.old }
{
    let a = table::header(states_a, initial_a, inputs_a, outputs_a);
    let b = table::header(states_b, initial_b, inputs_b, outputs_b);
    FitReply::from(packed::fit(a, cells_a, b, cells_b, flags))
}

// Counts the flags that are 1, in a buffer of any length.
#[unsafe(no_mangle)]
pub extern "C" fn moqresam_count_kept(flags: &[u8]) -> usize
    ensures { result ≡ kept_count flags.now }
{
    table::count_kept(flags)
}

// Decides whether the first table refines the second, and writes one mark for each state pair: 1 related, 0 not. A refusal leaves the marks as they
// were.
#[unsafe(no_mangle)]
pub extern "C" fn moqresam_refine(
    states_a: usize,
    initial_a: usize,
    inputs_a: u32,
    outputs_a: u32,
    cells_a: &[u8],
    states_b: usize,
    initial_b: usize,
    inputs_b: u32,
    outputs_b: u32,
    cells_b: &[u8],
    marks: &mut [u8],
) -> RefineReply
    ensures value { result ≡ refine_reply (refinement_reply
        (table_of_bytes states_a initial_a inputs_a outputs_a cells_a.now)
        (table_of_bytes states_b initial_b inputs_b outputs_b cells_b.now)
        (length marks.old)) }
    ensures marks_after { marks.new ≡ refinement_marks
        (table_of_bytes states_a initial_a inputs_a outputs_a cells_a.now)
        (table_of_bytes states_b initial_b inputs_b outputs_b cells_b.now)
        marks.old }
{
    let a = table::header(states_a, initial_a, inputs_a, outputs_a);
    let b = table::header(states_b, initial_b, inputs_b, outputs_b);
    RefineReply::from(packed::refine(a, cells_a, b, cells_b, marks))
}

// Makes one step of the follower from a state by a signal. The reply has the new state; at "not now" or a refusal, the state given.
#[unsafe(no_mangle)]
pub extern "C" fn moqresam_follow(
    states: usize,
    initial: usize,
    inputs: u32,
    outputs: u32,
    cells: &[u8],
    state: usize,
    signal: usize,
) -> FollowReply
    ensures { result ≡ monitor_reply state (follow_reply (table_of_bytes states initial inputs outputs cells.now) state signal) }
{
    let a = table::header(states, initial, inputs, outputs);
    replies::follow_reply(state, packed::follow(a, cells, state, signal))
}

// Makes one step of the follower whose record the caller lends, and moves the record; at "not now" or a refusal the record stays as it was.
#[unsafe(no_mangle)]
pub extern "C" fn moqresam_follow_record(
    states: usize,
    initial: usize,
    inputs: u32,
    outputs: u32,
    cells: &[u8],
    follower: &mut Follower,
    signal: usize,
) -> FollowReply
    ensures { (result ≡ monitor_reply follower.old.state
        (follow_reply (table_of_bytes states initial inputs outputs cells.now) follower.old.state signal))
        × (follower.new.state ≡ state_after follower.old.state
        (follow_reply (table_of_bytes states initial inputs outputs cells.now) follower.old.state signal)) }
{
    let state = follower.state;
    let reply = moqresam_follow(states, initial, inputs, outputs, cells, state, signal);
    follower.state = reply.state;
    reply
}
