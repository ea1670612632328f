// Calls on two tables: product, compatibility (document 01: fit), composition, refinement, synthesis (document 01: the sequencer maker).
ghost use Rattle.std.specs.Prelude.{◌≡◌, length};
ghost use Rattle.compatibility.specs.Contract.{compatibility_reply, compatibility_flags};
ghost use Rattle.composition.specs.Contract.{product_reply, product_cells, composition_reply, composition_cells, composition_flags};
ghost use Rattle.refinement.specs.Contract.{refinement_reply, refinement_marks};
ghost use Rattle.synthesis.specs.Contract.{synthesis_reply, synthesis_cells, synthesis_flags};
ghost use Rattle.harness.specs.Contract.{made, fitted, composed, refined, synthesized};
ghost use Rattle.harness.specs.Tables.{table_of};

use crate::replies::Reply;

// Builds the product; its cells are in the lent buffer.
#[unsafe(no_mangle)]
pub extern "C" fn harness_product(
    states_a: usize,
    initial_a: usize,
    inputs_a: u32,
    outputs_a: u32,
    cells_a: &[u16],
    states_b: usize,
    initial_b: usize,
    inputs_b: u32,
    outputs_b: u32,
    cells_b: &[u16],
    cells: &mut [u16],
) -> Reply
    ensures value { result ≡ made (product_reply
        (table_of states_a initial_a inputs_a outputs_a cells_a.now)
        (table_of states_b initial_b inputs_b outputs_b cells_b.now)
        (length cells.old)) }
    ensures cells_after { cells.new ≡ product_cells
        (table_of states_a initial_a inputs_a outputs_a cells_a.now)
        (table_of states_b initial_b inputs_b outputs_b cells_b.now)
        cells.old }
{
    let a = table::header(states_a, initial_a, inputs_a, outputs_a);
    let b = table::header(states_b, initial_b, inputs_b, outputs_b);
    Reply::from(composition::product(a, cells_a, b, cells_b, cells))
}

// Decides whether the tables are compatible; the flags are in the lent buffer.
#[unsafe(no_mangle)]
pub extern "C" fn harness_fit(
    states_a: usize,
    initial_a: usize,
    inputs_a: u32,
    outputs_a: u32,
    cells_a: &[u16],
    states_b: usize,
    initial_b: usize,
    inputs_b: u32,
    outputs_b: u32,
    cells_b: &[u16],
    flags: &mut [u8],
) -> Reply
    ensures value { result ≡ fitted (compatibility_reply
        (table_of states_a initial_a inputs_a outputs_a cells_a.now)
        (table_of states_b initial_b inputs_b outputs_b cells_b.now)
        (length flags.old)) }
    ensures flags_after { flags.new ≡ compatibility_flags
        (table_of states_a initial_a inputs_a outputs_a cells_a.now)
        (table_of states_b initial_b inputs_b outputs_b cells_b.now)
        flags.old }
{
    let a = table::header(states_a, initial_a, inputs_a, outputs_a);
    let b = table::header(states_b, initial_b, inputs_b, outputs_b);
    Reply::from(compatibility::compatible(a, cells_a, b, cells_b, flags))
}

// Composes the tables; cells and flags are in the lent buffers.
#[unsafe(no_mangle)]
pub extern "C" fn harness_compose(
    states_a: usize,
    initial_a: usize,
    inputs_a: u32,
    outputs_a: u32,
    cells_a: &[u16],
    states_b: usize,
    initial_b: usize,
    inputs_b: u32,
    outputs_b: u32,
    cells_b: &[u16],
    cells: &mut [u16],
    flags: &mut [u8],
) -> Reply
    ensures value { result ≡ composed (composition_reply
        (table_of states_a initial_a inputs_a outputs_a cells_a.now)
        (table_of states_b initial_b inputs_b outputs_b cells_b.now)
        (length cells.old) (length flags.old)) }
    ensures cells_after { cells.new ≡ composition_cells
        (table_of states_a initial_a inputs_a outputs_a cells_a.now)
        (table_of states_b initial_b inputs_b outputs_b cells_b.now)
        cells.old (length flags.old) }
    ensures flags_after { flags.new ≡ composition_flags
        (table_of states_a initial_a inputs_a outputs_a cells_a.now)
        (table_of states_b initial_b inputs_b outputs_b cells_b.now)
        (length cells.old) flags.old }
{
    let a = table::header(states_a, initial_a, inputs_a, outputs_a);
    let b = table::header(states_b, initial_b, inputs_b, outputs_b);
    Reply::from(composition::compose(a, cells_a, b, cells_b, cells, flags))
}

// Decides whether the first table refines the second; the marks are in the lent buffer.
#[unsafe(no_mangle)]
pub extern "C" fn harness_refine(
    states_a: usize,
    initial_a: usize,
    inputs_a: u32,
    outputs_a: u32,
    cells_a: &[u16],
    states_b: usize,
    initial_b: usize,
    inputs_b: u32,
    outputs_b: u32,
    cells_b: &[u16],
    marks: &mut [u8],
) -> Reply
    ensures value { result ≡ refined (refinement_reply
        (table_of states_a initial_a inputs_a outputs_a cells_a.now)
        (table_of states_b initial_b inputs_b outputs_b cells_b.now)
        (length marks.old)) }
    ensures marks_after { marks.new ≡ refinement_marks
        (table_of states_a initial_a inputs_a outputs_a cells_a.now)
        (table_of states_b initial_b inputs_b outputs_b cells_b.now)
        marks.old }
{
    let a = table::header(states_a, initial_a, inputs_a, outputs_a);
    let b = table::header(states_b, initial_b, inputs_b, outputs_b);
    Reply::from(refinement::refine(a, cells_a, b, cells_b, marks))
}

// Makes the controller of a component and a specification (document 01: the sequencer of a module and a plan); cells and flags are in the lent
// buffers.
#[unsafe(no_mangle)]
pub extern "C" fn harness_synthesize(
    states_a: usize,
    initial_a: usize,
    inputs_a: u32,
    outputs_a: u32,
    cells_a: &[u16],
    states_b: usize,
    initial_b: usize,
    inputs_b: u32,
    outputs_b: u32,
    cells_b: &[u16],
    cells: &mut [u16],
    flags: &mut [u8],
) -> Reply
    ensures value { result ≡ synthesized (synthesis_reply
        (table_of states_a initial_a inputs_a outputs_a cells_a.now)
        (table_of states_b initial_b inputs_b outputs_b cells_b.now)
        (length cells.old) (length flags.old)) }
    ensures cells_after { cells.new ≡ synthesis_cells
        (table_of states_a initial_a inputs_a outputs_a cells_a.now)
        (table_of states_b initial_b inputs_b outputs_b cells_b.now)
        cells.old (length flags.old) }
    ensures flags_after { flags.new ≡ synthesis_flags
        (table_of states_a initial_a inputs_a outputs_a cells_a.now)
        (table_of states_b initial_b inputs_b outputs_b cells_b.now)
        (length cells.old) flags.old }
{
    let a = table::header(states_a, initial_a, inputs_a, outputs_a);
    let b = table::header(states_b, initial_b, inputs_b, outputs_b);
    Reply::from(synthesis::synthesize(a, cells_a, b, cells_b, cells, flags))
}
