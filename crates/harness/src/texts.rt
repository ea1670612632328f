// Calls on table text: reading, looking up names, writing, and what the two programs print.
ghost use Rattle.std.specs.Prelude.{◌≡◌, ◌≤◌, length};
ghost use Rattle.text.specs.declared.Spelling.TheVariants.{Exact, Folded};
ghost use Rattle.text.specs.Reading.{read_alone, read_both, cells_alone, cells_first, cells_second};
ghost use Rattle.text.specs.Lookup.{lookup, lookup_number, lookup_alone, lookup_number_alone};
ghost use Rattle.text.specs.Writing.{writer_bytes};
ghost use Rattle.reader.specs.Contract.{alone_reply, together_reply};
ghost use Rattle.emit.specs.Buffer.{after, stored};
ghost use Rattle.names.specs.LentNames.{texts};
ghost use Rattle.writer.specs.Contract.{writer_reply};
ghost use Rattle.report.specs.Listing.{listing_text};
ghost use Rattle.report.specs.Report.{report_text, report_buffers};
ghost use Rattle.harness.specs.Contract.{alone_read, together_read, named, written};
ghost use Rattle.harness.specs.Tables.{table_of};

use crate::replies;
use crate::replies::Reply;
use text::Spelling;

// Reads a text alone; the cells of its table are in the lent buffer.
#[unsafe(no_mangle)]
pub extern "C" fn harness_read_alone(m: &[u8], cells: &mut [u16]) -> Reply
    ensures value { result ≡ alone_read (alone_reply (read_alone Folded (length cells.old) m.now)) }
    ensures cells_after { cells.new ≡ cells_alone (length cells.old) (read_alone Folded (length cells.old) m.now) }
{
    Reply::from(reader::read_alone(m, Spelling::Folded, cells))
}

// Reads the texts of a module and a plan together; the cells of the tables are in the lent buffers.
#[unsafe(no_mangle)]
pub extern "C" fn harness_read_together<'a>(
    m: &'a [u8],
    p: &'a [u8],
    cm: &mut [u16],
    cp: &mut [u16],
) -> Reply
    ensures value { result ≡ together_read (together_reply (read_both Folded (length cm.old) m.now (length cp.old) p.now)) }
    ensures cm_after { cm.new ≡ cells_first (length cm.old) (read_both Folded (length cm.old) m.now (length cp.old) p.now) }
    ensures cp_after { cp.new ≡ cells_second (length cp.old) (read_both Folded (length cm.old) m.now (length cp.old) p.now) }
{
    Reply::from(reader::read_together(m, p, Spelling::Folded, cm, cp))
}

// Reads a stored text alone, by document 01's rule; the cells of its table are in the lent buffer.
#[unsafe(no_mangle)]
pub extern "C" fn harness_read_archive_alone(m: &[u8], cells: &mut [u16]) -> Reply
    ensures value { result ≡ alone_read (alone_reply (read_alone Exact (length cells.old) m.now)) }
    ensures cells_after { cells.new ≡ cells_alone (length cells.old) (read_alone Exact (length cells.old) m.now) }
{
    Reply::from(reader::read_alone(m, Spelling::Exact, cells))
}

// Reads the stored texts of a module and a plan together, by document 01's rule; the cells of the tables are in the lent buffers.
#[unsafe(no_mangle)]
pub extern "C" fn harness_read_archive_together<'a>(
    m: &'a [u8],
    p: &'a [u8],
    cm: &mut [u16],
    cp: &mut [u16],
) -> Reply
    ensures value { result ≡ together_read (together_reply (read_both Exact (length cm.old) m.now (length cp.old) p.now)) }
    ensures cm_after { cm.new ≡ cells_first (length cm.old) (read_both Exact (length cm.old) m.now (length cp.old) p.now) }
    ensures cp_after { cp.new ≡ cells_second (length cp.old) (read_both Exact (length cm.old) m.now (length cp.old) p.now) }
{
    Reply::from(reader::read_together(m, p, Spelling::Exact, cm, cp))
}

// Puts a looked-up name into the lent buffer as far as there is room, and gives the number of the lookup's refusal.
fn tell(name: &[u8], number: u32, out: &mut [u8]) -> Reply
    ensures value { result ≡ named number name.now }
    ensures out_after { out.new ≡ stored out.old 0 name.now }
{
    emit::put(out, 0, name);
    replies::bare(number, 0, 0, false, name.len())
}

// Looks up the name of a signal in two texts read together, and puts it into the lent buffer as far as there is room.
#[unsafe(no_mangle)]
pub extern "C" fn harness_name<'a>(m: &'a [u8], p: &'a [u8], signal: usize, out: &mut [u8]) -> Reply
    ensures value { result ≡ named (lookup_number Folded m.now p.now signal) (lookup Folded m.now p.now signal).name }
    ensures out_after { out.new ≡ stored out.old 0 (lookup Folded m.now p.now signal).name }
{
    tell(
        reader::name(m, p, Spelling::Folded, signal),
        reader::number(m, p, Spelling::Folded, signal),
        out,
    )
}

// Looks up the name of a signal in a text read alone, and puts it into the lent buffer as far as there is room.
#[unsafe(no_mangle)]
pub extern "C" fn harness_name_alone(m: &[u8], signal: usize, out: &mut [u8]) -> Reply
    ensures value { result ≡ named (lookup_number_alone Folded m.now signal) (lookup_alone Folded m.now signal).name }
    ensures out_after { out.new ≡ stored out.old 0 (lookup_alone Folded m.now signal).name }
{
    tell(
        reader::name_alone(m, Spelling::Folded, signal),
        reader::number_alone(m, Spelling::Folded, signal),
        out,
    )
}

// Looks up the name of a signal in two stored texts, by the archive reading, and puts it into the lent buffer as far as there is room.
#[unsafe(no_mangle)]
pub extern "C" fn harness_archive_name<'a>(
    m: &'a [u8],
    p: &'a [u8],
    signal: usize,
    out: &mut [u8],
) -> Reply
    ensures value { result ≡ named (lookup_number Exact m.now p.now signal) (lookup Exact m.now p.now signal).name }
    ensures out_after { out.new ≡ stored out.old 0 (lookup Exact m.now p.now signal).name }
{
    tell(
        reader::name(m, p, Spelling::Exact, signal),
        reader::number(m, p, Spelling::Exact, signal),
        out,
    )
}

// Looks up the name of a signal in a stored text read alone, by the archive reading, and puts it into the lent buffer as far as there is room.
#[unsafe(no_mangle)]
pub extern "C" fn harness_archive_name_alone(m: &[u8], signal: usize, out: &mut [u8]) -> Reply
    ensures value { result ≡ named (lookup_number_alone Exact m.now signal) (lookup_alone Exact m.now signal).name }
    ensures out_after { out.new ≡ stored out.old 0 (lookup_alone Exact m.now signal).name }
{
    tell(
        reader::name_alone(m, Spelling::Exact, signal),
        reader::number_alone(m, Spelling::Exact, signal),
        out,
    )
}

// Writes the text of a table into the lent buffer.
#[unsafe(no_mangle)]
pub extern "C" fn harness_write(
    states: usize,
    initial: usize,
    inputs: u32,
    outputs: u32,
    cells: &[u16],
    name: &[u8],
    names: &[&[u8]],
    out: &mut [u8],
) -> Reply
    ensures value { result ≡ written (writer_reply (table_of states initial inputs outputs cells.now) name.now (texts names.now) (length out.old)) }
    ensures out_after { out.new ≡ writer_bytes (table_of states initial inputs outputs cells.now) name.now (texts names.now) out.old }
{
    let a = table::header(states, initial, inputs, outputs);
    Reply::from(writer::write(a, cells, name, names, out))
}

// Writes what the program prints for two texts into the lent buffer; returns where it ends.
#[unsafe(no_mangle)]
pub extern "C" fn harness_report<'a>(
    m: &'a [u8],
    p: &'a [u8],
    cm: &mut [u16],
    cp: &mut [u16],
    cells: &mut [u16],
    flags: &mut [u8],
    out: &mut [u8],
) -> usize
    ensures value { result ≡ after (length out.old) 0 (report_text m.now p.now (length cm.old) (length cp.old) (length cells.old) (length flags.old)) }
    ensures out_after { out.new ≡ stored out.old 0 (report_text m.now p.now (length cm.old) (length cp.old) (length cells.old) (length flags.old)) }
    ensures flags_after { (cm.new, cp.new, cells.new, flags.new) ≡ report_buffers m.now p.now cm.old cp.old cells.old flags.old }
    ensures upper_bound { result ≤ 65608 }
{
    report::report(m, p, cm, cp, cells, flags, out)
}

// Writes what the lister of clashes prints for two texts into the lent buffer; returns where it ends.
#[unsafe(no_mangle)]
pub extern "C" fn harness_list<'a>(
    m: &'a [u8],
    p: &'a [u8],
    cm: &mut [u16],
    cp: &mut [u16],
    out: &mut [u8],
) -> usize
    ensures value { result ≡ after (length out.old) 0 (listing_text m.now p.now (length cm.old) (length cp.old)) }
    ensures out_after { out.new ≡ stored out.old 0 (listing_text m.now p.now (length cm.old) (length cp.old)) }
    ensures cm_after { cm.new ≡ cells_first (length cm.old) (read_both Exact (length cm.old) m.now (length cp.old) p.now) }
    ensures cp_after { cp.new ≡ cells_second (length cp.old) (read_both Exact (length cm.old) m.now (length cp.old) p.now) }
    ensures upper_bound { result ≤ 768 }
{
    report::list(m, p, cm, cp, out)
}
