// Makes every byte that the lister of clashes prints for two stored texts (document 02, S-9), in a lent buffer.
ghost use Rattle.std.specs.Prelude.{◌≡◌, ◌≤◌, length};
ghost use Rattle.text.specs.declared.Spelling.TheVariants.{Exact};
ghost use Rattle.text.specs.Reading.{read_both, cells_first, cells_second};
ghost use Rattle.emit.specs.Buffer.{after, stored};
ghost use Rattle.report.specs.Listing.{Listed, lines_of, listing_text};

use crate::printout;
use reader::ClashList;

// Puts a line for each clash.
fn lines(out: &mut [u8], clashes: ClashList) -> usize
    requires { Listed clashes }
    ensures value { result ≡ after (length out.old) 0 (lines_of clashes) }
    ensures out_after { out.new ≡ stored out.old 0 (lines_of clashes) }
    ensures upper_bound { result ≤ 768 }
{
    let count = clashes.count;
    let used = &clashes.rows[0..count];
    let mut at: usize = 0;
    for clash in used {
        at = printout::clash_line(out, at, *clash);
    }
    at
}

// Writes a line for each clash in the stored texts of a module and a plan; or, if the archive reading refuses them, the line of the refusal alone.
// Returns the place after it, 768 at most.
pub fn list<'a>(m: &'a [u8], p: &'a [u8], cm: &mut [u16], cp: &mut [u16], out: &mut [u8]) -> usize
    ensures value { result ≡ after (length out.old) 0 (listing_text m.now p.now (length cm.old) (length cp.old)) }
    ensures out_after { out.new ≡ stored out.old 0 (listing_text m.now p.now (length cm.old) (length cp.old)) }
    ensures cm_after { cm.new ≡ cells_first (length cm.old) (read_both Exact (length cm.old) m.now (length cp.old) p.now) }
    ensures cp_after { cp.new ≡ cells_second (length cp.old) (read_both Exact (length cm.old) m.now (length cp.old) p.now) }
    ensures upper_bound { result ≤ 768 }
{
    match reader::list_clashes(m, p, cm, cp) {
        Ok(clashes) => lines(out, clashes),
        Err(r) => printout::refusal_line(out, r),
    }
}
