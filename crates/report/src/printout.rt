// Puts the lines that the programs print into a lent buffer: of a refusal and of a result (document 01, "The program and one full run"), and of a
// clash (document 02, S-9). Each call returns the place after what it put.
ghost use Rattle.std.specs.Prelude.{◌≡◌, ◌+◌, ◌≤◌, length};
ghost use Rattle.theory.specs.Rules.{rule_number};
ghost use Rattle.emit.specs.Buffer.{after, stored};
ghost use Rattle.report.specs.Lines.{refusal_text, clash_text, figures as figures_text, verdict_text, figure_text};

use text::{Clash, TextRefusal};

// Puts the line of a refusal, from the first byte of the buffer on: `refused`, file, number, line.
pub fn refusal_line(out: &mut [u8], refusal: TextRefusal) -> usize
    ensures value { result ≡ after (length out.old) 0 (refusal_text refusal.text (rule_number refusal.rule) refusal.line) }
    ensures out_after { out.new ≡ stored out.old 0 (refusal_text refusal.text (rule_number refusal.rule) refusal.line) }
    ensures upper_bound { result ≤ 26 }
{
    let i = emit::field(out, 0, b"refused", b'\t');
    let j = emit::number(out, i, refusal.text as usize, b'\t');
    let k = emit::number(out, j, refusal.rule.number() as usize, b'\t');
    emit::number(out, k, refusal.line, b'\n')
}

// Puts the line of a clash: file and line of the later name, then of the first one that it clashes with.
pub fn clash_line(out: &mut [u8], at: usize, clash: Clash) -> usize
    ensures value { result ≡ after (length out.old) at (clash_text clash) }
    ensures out_after { out.new ≡ stored out.old at (clash_text clash) }
    ensures upper_bound { result ≤ at + 24 }
{
    let later = clash.later;
    let first = clash.first;
    let i = emit::number(out, at, later.text as usize, b'\t');
    let j = emit::number(out, i, later.line, b'\t');
    let k = emit::number(out, j, first.text as usize, b'\t');
    emit::number(out, k, first.line, b'\n')
}

// Puts the first of the six lines, from the buffer's first byte on.
fn verdict(out: &mut [u8], compatible: bool) -> usize
    ensures value { result ≡ after (length out.old) 0 (verdict_text compatible) }
    ensures out_after { out.new ≡ stored out.old 0 (verdict_text compatible) }
{
    let i = emit::field(out, 0, b"verdict", b'\t');
    if compatible {
        return emit::field(out, i, b"yes", b'\n');
    }
    emit::field(out, i, b"none", b'\n')
}

// Puts a line of a word and a number.
fn figure(out: &mut [u8], at: usize, word: &[u8], n: usize) -> usize
    ensures value { result ≡ after (length out.old) at (figure_text word.now n) }
    ensures out_after { out.new ≡ stored out.old at (figure_text word.now n) }
{
    let i = emit::field(out, at, word, b'\t');
    emit::number(out, i, n, b'\n')
}

// Puts the six lines of a result, from the first byte of the buffer on.
pub fn figures(
    out: &mut [u8],
    compatible: bool,
    pairs: usize,
    kept: usize,
    rounds: usize,
    steps: usize,
    ends: usize,
) -> usize
    ensures value { result ≡ after (length out.old) 0 (figures_text compatible pairs kept rounds steps ends) }
    ensures out_after { out.new ≡ stored out.old 0 (figures_text compatible pairs kept rounds steps ends) }
{
    let a = verdict(out, compatible);
    let b = figure(out, a, b"pairs", pairs);
    let c = figure(out, b, b"kept", kept);
    let d = figure(out, c, b"rounds", rounds);
    let e = figure(out, d, b"steps", steps);
    figure(out, e, b"ends", ends)
}
