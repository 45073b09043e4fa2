// Sending what the lines say over a wire.
ghost use Rattle.lines.specs.Lines.{lines_of};
ghost use Rattle.passage.specs.Posts.{posted, put_by, slips_put};
ghost use Rattle.passage.specs.Reports.{lines_told};
ghost use Rattle.std.specs.Prelude.{◌≡◌, ◌+◌, false, ◌++◌, length, is_ok, IfOk, string_bytes, vec_len};

use lineman::{LineReport, slip_on};
use lines::Lines;
use slip::{Fault, Slip};
use std::alloc::{AllocError, Global};
use wire::Wire;

// Puts the slip that a line says.
fn post<W: Wire>(wire: &mut W, line: &[u8]) -> Result<Slip, Fault>
    ensures answer { result ≡ posted line.now (W.waiting wire.old) (W.room wire.old) }
    ensures after { W.waiting wire.new ≡ W.waiting wire.old ++ put_by result }
    ensures size { W.room wire.new ≡ W.room wire.old }
    ensures refused { is_ok result ≡ false → wire.new ≡ wire.old }
{
    let slip = slip_on(line)?;
    wire.put(slip)?;
    Ok(slip)
}

// What became of the lines: the slips that were put, in their order, and how many lines were refused.
#[derive(Drop)]
pub(crate) struct Posted {
    pub(crate) sent: Vec<Slip>,
    pub(crate) refused: usize,
}

// Puts what every line says, and reports on each.
pub(crate) fn post_all<W: Wire>(
    heap: Global,
    wire: &mut W,
    input: &[u8],
    report: &mut String,
) -> Result<Posted, AllocError>
    ensures sent { IfOk result (λ p. p.sent.items ≡ slips_put (W.room wire.old) (W.waiting wire.old) (lines_of input.now)) }
    ensures waits { IfOk result (λ p. W.waiting wire.new ≡ W.waiting wire.old ++ p.sent.items) }
    ensures lines { IfOk result (λ p. vec_len p.sent + p.refused ≡ length (lines_of input.now)) }
    ensures told { IfOk result (λ p. string_bytes report.new ≡ lines_told (W.room wire.old) (string_bytes report.old) 1 (W.waiting wire.old) (lines_of input.now)) }
{
    let mut sent = Vec::new(heap);
    let mut refused = 0usize; // counted, since the lines are not kept
    for (index, text) in Lines::new(input).enumerate() {
        let line = index + 1;
        let answer = post(wire, text);
        writeln!(report, "{}", LineReport { line, answer })?;
        match answer {
            Ok(slip) => sent.push(slip)?,
            Err(_) => refused += 1,
        }
    }
    Ok(Posted { sent, refused })
}
