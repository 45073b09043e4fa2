// A whole trial of a wire.
ghost use Rattle.lines.specs.Lines.{lines_of};
ghost use Rattle.passage.specs.Reports.{Tried};
ghost use Rattle.std.specs.Prelude.{IfOk, string_bytes};

use crate::post::post_all;
use crate::receive::{is_faithful, take_all};
use crate::totals::Totals;
use std::alloc::{AllocError, Global};
use wire::Wire;

// What a trial tells: every line, every slip that came, and the totals, with which the report ends.
#[derive(Drop)]
pub struct Trial {
    pub report: String,
    pub totals: Totals,
}

// Sends what the lines say over a wire, takes what comes, and reports on it all.
pub fn try_wire<W: Wire>(
    heap: Global,
    name: &str,
    wire: &mut W,
    most: usize,
    input: &[u8],
) -> Result<Trial, AllocError>
    ensures { IfOk result (λ t. Tried W.picks (W.room wire.old) most name.now (lines_of input.now) (W.waiting wire.old) (W.waiting wire.new) t.totals (string_bytes t.report)) }
{
    let mut report = format!(in heap; "{name}\n")?;
    let posted = post_all(heap, wire, input, &mut report)?;
    let came = take_all(heap, wire, most, &mut report)?;
    let totals = Totals {
        put: posted.sent.len(),
        refused: posted.refused,
        taken: came.len(),
        faithful: is_faithful(&posted.sent, &came),
    };
    writeln!(report, "{totals}")?;
    Ok(Trial { report, totals })
}
