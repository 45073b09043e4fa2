// Taking from a wire what comes.
ghost use Rattle.passage.specs.Reports.{TakenAll};
ghost use Rattle.passage.specs.Takes.{AsWritten};
ghost use Rattle.std.specs.List.{All, Contains};
ghost use Rattle.std.specs.Prelude.{◌≡◌, Decides, IfOk, string_bytes};

use slip::Slip;
use std::alloc::{AllocError, Global};
use wire::Wire;

// Whether two slips say the same.
fn is_same(one: &Slip, other: &Slip) -> bool
    ensures { Decides result (one.now ≡ other.now) }
{
    one == other
}

// Whether a slip is one of some others.
fn is_among(others: &[Slip], slip: &Slip) -> bool
    ensures { Decides result (Contains others.now slip.now) }
{
    others.iter().any(|other| is_same(other, slip))
}

// Whether each of some slips is among others.
fn are_among(slips: &[Slip], others: &[Slip]) -> bool
    ensures { Decides result (All (Contains others.now) slips.now) }
{
    slips.iter().all(|slip| is_among(others, slip))
}

// Whether each slip came as it was written: none came that was not sent, and none that was sent is missing.
pub(crate) fn is_faithful(sent: &[Slip], came: &[Slip]) -> bool
    ensures { Decides result (AsWritten sent.now came.now) }
{
    are_among(came, sent) && are_among(sent, came)
}

// Takes until nothing waits, but at most so often, and reports on each slip: those that came, in their order.
pub(crate) fn take_all<W: Wire>(
    heap: Global,
    wire: &mut W,
    most: usize,
    report: &mut String,
) -> Result<Vec<Slip>, AllocError>
    ensures { IfOk result (λ came. TakenAll W.picks most (W.waiting wire.old) (string_bytes report.old) came.items (W.waiting wire.new) (string_bytes report.new)) }
{
    let mut came = Vec::new(heap);
    for _ in 0..most {
        let Some(slip) = wire.take() else {
            return Ok(came);
        };
        writeln!(report, "took {slip}")?;
        came.push(slip)?;
    }
    Ok(came)
}
