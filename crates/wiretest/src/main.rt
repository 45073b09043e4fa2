// The lineman's test: slips from standard input, over a telegraph and over a radio.
#![tactic(auto)]

use passage::try_wire;
use radio::Radio;
use std::io;
use std::io::Read;
use telegraph::Telegraph;

// What the radio draws from: reordering, repeats (128 and more), and then in order.
const DRAWS: [u8; 12] = [3, 200, 1, 129, 0, 255, 77, 128, 127, 9, 130, 2];

// Enough takes to empty either wire: the telegraph's 64 slips, or the radio's 32 and a repeat for each draw.
const MOST: usize = 64;

fn main(rt: HostRuntime) -> io::Result<()> {
    let heap = rt.alloc();
    let mut input = Vec::new(heap);
    rt.stdin().read_to_end(&mut input)?;
    let mut bytes = [0u8; 640];
    let mut telegraph = Telegraph::new(&mut bytes);
    let trial = try_wire(heap, "telegraph", &mut telegraph, MOST, &input)?;
    rt.print(trial.report.as_str())?;
    let mut radio = Radio::new(heap, &DRAWS)?;
    let trial = try_wire(heap, "radio", &mut radio, MOST, &input)?;
    rt.print(trial.report.as_str())
}
