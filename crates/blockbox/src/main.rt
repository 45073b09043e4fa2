// The block box's program: a sheet on standard input, its report on standard output.
#![tactic(auto)]

use sheet::report_sheet;
use std::io;
use std::io::Read;

fn main(rt: HostRuntime) -> io::Result<()> {
    let heap = rt.alloc();
    let mut input = Vec::new(heap);
    rt.stdin().take(65536).read_to_end(&mut input)?;
    let report = report_sheet(heap, input.as_slice())?;
    rt.print(report.as_str())
}
