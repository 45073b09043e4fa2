// Performing a sheet on a line.
ghost use Rattle.line.specs.Models.{model, setting};
ghost use Rattle.sheet.specs.Calls.{Turn, call_at, call_of, presents};
ghost use Rattle.rules.specs.Lines.{written_form};
ghost use Rattle.sheet.specs.Sheets.{SheetPerformed, SheetReported};
ghost use Rattle.std.specs.Prelude.{◌≡◌, IfOk, string_bytes};

use crate::report::Entry;
use book::{ClassBook, RuleBook};
use line::{Ends, Line};
use lines::Lines;
use rules::Answer;
use slip::Fault;
use std::alloc::{AllocError, Global};
use std::fmt::Write;
use telegraph::Telegraph;
use wire::Wire;
use words::{Command, read_line};

// How many bytes of a sheet count.
const COUNTED: usize = 65536;

// Writes a form, has it signed by both, and presents it.
fn pass_by_form<'w, W: Wire, B: RuleBook>(
    line: &mut Line<'w, W, B>,
    block: u32,
    end: u32,
) -> Result<Answer, Fault>
    ensures { Turn (setting line.old) (presents (written_form block end (model line.old))) (model line.old) result (model line.new) }
{
    let form = line.write_form(block, end)?;
    let signed = form.sign_as_conductor().sign_as_engineman();
    line.present(signed).map(Answer::Sent)
}

// Performs what a command asks for.
fn perform<'w, W: Wire, B: RuleBook>(
    line: &mut Line<'w, W, B>,
    command: Command,
) -> Result<Answer, Fault>
    ensures { Turn (setting line.old) (call_of command (model line.old)) (model line.old) result (model line.new) }
{
    match command {
        Command::Ask {
            block,
            end,
            train,
            class,
        } => line
            .ask(block, u32::from(end), train, class)
            .map(Answer::Serial),
        Command::Withdraw { block, end } => {
            line.withdraw(block, u32::from(end)).map(Answer::Sent)
        }
        Command::Show { block, end } => line.show(block, u32::from(end)).map(Answer::Shown),
        Command::Enter { block, end, train } => {
            line.enter(block, u32::from(end), train).map(Answer::Sent)
        }
        Command::Form { block, end } => pass_by_form(line, block, u32::from(end)),
        Command::Arrive { block, end, train } => {
            line.arrive(block, u32::from(end), train).map(Answer::Sent)
        }
        Command::Repeat { block, end, train } => line
            .repeat(block, u32::from(end), train)
            .map(Answer::Repeated),
        Command::Deliver => line.deliver().map(Answer::Delivered),
        Command::Fade => {
            line.fade();
            Ok(Answer::Faded)
        }
    }
}

// Reads a line and performs its call.
fn perform_line<'w, W: Wire, B: RuleBook>(
    line: &mut Line<'w, W, B>,
    text: &[u8],
) -> Result<Answer, Fault>
    ensures { Turn (setting line.old) (call_at text.now (model line.old)) (model line.old) result (model line.new) }
{
    let command = read_line(text)?;
    perform(line, command)
}

// Performs a sheet on a line, and makes its report.
pub fn perform_sheet<'w, W: Wire, B: RuleBook>(
    heap: Global,
    line: &mut Line<'w, W, B>,
    input: &[u8],
) -> Result<String, AllocError>
    ensures { IfOk result (λ s. SheetPerformed (setting line.old) (model line.old) input.now (string_bytes s) (model line.new)) }
{
    let mut report = String::new(heap);
    let lines = Lines::new(&input[..COUNTED.min(input.len())]);
    for (index, text) in lines.enumerate() {
        let entry = Entry::new(index + 1, perform_line(line, text));
        write!(report, "{entry}")?;
    }
    Ok(report)
}

// Performs a sheet on a line just made: three stations from serial 0, under the class book, over a telegraph of 640 bytes.
pub fn report_sheet(heap: Global, input: &[u8]) -> Result<String, AllocError>
    ensures { IfOk result (λ s. SheetReported input.now (string_bytes s)) }
{
    let ends = Ends::new(heap, 3, 0)?;
    let mut bytes = [0u8; 640];
    let mut wire = Telegraph::new(&mut bytes);
    let mut line = Line::new(ends, &mut wire, ClassBook);
    perform_sheet(heap, &mut line, input)
}
