// The text of a rehearsal, over the front of a text that has room for the longest.
ghost use Rattle.rehearsal.specs.Rehearsal.{bad_text, rehearsal_of};
ghost use Rattle.rehearsal.specs.Telling.{Tells, TellsRun};

use header::BadLine;

// What the run of a schedule comes to, or its first bad line: of the form, else of the first send that breaks the rule.
fn tell_run(schedule: &[u8], text: &mut [u8]) -> Result<usize, BadLine>
    ensures { TellsRun schedule.now text.old result text.new }
{
    let header = schedule::check_form(schedule)?;
    let nodes = played::play(schedule)?;
    Ok(report::report_into(header, nodes, text))
}

// A bad line, by its number.
fn put_bad(text: &mut [u8], line: usize) -> usize
    ensures { Tells (bad_text line) text.old result text.new }
{
    print::put_number_line(text, b"bad=", line as u64)
}

// The whole text.
pub(crate) fn tell(schedule: &[u8], text: &mut [u8]) -> usize
    ensures { Tells (rehearsal_of schedule.now) text.old result text.new }
{
    match tell_run(schedule, text) {
        Ok(size) => size,
        Err(BadLine(line)) => put_bad(text, line),
    }
}
