// The report: a line of numbers a process.
ghost use Rattle.std.specs.Prelude.{◌≡◌, ◌+◌, ◌*◌, ◌≤◌, length};
ghost use Rattle.terms.specs.Overlay.{overlay, spliced};
ghost use Rattle.model.specs.Routine.{routine_of, routine};
ghost use Rattle.model.specs.Sizes.{line_width};
ghost use Rattle.model.specs.Report.{shown_place, figure_of, line, lines};

use crate::course::Course;
use kinds::Kind;
use model::{LINE, ROWS, Row};

fn shown_place(row: &Row) -> u32
    ensures { result ≡ shown_place row.now }
{
    if row.crashed {
        return 9;
    }
    u32::from(row.local.place)
}

// By kind, which are closed: a match.
fn figure(kind: Kind, row: &Row) -> u32
    ensures { result ≡ figure_of (routine_of kind) row.now }
{
    match kind {
        Kind::Lock => row.local.slot.0,
        Kind::Plain | Kind::Fast => row.local.decided,
    }
}

// The line of the process with this row, at the report's number `at`. Four stores: a line made and copied takes a run of 32 half as long again.
pub fn write_line(kind: Kind, row: &Row, at: usize, report: &mut [u32])
    requires { at + line_width ≤ length report.old }
    ensures { report.new ≡ spliced at (line (routine_of kind) row.now) report.old }
{
    report[at] = shown_place(row);
    report[at + 1] = figure(kind, row);
    report[at + 2] = row.moves;
    report[at + 3] = row.lates;
}

// The lines of all processes, over the report's first numbers.
pub fn write_lines(course: Course, rows: &[Row; ROWS], report: &mut [u32])
    requires { line_width * course.shape.count ≤ length report.old }
    ensures { report.new ≡ overlay (lines (routine course.shape) rows.now course.shape.count) report.old }
{
    let shape = course.shape;
    for j in 0..shape.count as usize {
        write_line(shape.kind, &rows[j], j * LINE, report);
    }
}
