// A scene: its records taken one after the other, each answer written as a line.
#![tactic(auto)]

ghost use Rattle.std.specs.Prelude.{◌≡◌, ◌≤◌, length};
ghost use Rattle.scene_words.specs.Words.{Wrote};
ghost use Rattle.scene_run.specs.Run as Sc;

use scene_lines::Line;
use scene_steps::Report;

// The line of a report.
fn line_of(report: Report, records: usize, at: usize) -> Line
    requires { at ≤ 65536 }
    ensures { result ≡ Sc.line_of report records at }
{
    match report {
        Report::End => Line::End(records),
        Report::Bad(f, field) => Line::Refused(f.fault_number(), at, field),
        Report::Refused(k) => Line::Refused(k, at, at + 6),
        Report::RefusedAt(k, index) => Line::RefusedAt(k, at, at + 6, index),
        Report::Line(line) => line,
    }
}

fn goes_on(report: Report) -> bool
    ensures { result ≡ Sc.goes_on report }
{
    matches!(report, Report::Line(_))
}

// The scene of at most 65,536 bytes, over a lent store.
fn run_in(
    s: &[u8],
    positions: &mut [f64],
    normals: &mut [f64],
    classes: &mut [u8],
    out: &mut [u8],
) -> usize
    requires { Sc.Running s.now (length positions.old) (length normals.old) (length classes.old) (length out.old) }
    ensures wrote { Wrote out.old 0 (Sc.told_text (Sc.told_of s.now positions.old normals.old classes.old)) out.new result }
    ensures upper_bound { result ≤ 196989 }
{
    // A `loop`: how many records there are is known only once the last was read.
    let mut c = scene_notes::fresh();
    let mut written = 0;
    loop {
        let r = scene_steps::step(s, c, positions, normals, classes);
        let report = r.report;
        written = scene_lines::put_line(out, written, line_of(report, c.records, c.at));
        if !goes_on(report) {
            return written;
        }
        c = r.next;
    }
}

// What the scene program prints for an input, written to `out`; answers how many bytes that is. 196,989 bytes are room for any scene:
// a line has at most three bytes for each byte of its record, a far's no more than 27 for 32, an area's 21 more, of which there are 16; the last line has at most
// 35, and 45 are kept for it.
pub fn run(s: &[u8], out: &mut [u8]) -> usize
    requires { 196989 ≤ length out.old }
    ensures wrote { Wrote out.old 0 (Sc.scene_text s.now) out.new result }
    ensures upper_bound { result ≤ 196989 }
{
    if 65536 < s.len() {
        return scene_lines::put_line(out, 0, Line::Refused(28, 0, 65536));
    }
    // The store is three arrays with a length in the notes: there is no heap.
    let mut positions = [0.0f64; 3072];
    let mut normals = [0.0f64; 3072];
    let mut classes = [0u8; 1024];
    run_in(s, &mut positions, &mut normals, &mut classes, out)
}
