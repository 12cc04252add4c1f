// The text of the program: what it prints for an input, put into a buffer.
#![tactic(auto)]

ghost use Rattle.std.specs.Prelude.{◌≡◌, ◌++◌, ◌+◌, ◌≤◌, ◌<◌, length};
ghost use Rattle.arrayvec.specs.ArrayString.{array_string_len};
ghost use Rattle.records.specs.Record.{byte};
ghost use Rattle.listing.specs.Text.{decimal, head_line, refused_line, process_line, process_lines, ran_text, text_of, Listed};
ghost use Rattle.model.specs.Report.{Ran, outcome_in};
ghost use Rattle.terms.specs.Limits.{most_processes};

use arrayvec::ArrayString;
use engine::runs;
use itoa::Buffer;
use model::{LINE, Outcome, REPORT};

// The most bytes of an input.
pub const MOST_INPUT: usize = 65536;

// A buffer that any text fits.
pub const TEXT: usize = 2048;

// A text that grows. What is put on a page stands behind what it has, and wants the room: so much as that piece is long, which no type could say.
// It is put by hand: what `write!` promises of an error is nothing, and no text of this crate may be cut.
type Page = ArrayString<TEXT>;

// The byte at index i, 0 past the end.
fn byte_at(s: &[u8], i: usize) -> u8
    ensures { result ≡ byte i s.now }
{
    s.get(i).copied().unwrap_or(0)
}

#[tactic(auto, using(crate::proofs::Decimal::decimal_is_std))]
fn put_number(page: &mut Page, x: u32)
    requires { array_string_len page.old + length (decimal x) ≤ TEXT }
    ensures { page.new.bytes ≡ page.old.bytes ++ decimal x }
{
    page.push_str(Buffer::new().format(x));
}

// A number and what stands after it: a space, or the newline.
fn put_figure(page: &mut Page, x: u32, after: &str)
    requires { array_string_len page.old + length (decimal x ++ after.now) ≤ TEXT }
    ensures { page.new.bytes ≡ page.old.bytes ++ decimal x ++ after.now }
{
    put_number(page, x);
    page.push_str(after);
}

// The line of the process at index j: number, place, second figure, moves, late writes.
fn put_line(page: &mut Page, report: &[u32; REPORT], j: usize)
    requires { (j < most_processes) × (array_string_len page.old + length (process_line report.now j) ≤ TEXT) }
    ensures { page.new.bytes ≡ page.old.bytes ++ process_line report.now j }
{
    let line = LINE * j;
    put_figure(page, j as u32 + 1, " ");
    put_figure(page, report[line], " ");
    put_figure(page, report[line + 1], " ");
    put_figure(page, report[line + 2], " ");
    put_figure(page, report[line + 3], "\n");
}

// The lines of the first n processes.
#[tactic(auto, unfolding(crate::specs::Text::process_lines))]
fn put_lines(page: &mut Page, report: &[u32; REPORT], n: usize)
    requires { (n ≤ most_processes) × (array_string_len page.old + length (process_lines report.now n) ≤ TEXT) }
    ensures { page.new.bytes ≡ page.old.bytes ++ process_lines report.now n }
{
    for j in 0..n {
        put_line(page, report, j);
    }
}

// `kind K processes N records R`
fn put_head(page: &mut Page, kind: u32, n: u32, accepted: u32)
    requires { array_string_len page.old + length (head_line kind n accepted) ≤ TEXT }
    ensures { page.new.bytes ≡ page.old.bytes ++ head_line kind n accepted }
{
    page.push_str("kind ");
    put_number(page, kind);
    page.push_str(" processes ");
    put_number(page, n);
    page.push_str(" records ");
    put_figure(page, accepted, "\n");
}

// `refused NO at record INDEX`
fn put_refused(page: &mut Page, number: u32, index: u32)
    requires { array_string_len page.old + length (refused_line number index) ≤ TEXT }
    ensures { page.new.bytes ≡ page.old.bytes ++ refused_line number index }
{
    page.push_str("refused ");
    put_number(page, number);
    page.push_str(" at record ");
    put_figure(page, index, "\n");
}

// What a run returned and left: its lines, or its refusal.
#[tactic(auto, using(crate::proofs::Lengths::head_length, crate::proofs::Lengths::lines_length, crate::proofs::Lengths::refused_length))]
fn page_of_run(input: &[u8], ran: Outcome, report: &[u32; REPORT]) -> Page
    requires { (outcome_in ran).number ≡ 0 → byte 3 input.now ≤ most_processes }
    ensures { let told : Ran = record { outcome = outcome_in ran; report = report.now } in
        result.bytes ≡ ran_text input.now told }
{
    let mut page = Page::new();
    match ran {
        Ok(accepted) => {
            let n = byte_at(input, 3);
            put_head(
                &mut page,
                u32::from(byte_at(input, 2)),
                u32::from(n),
                accepted,
            );
            put_lines(&mut page, report, usize::from(n));
        }
        Err(refused) => put_refused(&mut page, u32::from(refused.refusal), refused.at),
    }
    page
}

// The text of an input.
#[tactic(auto, using(crate::proofs::TextLaws::text_over, crate::proofs::TextLaws::text_ran, crate::proofs::TextLaws::accepted_fits))]
fn page_of(input: &[u8]) -> Page
    ensures { result.bytes ≡ text_of input.now }
{
    if input.len() > MOST_INPUT {
        let mut page = Page::new();
        page.push_str("input over 65536\n");
        return page;
    }
    let mut report = [0; REPORT];
    let ran = runs::run(input, &mut report);
    page_of_run(input, ran, &report)
}

// The text that the program prints for an input.
#[tactic(auto, using(crate::proofs::TextLaws::listed))]
pub fn list(input: &[u8], text: &mut [u8; TEXT]) -> usize
    ensures { Listed input.now text.old result text.new }
{
    let page = page_of(input);
    text[..page.len()].copy_from_slice(page.as_bytes());
    page.len()
}
