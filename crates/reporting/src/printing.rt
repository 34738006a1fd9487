// What the report program prints for the bytes of its input.
ghost use Rattle.std.specs.Prelude.{◌≡◌, []};
ghost use Rattle.io.specs.Counts.{IsPrefixLen};
ghost use Rattle.table.specs.Rows.{Shaped};
ghost use Rattle.reporting.specs.Text.{text_of};
ghost use Rattle.reporting.specs.Steps.{appended, accepted_lines, judged_counts, front, InFront};
ghost use Rattle.reporting.specs.Report.{refusal, counts_line, table_report, report as printed};

use crate::text::{Draft, Text};
use judging::Fault;
use netlist::{AllCounts, GateCounts};

// Document 01's limit. A card of a table whose row 0 is right is shorter: docs/DECISIONS.md.
pub const INPUT_LIMIT: usize = 65536;

// The bytes of a table of the greatest width.
const LENT: usize = limbs::MAX_WIDTH * limbs::BYTES;

fn refused(text: Draft, fault: Fault) -> Draft
    ensures { result.bytes.items ≡ appended text.bytes.items (refusal fault) }
{
    text.append_line(b"refused", fault.number().0)
}

fn counts(text: Draft, word: &[u8], counts: GateCounts) -> Draft
    ensures { result.bytes.items ≡ appended text.bytes.items (counts_line word.now counts) }
{
    text.append_pair(word, counts.ands.0, counts.xors.0)
}

fn accepted(text: Draft, all: AllCounts) -> Draft
    ensures { result.bytes.items ≡ appended text.bytes.items (accepted_lines all) }
{
    let verdict = text.append(b"accepted\n");
    let first = counts(verdict, b"plain", all.plain);
    let second = counts(first, b"reduced", all.reduced);
    counts(second, b"common", all.common)
}

// The gates of the lists of a table that the check accepts, or the fault of the check.
fn judged(width: usize, table: &[u8]) -> Result<AllCounts, Fault>
    ensures { result ≡ judged_counts width table.now }
{
    table::check(width, table)?;
    netlist::all_counts(width, table)
}

// The report of a table that was read.
fn table_report(width: usize, table: &[u8]) -> Draft
    requires { Shaped width table.now }
    ensures { result.bytes.items ≡ appended [] (table_report width table.now) }
{
    let ones = ones::ones_of(table);
    let start = Draft::empty();
    let first = start.append_line(b"width", width);
    let head = first.append_line(b"ones", ones);
    match judged(width, table) {
        Ok(all) => accepted(head, all),
        Err(fault) => refused(head, fault),
    }
}

// The report of the table in front of the lent bytes.
fn front_report(width: usize, lent: &[u8]) -> Draft
    requires { InFront width lent.now }
    ensures { result.bytes.items ≡ appended [] (table_report width (front width lent.now)) }
{
    let size = width * limbs::bytes_for(width);
    table_report(width, &lent[..size])
}

// The text of the report, before the zeros after it.
fn drafted(card: &[u8]) -> Draft
    ensures { result.bytes.items ≡ printed card.now }
{
    if INPUT_LIMIT < card.len() {
        return refused(Draft::empty(), Fault::Length);
    }
    let mut lent = [0u8; LENT];
    match card::read(card, &mut lent) {
        Ok(width) => front_report(width, &lent),
        Err(fault) => refused(Draft::empty(), fault),
    }
}

pub fn report(card: &[u8]) -> Text
    ensures text { result ≡ text_of (printed card.now) }
    ensures fits { IsPrefixLen result.length result.bytes }
{
    drafted(card).finished()
}
