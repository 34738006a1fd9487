// Each function runs one example of document 01, as document 02 changes them, and prints what its calls answer.
ghost use Rattle.std.specs.Prelude.{◌≡◌, ◌/◌, ◌%◌, ◌^◌, ◌<◌, ◌≤◌, MatchResult, replicate, slice_set};
ghost use Rattle.gf2.specs.Operands.{max_width, carried_bytes};
ghost use Rattle.judging.specs.Faults.{number_of};
ghost use Rattle.card_writer.specs.Calls.{write_card};

use judging::Fault;
use netlist::Method;
use operand::Operand;
use std::io;
use table::Carried;

// The number of an answer's fault, 0 for none.
fn number_of<T: Drop>(answer: &Result<T, Fault>) -> usize
    ensures { MatchResult answer.now (λ _. result ≡ 0) (λ fault. result ≡ (number_of fault).0) }
{
    match answer {
        Ok(_) => 0,
        Err(fault) => fault.number().0,
    }
}

// "Widths 1, 572: 1; 2, 571 pass", for zero and one.
pub(crate) fn widths(rt: &impl Print, width: usize) -> io::Result<()>
    ensures { Unit {0} }
{
    let zero = number_of(&Operand::zero(width));
    let one = number_of(&Operand::one(width));
    println!(rt; "width {width}: zero {zero}, one {one}")
}

// The operand whose only coordinate is i.
fn alone(width: usize, i: usize) -> Operand
    requires { (i < width) × (width ≤ max_width) }
    ensures { (result.width ≡ width) × (result.bytes ≡ slice_set (replicate carried_bytes 0) (i / 8) (2 ^ (i % 8))) }
{
    let mut bytes = [0u8; Operand::BYTES];
    bytes[i / 8] = 1 << (i % 8);
    Operand {
        bytes,
        width: width as u16,
    }
}

// A turn of the operand whose only coordinate is 0, and whether that of the result is k modulo m.
fn turned(rt: &impl Print, width: usize, k: usize) -> io::Result<()>
    requires { (0 < width) × (width ≤ max_width) }
    ensures { Unit {0} }
{
    let answer = alone(width, 0).turn(k);
    let number = number_of(&answer);
    let place = k % width;
    let alone = u8::from(answer == Ok(alone(width, place)));
    println!(rt; "width {width} turned by {k}: {number}, coordinate {place} alone: {alone}")
}

// "Turn m-1 passes", and by document 02, (d), m, which is the turn by 0, and every other count, to 2^64 - 1.
pub(crate) fn turns(rt: &impl Print, width: usize) -> io::Result<()>
    requires { (0 < width) × (width ≤ max_width) }
    ensures { Unit {0} }
{
    for k in [width - 1, width, usize::MAX] {
        turned(rt, width, k)?;
    }
    Ok(())
}

// "Drawing 8: 17"; "drawing a table returns its type T"; "Width 18 .. now draws type 2".
pub(crate) fn drawn(rt: &impl Print, width: usize) -> io::Result<()>
    requires { width ≤ 18 }
    ensures { Unit {0} }
{
    let mut buffer = [238u8; 54];
    let table = &mut buffer[..width * limbs::bytes_for(width)];
    let answer = gaussian::draw(width, table);
    let number = number_of(&answer);
    let t = answer.unwrap_or(0);
    print!(rt; "drawn width {width}: {number}, type {t},")?;
    printing::bytes(rt, table)
}

// "Reduced list, width 2: 2 7, 0 0 2, .. With 24 words lent: 11; 25 fits".
pub(crate) fn list(rt: &impl Print, lent: usize) -> io::Result<()>
    requires { lent ≤ 25 }
    ensures { Unit {0} }
{
    let mut buffer = [99u32; 25];
    let words = &mut buffer[..lent];
    let answer = list_writer::list(2, Carried::Two.rows(), words, Method::Reduced);
    let number = number_of(&answer);
    let (ands, xors) = match answer {
        Ok(counts) => (counts.ands.0, counts.xors.0),
        Err(_) => (0, 0),
    };
    print!(rt;
        "reduced list of width 2, {lent} words lent: {number}, AND {ands}, XOR {xors}, words"
    )?;
    printing::words(rt, words)
}

// "Three XOR counts stand in the order plain, reduced, common".
pub(crate) fn xors(rt: &impl Print, title: &str, width: usize, table: &[u8]) -> io::Result<()>
    ensures { Unit {0} }
{
    print!(rt; "{title}: XOR")?;
    for method in [Method::Plain, Method::Reduced, Method::Common] {
        let xors = match netlist::gate_counts(width, table, method) {
            Ok(counts) => counts.xors.0,
            Err(_) => 0,
        };
        print!(rt; " {xors}")?;
    }
    println!(rt; "")
}

// "Writing a card returns its length in bytes".
fn written(rt: &impl Print, width: usize, table: &[u8], card: &mut [u8]) -> io::Result<()>
    ensures { card.new ≡ write_card width table.now card.old }
{
    let answer = card_writer::write(width, table, card);
    let number = number_of(&answer);
    let length = answer.unwrap_or(0);
    print!(rt; "card of width {width}: {number}, length {length},")?;
    printing::bytes(rt, card)
}

// "reading one returns m", and whether the bytes read are the table's.
fn read(rt: &impl Print, width: usize, table: &[u8], card: &[u8]) -> io::Result<()>
    requires { width ≤ 5 }
    ensures { Unit {0} }
{
    let mut buffer = [0u8; 5];
    let bytes = &mut buffer[..width];
    let answer = card::read(card, bytes);
    let number = number_of(&answer);
    let told = answer.unwrap_or(0);
    let same = u8::from(*bytes == *table);
    println!(rt; "card of width {width} read: {number}, width {told}, the carried table {same}")
}

// The card of a carried table, there and back. Its 2m-1 ones make 3m+1 bytes.
pub(crate) fn card(rt: &impl Print, table: Carried) -> io::Result<()>
    ensures { Unit {0} }
{
    let width = table.width();
    let mut buffer = [0u8; 16];
    let card = &mut buffer[..3 * width + 1];
    written(rt, width, table.rows(), card)?;
    read(rt, width, table.rows(), card)
}
