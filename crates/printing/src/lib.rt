// Bytes and words on standard output, for the test programs. No contract can say what is written: of these calls it is proved that
// they are safe and end. A write that fails is answered as its error, and nothing is written after it.
#![tactic(auto)]

use std::io;

// Each byte in hexadecimal, after a space, and the end of the line.
pub fn bytes(rt: &impl Print, s: &[u8]) -> io::Result<()>
    ensures { Unit {0} }
{
    for byte in s {
        print!(rt; " {byte:02x}")?;
    }
    println!(rt; "")
}

// Each word in decimal, after a space, and the end of the line.
pub fn words(rt: &impl Print, s: &[u32]) -> io::Result<()>
    ensures { Unit {0} }
{
    for word in s {
        print!(rt; " {word}")?;
    }
    println!(rt; "")
}
