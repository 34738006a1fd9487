// Document 01's examples that are not starred, run through the proved calls.
#![tactic(auto)]

mod examples;

use std::io;
use table::Carried;

fn lists(rt: &impl Print) -> io::Result<()>
    ensures { Unit {0} }
{
    examples::list(rt, 25)?;
    examples::list(rt, 24)?;
    examples::xors(rt, "width 4", 4, Carried::Four.rows())?;
    examples::xors(rt, "width 5", 5, Carried::Five.rows())?;
    examples::xors(rt, "width 3, rows 02 07 07", 3, b"\x02\x07\x07")
}

fn cards(rt: &impl Print) -> io::Result<()>
    ensures { Unit {0} }
{
    for table in Carried::ALL {
        examples::card(rt, table)?;
    }
    Ok(())
}

fn main(rt: HostRuntime) -> io::Result<()> {
    for width in [1, 572, 2, 571] {
        examples::widths(&rt, width)?;
    }
    for width in [2, 5, 571] {
        examples::turns(&rt, width)?;
    }
    for width in [8, 2, 3, 4, 5, 18] {
        examples::drawn(&rt, width)?;
    }
    lists(&rt)?;
    cards(&rt)
}
