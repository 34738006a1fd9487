// The inverse by the chain of doublings and addings: m-1 is read in binary from its highest one,
// and the state after each step holds a to the power 2^k - 1.
ghost use Rattle.std.specs.Prelude.{◌≡◌, ◌+◌, ◌-◌, ◌*◌, ◌/◌, ◌%◌, ◌^◌};
ghost use Rattle.gf2.specs.Inverse.{digits, chain};
ghost use Rattle.table.specs.Rows.{Shaped};
ghost use Rattle.scatter.specs.Cells.{HasSlots};
ghost use Rattle.product.specs.Inner.{Sound, Ready, chain_of, state_of, stepped, added_from, Underway, inverted_by};

use crate::{Inverted, times};
use operand::Operand;
use scatter::Method;

// What a step hands on: the power t, its k, and the number of products made.
#[derive(Clone, Copy)]
struct State {
    t: Operand,
    k: usize,
    count: usize,
}

// One doubling: t := (t turned k)·t, k := 2k, and the count one higher. g is scratch for the product.
fn doubling_step(width: usize, table: &[u8], s: State, g: &mut [u64]) -> State
    requires { Ready width table.now s g.old }
    ensures { result ≡ stepped width table.now s.k s.t.bytes s.t.bytes (2 * s.k) (s.count + 1) }
{
    let turned = s.t.turn(s.k).unwrap();
    scatter::clear(g);
    State {
        t: times::times(Method::Plain, width, table, turned, s.t, g),
        k: 2 * s.k,
        count: s.count + 1,
    }
}

// One adding: t := (t turned 1)·a, k := k+1, and the count one higher.
fn adding_step(width: usize, table: &[u8], a: Operand, doubled: State, g: &mut [u64]) -> State
    requires { Ready width table.now doubled g.old × Sound width a }
    ensures { result ≡ stepped width table.now 1 doubled.t.bytes a.bytes (doubled.k + 1) (doubled.count + 1) }
{
    let turned = doubled.t.turn(1).unwrap();
    scatter::clear(g);
    State {
        t: times::times(Method::Plain, width, table, turned, a, g),
        k: doubled.k + 1,
        count: doubled.count + 1,
    }
}

// Document 01 names this form, two functions that call each other with fewer unread digits, so it stays.
// The doubling of the next digit, if one is left; it hands over to the adding.
#[cycle(add_double)]
fn double(width: usize, table: &[u8], a: Operand, s: State, unread: usize, g: &mut [u64]) -> State
    requires { Underway width table.now a s unread 0 × HasSlots g.old }
    ensures { result ≡ state_of width (digits width table.now a.bytes (width - 1) unread (chain_of s)) }
{
    if unread == 0 {
        return s;
    }
    let next = doubling_step(width, table, s, g);
    add(width, table, a, next, unread - 1, g)
}

// The adding of a digit, which does nothing for a 0; it hands back to the doubling.
#[cycle(add_double)]
fn add(
    width: usize,
    table: &[u8],
    a: Operand,
    doubled: State,
    unread: usize,
    g: &mut [u64],
) -> State
    requires { Underway width table.now a doubled unread ((width - 1) / 2 ^ unread % 2) × HasSlots g.old }
    ensures { result ≡ added_from width table.now a.bytes unread (chain_of doubled) }
{
    if ((width - 1) >> unread) % 2 == 0 {
        return double(width, table, a, doubled, unread, g);
    }
    let next = adding_step(width, table, a, doubled, g);
    double(width, table, a, next, unread, g)
}

// The last state of the chain. One scratch serves all its products.
fn last(width: usize, table: &[u8], a: Operand) -> State
    requires { Shaped width table.now × Sound width a }
    ensures { result ≡ state_of width (chain width table.now a.bytes) }
{
    let first = State {
        t: a,
        k: 1,
        count: 0,
    };
    let unread = ones::highest_one(width - 1);
    let mut g = [0u64; scatter::ROOM];
    double(width, table, a, first, unread, &mut g)
}

// The chain's power turned by one, with the number of products made.
pub(crate) fn inverted(width: usize, table: &[u8], a: Operand) -> Inverted
    requires { Shaped width table.now × Sound width a }
    ensures { result ≡ inverted_by width table.now a.bytes }
{
    let end = last(width, table, a);
    Inverted {
        value: end.t.turn(1).unwrap(),
        count: end.count,
    }
}
