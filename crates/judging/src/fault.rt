// The faults of document 01, which are the errors of every call: the enum, and each one's number and values.
ghost use Rattle.std.specs.Prelude.{◌≡◌};
ghost use Rattle.judging.specs.Faults.{call_number_of, card_number_of, list_number_of, number_of};

// What a call finds wrong beside widths, lengths, bits and the rules of a table.
#[derive(Clone, Copy, Debug, PartialEq, Eq)]
pub enum CallFault {
    InverseOfZero,
    TraceOne,
    OutputShort,
    NoType,
    BadGate,
}

// What is found in a card, byte by byte.
#[derive(Clone, Copy, Debug, PartialEq, Eq)]
pub enum CardFault {
    Ends,
    Number,
    Form,
    Place,
    Tail,
}

// What is found in a gate list that is handed in to be accepted, the coordinate of a wrong output with it.
#[derive(Clone, Copy, Debug, PartialEq, Eq)]
pub enum ListFault {
    Size,
    Form,
    Output(usize),
}

// A variant for each number of document 01's table; document 02 took 8 out by (d), and 7 by (f). Those of a call, of a
// card and of a list to be accepted are enums of their own: a match needs no proof of its own as long as an enum has at most a dozen
// variants.
#[derive(Clone, Copy, Debug, PartialEq, Eq)]
pub enum Fault {
    Width,
    Length,
    HighBit,
    RowZero,
    RowPair(usize),
    Triple(usize, usize),
    Call(CallFault),
    Card(CardFault),
    List(ListFault),
}

// A fault's number, and the two values returned beside it.
#[derive(Clone, Copy, Debug, PartialEq, Eq)]
pub struct FaultNumber(pub usize, pub usize, pub usize);

impl CallFault {
    fn number(self) -> FaultNumber
        ensures { result ≡ call_number_of self }
    {
        match self {
            CallFault::InverseOfZero => FaultNumber(9, 0, 0),
            CallFault::TraceOne => FaultNumber(10, 0, 0),
            CallFault::OutputShort => FaultNumber(11, 0, 0),
            CallFault::NoType => FaultNumber(17, 0, 0),
            CallFault::BadGate => FaultNumber(18, 0, 0),
        }
    }
}

impl CardFault {
    fn number(self) -> FaultNumber
        ensures { result ≡ card_number_of self }
    {
        match self {
            CardFault::Ends => FaultNumber(12, 0, 0),
            CardFault::Number => FaultNumber(13, 0, 0),
            CardFault::Form => FaultNumber(14, 0, 0),
            CardFault::Place => FaultNumber(15, 0, 0),
            CardFault::Tail => FaultNumber(16, 0, 0),
        }
    }
}

impl ListFault {
    fn number(self) -> FaultNumber
        ensures { result ≡ list_number_of self }
    {
        match self {
            ListFault::Size => FaultNumber(19, 0, 0),
            ListFault::Form => FaultNumber(20, 0, 0),
            ListFault::Output(r) => FaultNumber(21, r, 0),
        }
    }
}

impl Fault {
    pub fn number(self) -> FaultNumber
        ensures { result ≡ number_of self }
    {
        match self {
            Fault::Width => FaultNumber(1, 0, 0),
            Fault::Length => FaultNumber(2, 0, 0),
            Fault::HighBit => FaultNumber(3, 0, 0),
            Fault::RowZero => FaultNumber(4, 0, 0),
            Fault::RowPair(d) => FaultNumber(5, d, 0),
            Fault::Triple(i, j) => FaultNumber(6, i, j),
            Fault::Call(c) => c.number(),
            Fault::Card(c) => c.number(),
            Fault::List(c) => c.number(),
        }
    }
}
