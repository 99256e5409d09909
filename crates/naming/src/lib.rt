// The name that a line starts with, and the call that it is. The calls stand together as their lines have the same fields, and as they lend.

#![tactic(auto)]

ghost use Rattle.std.specs.Prelude.{◌≡◌, ◌==◌, cond, ◌≤◌, length, take};
ghost use Rattle.std.specs.List.{position};
ghost use Rattle.naming.specs.Names.{same, by_name, call_of, name_end, of_two, of_one, lending as lendingNames, changing as changingNames, reducing as reducingNames, others as otherNames};

// Of a set that stays as it is: two rows, or a row and a qubit.
#[derive(Clone, Copy, PartialEq, Eq)]
pub enum OfTwo {
    Get,
    Phase,
    Table,
    Comm,
}

// One row.
#[derive(Clone, Copy, PartialEq, Eq)]
pub enum OfOne {
    Count,
    Central,
}

// Calls that write elsewhere.
#[derive(Clone, Copy, PartialEq, Eq)]
pub enum Lends {
    Act,
    Matrix,
    Write,
    Pair,
}

// Calls that change its rows one by one.
#[derive(Clone, Copy, PartialEq, Eq)]
pub enum Changes {
    Imul,
    Set,
    Gate,
    Read,
    Readx,
}

// Reductions, the checker, and the way back.
#[derive(Clone, Copy, PartialEq, Eq)]
pub enum Reduces {
    Reduce,
    All,
    Check,
    Undo,
}

#[derive(Clone, Copy, PartialEq, Eq)]
pub enum OnSet {
    Two(OfTwo),
    One(OfOne),
    Lent(Lends),
    Changed(Changes),
    Reduced(Reduces),
}

#[derive(Clone, Copy, PartialEq, Eq)]
pub enum Call {
    Unknown,
    Phase1,
    Act1,
    Whole,
    Float,
    States,
    Pwl,
    Set(OnSet),
}

fn first_space(s: &[u8]) -> Option<usize>
    ensures { result ≡ position (λ c. c == 32) s.now }
{
    s.iter().position(|c| *c == b' ')
}

// Where the name ends: at the first space, or with the line.
pub fn name_end(s: &[u8]) -> usize
    ensures { (result ≡ name_end s.now) × (result ≤ length s.now) }
{
    first_space(s).unwrap_or(s.len())
}

// The call where this is its name, and else another. Names are compared whole: a `match` on them asks byte by byte, which is four times as many cases.
fn named(s: &[u8], name: &[u8], call: Call, other: Call) -> Call
    ensures { result ≡ cond (same s.now name.now) call other }
{
    if s == name { call } else { other }
}

// A group has the calls of its names, and another for any other name.
fn of_two(s: &[u8], other: Call) -> Call
    ensures { result ≡ by_name of_two s.now other }
{
    let c = named(s, b"comm", Call::Set(OnSet::Two(OfTwo::Comm)), other);
    let c = named(s, b"phaset", Call::Set(OnSet::Two(OfTwo::Table)), c);
    let c = named(s, b"phase", Call::Set(OnSet::Two(OfTwo::Phase)), c);
    named(s, b"get", Call::Set(OnSet::Two(OfTwo::Get)), c)
}

fn of_one(s: &[u8], other: Call) -> Call
    ensures { result ≡ by_name of_one s.now other }
{
    let c = named(s, b"central", Call::Set(OnSet::One(OfOne::Central)), other);
    named(s, b"count", Call::Set(OnSet::One(OfOne::Count)), c)
}

fn lending(s: &[u8], other: Call) -> Call
    ensures { result ≡ by_name lendingNames s.now other }
{
    let c = named(s, b"pair", Call::Set(OnSet::Lent(Lends::Pair)), other);
    let c = named(s, b"write", Call::Set(OnSet::Lent(Lends::Write)), c);
    let c = named(s, b"matrix", Call::Set(OnSet::Lent(Lends::Matrix)), c);
    named(s, b"act", Call::Set(OnSet::Lent(Lends::Act)), c)
}

fn changing(s: &[u8], other: Call) -> Call
    ensures { result ≡ by_name changingNames s.now other }
{
    let c = named(
        s,
        b"readx",
        Call::Set(OnSet::Changed(Changes::Readx)),
        other,
    );
    let c = named(s, b"read", Call::Set(OnSet::Changed(Changes::Read)), c);
    let c = named(s, b"gate", Call::Set(OnSet::Changed(Changes::Gate)), c);
    let c = named(s, b"set", Call::Set(OnSet::Changed(Changes::Set)), c);
    named(s, b"imul", Call::Set(OnSet::Changed(Changes::Imul)), c)
}

fn reducing(s: &[u8], other: Call) -> Call
    ensures { result ≡ by_name reducingNames s.now other }
{
    let c = named(s, b"undo", Call::Set(OnSet::Reduced(Reduces::Undo)), other);
    let c = named(s, b"check", Call::Set(OnSet::Reduced(Reduces::Check)), c);
    let c = named(s, b"reduceall", Call::Set(OnSet::Reduced(Reduces::All)), c);
    named(s, b"reduce", Call::Set(OnSet::Reduced(Reduces::Reduce)), c)
}

fn others(s: &[u8], other: Call) -> Call
    ensures { result ≡ by_name otherNames s.now other }
{
    let c = named(s, b"pwl", Call::Pwl, other);
    let c = named(s, b"elems", Call::States, c);
    let c = named(s, b"elemf", Call::Float, c);
    let c = named(s, b"elemi", Call::Whole, c);
    let c = named(s, b"act1", Call::Act1, c);
    named(s, b"phase1", Call::Phase1, c)
}

// The call that a line names.
pub fn call_of(s: &[u8]) -> Call
    ensures { result ≡ call_of (take (name_end s.now) s.now) }
{
    let name = &s[..name_end(s)];
    let c = reducing(name, Call::Unknown);
    let c = changing(name, c);
    let c = lending(name, c);
    let c = of_one(name, c);
    let c = of_two(name, c);
    others(name, c)
}
