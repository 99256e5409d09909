// Reading a file: every test first, on its bytes, then its parts into the outputs.
ghost use Rattle.std.specs.Prelude.{◌≡◌, ◌||◌, ◌++◌, ◌+◌, ◌*◌, ◌^◌, ◌≤◌, ◌<◌, ltb, length, drop};
ghost use Rattle.encoding.specs.Limits.{max_qubits, max_rows};
ghost use Rattle.encoding.specs.Refusals.{done_or};
ghost use Rattle.encoding.specs.Ranks.{by_rank};
ghost use Rattle.pwl.specs.Bytes.{nums};
ghost use Rattle.pwl.specs.File.{run_by, whole_len};
ghost use Rattle.pwl.specs.Calls.{run_lines, room_lines, filled_by, RunRead, Reads, outputs};
ghost use Rattle.pwl.specs.Workers.{places_of, TaskFault};

use crate::bytes::get_list;
use crate::opening::{FRONT_BYTES, open, part_words};
use crate::testing::{lists_fault, set_fault};
use crate::{Front, Places};
use encoding::{MAX_QUBITS, MAX_ROWS, Refusal, phase_words, smaller};

#[tactic(auto, unfolding(crate::specs::File::whole_len, crate::specs::File::bytes_in, crate::specs::File::shapes_by, crate::specs::Workers::places_by))]
fn places_of(f: Front) -> Places
    requires { (f.n ≤ 65535) × (f.m ≤ 65535) × (whole_len f < 2 ^ 64) }
    ensures { result ≡ places_of f }
{
    let words = part_words(f.n, f.m);
    let phases = phase_words(f.m);
    let listed = FRONT_BYTES + 2 * f.order;
    let extra = listed + 2 * f.listed;
    let start = extra + 2 * f.extra;
    let log = start + 8 * words + 8 * words + 8 * phases;
    let claim = log + 2 * (2 * f.entries);
    Places {
        listed,
        extra,
        start,
        log,
        claim,
        words,
        phases,
    }
}

// Whether what was to be reduced is refused.
fn task_fault(s: &[u8], f: Front, at: Places) -> Result<(), Refusal>
    requires { (f.n ≤ max_qubits) × (f.m ≤ max_rows) × (at ≡ places_of f) × (whole_len f ≤ length s.now) }
    ensures { TaskFault f s.now result }
{
    set_fault(s, at.start, f.n, f.m, at.words, at.phases)?;
    lists_fault(s, f.n, f.m, f.order, at.listed, f.listed, at.extra, f.extra)
}

// Whether the run in a file is refused, by the checker's lines.
#[tactic(auto, using(crate::proofs::Runs::words_are, crate::proofs::Runs::phases_are, crate::proofs::Runs::claim_fits, crate::proofs::Runs::run_number, crate::proofs::Runs::limit_1, crate::proofs::Runs::limit_2))]
fn run_fault(s: &[u8], f: Front, at: Places) -> Result<(), Refusal>
    requires { (at ≡ places_of f) × (whole_len f ≤ length s.now) }
    ensures { result ≡ done_or (by_rank (run_lines (run_by f s.now))) }
{
    if MAX_QUBITS < f.n {
        return Err(Refusal::MANY_QUBITS);
    }
    if MAX_ROWS < f.m {
        return Err(Refusal::MANY_ROWS);
    }
    let task = task_fault(s, f, at);
    let claim = set_fault(s, at.claim, f.n, f.m, at.words, at.phases);
    smaller(task, claim)
}

// t units from 41 on, and behind them the units of k entries from a place on.
#[tactic(auto, using(crate::proofs::Filling::joined))]
fn get_lists(s: &[u8], t: usize, log: usize, k: usize, units: &mut [u16])
    requires { (41 + 2 * t ≤ length s.now) × (log + 2 * (2 * k) ≤ length s.now) × (t + 2 * k ≤ length units.old) }
    ensures { units.new ≡ nums 2 t (drop 41 s.now) ++ (nums 2 (2 * k) (drop log s.now)
        ++ drop (2 * k) (drop t units.old)) }
{
    get_list(s, 41, t, units);
    get_list(s, log, 2 * k, &mut units[t..]);
}

// A row set from a place on: q words of X and of Z, v of phases.
fn get_rows(s: &[u8], at: usize, q: usize, v: usize, x: &mut [u64], z: &mut [u64], p: &mut [u64])
    requires { (at + 8 * q + 8 * q + 8 * v ≤ length s.now) × (q ≤ length x.old) × (q ≤ length z.old) × (v ≤ length p.old) }
    ensures x_after { x.new ≡ nums 8 q (drop at s.now) ++ drop q x.old }
    ensures z_after { z.new ≡ nums 8 q (drop (at + 8 * q) s.now) ++ drop q z.old }
    ensures p_after { p.new ≡ nums 8 v (drop (at + 8 * q + 8 * q) s.now) ++ drop v p.old }
{
    get_list(s, at, q, x);
    get_list(s, at + 8 * q, q, z);
    get_list(s, at + 8 * q + 8 * q, v, p);
}

// Whether an output is shorter than its content.
fn no_room(
    t: usize,
    q: usize,
    v: usize,
    units: usize,
    x: usize,
    z: usize,
    p: usize,
    claimed: usize,
) -> bool
    requires { q + (q + v) < 2 ^ 64 }
    ensures { result ≡ (ltb units t || (ltb x q || (ltb z q || (ltb p v || ltb claimed (q + (q + v)))))) }
{
    let a = units < t;
    let b = (x < q) | ((z < q) | ((p < v) | (claimed < q + (q + v))));
    a | b
}

// The run into outputs that have room for it.
fn fill(
    s: &[u8],
    f: Front,
    at: Places,
    units: &mut [u16],
    x: &mut [u64],
    z: &mut [u64],
    p: &mut [u64],
    claimed: &mut [u64],
)
    requires at_value { (at ≡ places_of f) × (whole_len f ≤ length s.now) }
    requires entries_in_bounds { (f.order + f.listed + f.extra + 2 * f.entries ≤ length units.old) × (at.words ≤ length x.old)
        × (at.words ≤ length z.old) × (at.phases ≤ length p.old) × (at.words + (at.words + at.phases) ≤ length claimed.old) }
    ensures { outputs units.new x.new z.new p.new claimed.new
        ≡ filled_by (run_by f s.now) (outputs units.old x.old z.old p.old claimed.old) }
{
    get_lists(s, f.order + f.listed + f.extra, at.log, f.entries, units);
    get_rows(s, at.start, at.words, at.phases, x, z, p);
    get_list(s, at.claim, at.words + (at.words + at.phases), claimed);
}

// The run of a whole file, if the table passes it and the outputs have room.
fn read_run(
    s: &[u8],
    f: Front,
    units: &mut [u16],
    x: &mut [u64],
    z: &mut [u64],
    p: &mut [u64],
    claimed: &mut [u64],
) -> Result<Front, Refusal>
    requires { (f.n ≤ 65535) × (f.m ≤ 65535) × (length s.now ≡ whole_len f) }
    ensures { RunRead (by_rank (run_lines (run_by f s.now) ++ room_lines (run_by f s.now)
        (outputs units.old x.old z.old p.old claimed.old))) f (run_by f s.now)
        (outputs units.old x.old z.old p.old claimed.old)
        (outputs units.new x.new z.new p.new claimed.new) result }
{
    let at = places_of(f);
    run_fault(s, f, at)?;
    let t = f.order + f.listed + f.extra + 2 * f.entries;
    if no_room(
        t,
        at.words,
        at.phases,
        units.len(),
        x.len(),
        z.len(),
        p.len(),
        claimed.len(),
    ) {
        return Err(Refusal::SHORT_OUTPUT);
    }
    fill(s, f, at, units, x, z, p, claimed);
    Ok(f)
}

// A file into five outputs: the units (order, listed rows, extra rows, log), the starting rows' X, Z and phase words, and the claimed rows (X, Z and
// phase words). Takes any bytes; what an output has past its content stays.
pub fn read(
    s: &[u8],
    units: &mut [u16],
    x: &mut [u64],
    z: &mut [u64],
    p: &mut [u64],
    claimed: &mut [u64],
) -> Result<Front, Refusal>
    ensures { Reads s.now (outputs units.old x.old z.old p.old claimed.old)
        (outputs units.new x.new z.new p.new claimed.new) result }
{
    let f = open(s)?;
    read_run(s, f, units, x, z, p, claimed)
}
