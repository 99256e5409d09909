// One bit of a run of words turned: the leaf below the gates, which takes any words. Of a row set, proofs/View.antt says that the bits of a qubit, read
// and turned, are those of the rows' Paulis.

#![tactic(auto)]

ghost use Rattle.std.specs.Prelude.{◌≡◌, ◌/◌, ◌^◌, ◌<◌};
ghost use Rattle.encoding.specs.Words.{odd, with_bit};
ghost use Rattle.encoding.proofs.Odd.{xorᵇ};
ghost use Rattle.one_qubit.specs.Leaves.{with_turned};

// The word v with its bit k turned where b holds: no jump on b, which no processor foresees.
fn turned(v: u64, k: usize, b: bool) -> u64
    requires { k < 64 }
    ensures { result ≡ with_bit v k (xorᵇ (odd (v / 2 ^ k)) b) }
{
    v ^ ((b as u64) << k)
}

// Bit q of a run of words turns where b holds; past the run nothing is done.
pub fn turn_bit(x: &mut [u64], q: usize, b: bool)
    ensures { x.new ≡ with_turned x.old q b }
{
    let j = q / 64;
    if j < x.len() {
        x[j] = turned(x[j], q % 64, b);
    }
}
