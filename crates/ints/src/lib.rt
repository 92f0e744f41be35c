// Signed machine numbers: laws for the proofs of other crates, and the size of a number.
#![tactic(auto)]

ghost use Rattle.std.specs.Prelude.{◌≡◌, nat_abs};

// Inner: the size of a number, whatever its sign; the least i64 has a size too.
pub fn size(z: i64) -> u64
    ensures { result ≡ nat_abs z }
{
    z.unsigned_abs()
}
