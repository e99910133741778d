// What goes over a LIN bus beside the data: the protected identifier and the checksum.
#![tactic(auto)]

ghost use Rattle.std.specs.Prelude.{◌≡◌};
ghost use Rattle.lin.specs.Identifier.{protected_of};
ghost use Rattle.lin.specs.Checksum.{carried, checksum_of};

// The protected identifier of an ID, of which the low six bits count.
#[tactic(auto, using(crate::proofs::Identifiers::protected_sums, crate::proofs::Identifiers::xor_four))]
pub fn protected(id: usize) -> u8
    ensures { result ≡ protected_of id }
{
    let six = (id ^ id / 2 ^ id / 4 ^ id / 16) % 2;
    let seven = (id / 2 ^ id / 8 ^ id / 16 ^ id / 32) % 2;
    (id % 64 + six * 64 + (1 - seven) * 128) as u8
}

// A sum with one byte more.
#[tactic(auto, unfolding(crate::specs::Checksum::carried))]
fn carry(sum: u8, byte: u8) -> u8
    ensures { result ≡ carried sum byte }
{
    let (low, over) = sum.overflowing_add(byte);
    if over { low + 1 } else { low }
}

// The enhanced checksum. The carry is folded at each byte, so that data of any length has a sum.
pub fn checksum(protected: u8, bytes: &[u8]) -> u8
    ensures { result ≡ checksum_of protected bytes.now }
{
    !bytes.iter().fold(protected, |sum, byte| carry(sum, *byte))
}
