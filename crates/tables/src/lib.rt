// What an opened area's tables say of its plan: theorems about the definitions of `opening`, and no code of its own.
#![tactic(auto)]

ghost use Rattle.std.specs.Prelude.{◌≡◌};

// A crate has a function; this one says nothing of an area.
pub fn same(x: u8) -> u8
    ensures { result ≡ x }
{
    x
}
