// What the bench program writes for an input: definitions and their laws, and no code of its own.
#![tactic(auto)]

ghost use Rattle.std.specs.Prelude.{◌≡◌};

// A crate has a function; this one writes nothing.
pub fn same(x: u8) -> u8
    ensures { result ≡ x }
{
    x
}
