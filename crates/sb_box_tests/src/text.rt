//! Texts of values, for the tests.

ghost use Rattle.std.specs.Prelude.{◌≡◌};

use sb_value::Str;
use std::alloc::Global;
use std::process::Abort;

pub fn text(rt: &impl Abort, alloc: Global, text: &str) -> Str
    ensures { result ≡ text.now }
{
    Str::from_string(String::from_str(alloc, text).expect(rt, "memory"))
}
