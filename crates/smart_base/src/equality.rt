//! Tests of equality.
ghost use Rattle.std.specs.Prelude.{◌≡◌};
ghost use Rattle.smart_base.specs.Lists.{same_bytes};

pub fn same_bytes(a: &[u8], b: &[u8]) -> bool
    ensures { result ≡ same_bytes a.now b.now }
{
    if a.len() != b.len() {
        return false;
    }
    for (i, x) in a.iter().enumerate() {
        if *x != b[i] {
            return false;
        }
    }
    true
}
