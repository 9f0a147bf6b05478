// The texts of weights.
ghost use Rattle.std.specs.Prelude.{◌≡◌, ◌≤◌, ◌↔◌, IsTrue, length};
ghost use Rattle.weight.specs.Text.{text};

use weight::Kind;

/// Whether the weight is shown so.
pub fn shows<K: Kind>(weight: &K, shown: &[u8]) -> bool
    ensures { length (text (K.Kind.worth weight.now)) ≤ 24 → (IsTrue result ↔ (shown.now ≡ text (K.Kind.worth weight.now))) }
{
    let mut space = [0; 24];
    match weight.show(&mut space) {
        Ok(long) => &space[..long] == shown,
        Err(_) => false,
    }
}
