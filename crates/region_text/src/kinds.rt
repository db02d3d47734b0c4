// How labels are told apart.
ghost use Rattle.std.specs.Prelude.{◌≡◌, ◌<◌, length, sum};
ghost use Rattle.std.proofs.Common.{rules};
ghost use Rattle.region_text.specs.Names.{same_label, label_hash};

use super::label::Declared;
use numbering::Kind;

// The sum of the bytes of a name.
fn sum_of(bytes: &[u8]) -> usize
    requires { length bytes.now < 9 }
    ensures { result ≡ sum bytes.now }
{
    bytes.iter().map(|byte| *byte as usize).sum()
}

/// Declared labels are equal where their names are.
impl Kind for Declared {
    ghost equals = { λ x y. same_label x.row y.row };

    ghost hash_of = { λ x. label_hash x.row };

    ghost equivalence = { Prim.search rules };

    ghost alike = { Prim.search rules };

    fn same(&self, other: &Declared) -> bool {
        self.row.name == other.row.name
    }

    fn hash(&self) -> usize {
        self.row.name.map_or(0, |name| sum_of(&name.bytes()))
    }
}
