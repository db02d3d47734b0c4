ghost use Rattle.std.specs.Prelude.{◌==◌};
ghost use Rattle.std.proofs.Common.{rules};

use crate::kind::Kind;
use crate::table::Table;

#[derive(Clone, Copy)]
struct Letter(u8);

impl Kind for Letter {
    ghost equals = { λ x y. (x.0 == y.0) };

    ghost hash_of = { λ x. x.0 };

    ghost equivalence = { Prim.search rules };

    ghost alike = { Prim.search rules };

    fn same(&self, other: &Self) -> bool {
        self.0 == other.0
    }

    fn hash(&self) -> usize {
        self.0 as usize
    }
}

#[test]
fn equal_letters_get_one_number(rt: HostRuntime) {
    let mut rows = [Letter(0); 2];
    let mut table = Table::new(&mut rows);
    assert_eq!(rt; table.number(Letter(b'a')), Some(0));
    assert_eq!(rt; table.number(Letter(b'b')), Some(1));
    assert_eq!(rt; table.number(Letter(b'a')), Some(0));
    assert_eq!(rt; table.find(&Letter(b'b')), Some(1));
    assert_eq!(rt; table.number(Letter(b'c')), None);
}
