ghost use Rattle.std.specs.Prelude.{◌≡◌, ℕ, Bool};
ghost use Rattle.numbering.specs.Rows.{Alike, Equivalence};

/// A kind of row, which tells when two rows are equal, and hashes rows.
/// A trait of its own and not `Eq` with `Hash`, since rows that are equal here may differ elsewhere: two labels of one name are, whatever their live masks.
pub trait Kind {
    /// The equality of this kind.
    ghost equals: { Self → Self → Bool };

    /// The hash of a row.
    ghost hash_of: { Self → ℕ };

    /// Whether the two rows are equal.
    fn same(&self, other: &Self) -> bool
        ensures { result ≡ equals self.now other.now };

    /// The hash of the row; rows that differ should seldom have one hash, modulo the number of buckets.
    fn hash(&self) -> usize
        ensures { result ≡ hash_of self.now };

    /// Equality is an equivalence.
    ghost equivalence: { Equivalence equals };

    /// Equal rows hash alike.
    ghost alike: { Alike equals hash_of };
}
