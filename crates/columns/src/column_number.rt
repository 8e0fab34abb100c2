// The number types that stand in columns. Each has an impl of its own: a macro may write none, as each proves the laws.
ghost use Rattle.std.specs.Prelude.{◌≡◌, ℕ, ℤ, pos, ◌≤◌, ◌≤ℤ◌, List, Result, MatchOption, FitsSigned};
ghost use Rattle.std.proofs.Common.{lit≤};
ghost use Rattle.std.specs.Int.{w16, w32, w64, FitsUnsigned};
ghost use Rattle.columns.specs.declared.read_refusal.ReadRefusal.{ReadRefusal};
ghost use Rattle.columns.specs.Reading.{ReadsSigned, ReadsUnsigned, signed_reading, unsigned_reading};
ghost use Rattle.columns.specs.NumberTypes.{NumberLaws};
ghost use Rattle.columns.specs.TypeLaws.{signed_laws, unsigned_laws};

// A type whose numbers are read from columns and written into them.
pub trait ColumnNumber: Copy + Sized {
    // The number that a value is.
    ghost value: { Self → ℤ };

    // The numbers that the type has.
    ghost in_range: { ℤ → Type 0 };

    // The order of two numbers.
    ghost at_most: { Self → Self → Type 0 };

    // What a field is read as, from a least number to a most.
    ghost reading: { Self → Self → List ℕ → Result Self ReadRefusal };

    // How an answer is tied to the columns.
    ghost reads: { Self → Self → List ℕ → Result Self ReadRefusal → Type 0 };

    // The number in the type that holds those of all.
    fn wide(self) -> i128
        ensures value { result ≡ value self }
        ensures range { in_range result };

    // The number in this type, if it has it.
    fn narrow(wide: i128) -> Option<Self>
        ensures { MatchOption result (in_range wide → ⊥) (λ n. value n ≡ wide) };

    // Order, reading and relation are those of the numbers as integers, and 64 bits and a sign hold each.
    ghost laws: { NumberLaws value in_range at_most reading reads };
}

impl ColumnNumber for u16 {
    ghost value = { pos };

    ghost in_range = { FitsUnsigned w16 };

    ghost at_most = { λ m n. m ≤ n };

    ghost reading = { unsigned_reading };

    ghost reads = { ReadsUnsigned };

    ghost laws = { unsigned_laws w16 (lit≤ tt) };

    fn wide(self) -> i128 {
        i128::from(self) // from 0 to 2^16 - 1
    }

    fn narrow(wide: i128) -> Option<u16> {
        u16::try_from(wide).ok()
    }
}

impl ColumnNumber for u32 {
    ghost value = { pos };

    ghost in_range = { FitsUnsigned w32 };

    ghost at_most = { λ m n. m ≤ n };

    ghost reading = { unsigned_reading };

    ghost reads = { ReadsUnsigned };

    ghost laws = { unsigned_laws w32 (lit≤ tt) };

    fn wide(self) -> i128 {
        i128::from(self) // from 0 to 2^32 - 1
    }

    fn narrow(wide: i128) -> Option<u32> {
        u32::try_from(wide).ok()
    }
}

impl ColumnNumber for u64 {
    ghost value = { pos };

    ghost in_range = { FitsUnsigned w64 };

    ghost at_most = { λ m n. m ≤ n };

    ghost reading = { unsigned_reading };

    ghost reads = { ReadsUnsigned };

    ghost laws = { unsigned_laws w64 (lit≤ tt) };

    fn wide(self) -> i128 {
        i128::from(self) // from 0 to 2^64 - 1
    }

    fn narrow(wide: i128) -> Option<u64> {
        u64::try_from(wide).ok()
    }
}

impl ColumnNumber for i16 {
    ghost value = { λ z. z };

    ghost in_range = { FitsSigned w16 };

    ghost at_most = { λ y z. y ≤ℤ z };

    ghost reading = { signed_reading };

    ghost reads = { ReadsSigned };

    ghost laws = { signed_laws w16 (lit≤ tt) };

    fn wide(self) -> i128 {
        i128::from(self) // from -2^15 to 2^15 - 1
    }

    fn narrow(wide: i128) -> Option<i16> {
        i16::try_from(wide).ok()
    }
}

impl ColumnNumber for i64 {
    ghost value = { λ z. z };

    ghost in_range = { FitsSigned w64 };

    ghost at_most = { λ y z. y ≤ℤ z };

    ghost reading = { signed_reading };

    ghost reads = { ReadsSigned };

    ghost laws = { signed_laws w64 (lit≤ tt) };

    fn wide(self) -> i128 {
        i128::from(self) // from -2^63 to 2^63 - 1
    }

    fn narrow(wide: i128) -> Option<i64> {
        i64::try_from(wide).ok()
    }
}
